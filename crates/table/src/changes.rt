// Entries that are put in and taken out.
ghost use Rattle.std.specs.Prelude.{◌≡◌, ◌+◌, ◌≤◌, true, false, ◌++◌, length, map, take, drop, is_some};
ghost use Rattle.std.specs.Option.{option_map};
ghost use Rattle.list.specs.Held.{held, capacity, Within};
ghost use Rattle.file_system.specs.Store.{addition, IfAccepted};
ghost use Rattle.table.specs.Table.{sought, table_tree, table_space};
ghost use Rattle.table.specs.Sound.{table_sound};
ghost use Rattle.table.specs.Space.{SameSlices, Takes};
ghost use Rattle.table.specs.Parts.{node_with, bytes_of, entry_for, AllBefore, Inserted, moved, Removed};

use crate::Table;
use crate::entry::{Entry, moved, size_within};
use crate::order::place;
use file_system::Refusal;
use list::List;

impl Table<'_> {
    // Adds a file with its content, or a directory where there is none.
    pub(crate) fn add(&mut self, path: &[u8], content: Option<&[u8]>) -> Result<(), Refusal>
        ensures refused_by_the_checks { table_sound self.old → result ≡ addition (table_tree self.old) (table_space self.old) path.now (length (bytes_of (option_map (λ c. c.now) content.entry))) }
        ensures changes_that_path_alone { table_sound self.old → IfAccepted result path.now (node_with (option_map (λ c. c.now) content.entry)) (table_tree self.old) (table_tree self.new) (table_space self.old) (table_space self.new) }
        ensures takes_exactly_its_space { table_sound self.old → Takes result (length path.now + length (bytes_of (option_map (λ c. c.now) content.entry))) self.old self.new }
        ensures keeps_the_slices { SameSlices self.old self.new }
        ensures stays_sound { table_sound self.old → table_sound self.new }
    {
        self.check(path, content.unwrap_or(b"").len())?;
        self.insert(path, content);
        Ok(())
    }

    // Takes the entry of a path out, and gives its bytes back: those behind them move down.
    pub(crate) fn take_out(&mut self, path: &[u8])
        ensures one_entry_less { table_sound self.old → is_some (sought (held self.old.bytes) (held self.old.entries) path.now) ≡ true → Removed self.old self.new path.now }
        ensures keeps_the_slices { SameSlices self.old self.new }
    {
        let at = self.place_of(path);
        let Some(e) = self.entries.get(at) else {
            return;
        };
        let size = size_within(e, self.bytes.len());
        self.entries.remove(at, 1);
        self.bytes.remove(e.start, size);
        move_down(&mut self.entries, e.start, size);
    }

    // The place in path order where a path belongs.
    fn place_of(&self, path: &[u8]) -> usize
        ensures inside { table_sound self.now → result ≤ self.now.entries.len }
        ensures those_before { table_sound self.now → AllBefore (held self.now.bytes) path.now true (take result (held self.now.entries)) }
        ensures those_not_before { table_sound self.now → AllBefore (held self.now.bytes) path.now false (drop result (held self.now.entries)) }
    {
        place(self.entries.as_slice(), self.bytes.as_slice(), path)
    }

    // Puts an entry at its place in path order, and its path and content behind the bytes held. There is space for it: the
    // answers of the lists are let go, since the checks have shown that all three fit.
    fn insert(&mut self, path: &[u8], content: Option<&[u8]>)
        ensures one_entry_more { table_sound self.old → table_space self.old path.now (length (bytes_of (option_map (λ c. c.now) content.entry))) ≡ true → Inserted self.old self.new path.now (entry_for (held self.old.bytes) path.now (option_map (λ c. c.now) content.entry)) (path.now ++ bytes_of (option_map (λ c. c.now) content.entry)) }
        ensures keeps_the_slices { SameSlices self.old self.new }
    {
        let at = self.place_of(path);
        let entry = Entry {
            start: self.bytes.len(),
            path: path.len(),
            content: content.map(|bytes| bytes.len()),
        };
        let _ = self.bytes.append(path);
        let _ = self.bytes.append(content.unwrap_or(b""));
        let _ = self.entries.insert(at, entry);
    }
}

// Entries whose bytes stand behind a gap move down by its size.
fn move_down(entries: &mut List<'_, Entry>, start: usize, size: usize)
    ensures moved { held entries.new ≡ map (moved start size) (held entries.old) }
    ensures within { Within entries.new }
    ensures same_capacity { capacity entries.new ≡ capacity entries.old }
    ensures same_memory { entries.new.items.ghost_name ≡ entries.old.items.ghost_name }
{
    for at in 0..entries.len() {
        if let Some(e) = entries.get(at) {
            entries.replace(at, moved(e, start, size));
        }
    }
}
