//! A store of files in lent memory: entries in one slice, their paths and contents in another.
#![tactic(auto)]

ghost use Rattle.std.specs.Prelude.{◌≡◌, ◌+◌, [], ◌∷◌, length, if◌then◌else◌};
ghost use Rattle.std.specs.Str.{bytes_eq};
ghost use Rattle.file_system.specs.Tree.{Path, nothing, directory, file, is_directory, is_nothing};
ghost use Rattle.file_system.specs.Store.{addition, IfAccepted, Removal};
ghost use Rattle.table.specs.Table.{space_of, table_tree, table_space};
ghost use Rattle.table.specs.Sound.{table_sound};
ghost use Rattle.table.specs.Space.{entry_memory, byte_memory, entry_slice, byte_slice, SameSlices, Takes, content_size, GivesBack};
ghost use Rattle.table.specs.Parts.{meant};
ghost use Rattle.table.specs.Law.{holds_only_storable};

mod changes;
mod checks;
mod entry;
mod node;
mod order;

use crate::node::{copy_part, node_at};
pub use entry::Entry;
use file_system::{FileSystem, Kind, Part, Refusal};
use list::List;
pub use node::Node;

#[derive(Drop)]
pub struct Table<'a> {
    entries: List<'a, Entry>,
    bytes: List<'a, u8>,
}

impl<'a> Table<'a> {
    /// A table that holds only `/`, in the lent memory.
    pub fn new(entries: &'a mut [Entry], bytes: &'a mut [u8]) -> Table<'a>
        ensures begins_with_the_root_alone { (p : Path) → table_tree result p ≡ (if bytes_eq p (47 ∷ []) then directory else nothing) }
        ensures has_exactly_the_lent_space { table_space result ≡ space_of (length entries.old) (length bytes.old) [] }
        ensures is_sound { table_sound result }
        ensures same_slices { (entry_slice result ≡ entries.entry.ghost_name) × (byte_slice result ≡ bytes.entry.ghost_name) }
        ensures memory_as_before { (entry_memory result ≡ entries.old) × (byte_memory result ≡ bytes.old) }
    {
        Table {
            entries: List::new(entries),
            bytes: List::new(bytes),
        }
    }

    // What a path holds.
    pub(crate) fn node(&self, path: &[u8]) -> Node<'_>
        ensures follows_the_tree { table_sound self.now → meant result ≡ table_tree self.now path.now }
    {
        node_at(self.entries.as_slice(), self.bytes.as_slice(), path)
    }

    // Whether the path is a directory.
    pub(crate) fn is_directory(&self, path: &[u8]) -> bool
        ensures holds_a_directory { table_sound self.now → result ≡ is_directory (table_tree self.now path.now) }
    {
        matches!(self.node(path), Node::Directory)
    }

    // Whether the path holds nothing.
    pub(crate) fn is_free(&self, path: &[u8]) -> bool
        ensures holds_nothing { table_sound self.now → result ≡ is_nothing (table_tree self.now path.now) }
    {
        matches!(self.node(path), Node::Nothing)
    }
}

impl<'a> FileSystem for Table<'a> {
    ghost tree = { table_tree };

    ghost space = { table_space };

    ghost sound = { table_sound };

    ghost holds_only_storable_paths = { holds_only_storable };

    fn kind(&mut self, path: &[u8]) -> Kind {
        Kind::from(self.node(path))
    }

    fn read(&mut self, path: &[u8], from: usize, into: &mut [u8]) -> Option<Part> {
        match self.node(path) {
            Node::File(content) => Some(Part {
                count: copy_part(content, from, into),
                length: content.len(),
            }),
            _ => None,
        }
    }

    // A change says beside the trait's clauses, which stand here again for that, what it takes of the lent memory or gives
    // back, so that the rule of space stays exact from one to the next, and that the slices stay, whatever they held.
    fn add_directory(&mut self, path: &[u8]) -> Result<(), Refusal>
        ensures refused_by_the_checks { table_sound self.old → result ≡ addition (table_tree self.old) (table_space self.old) path.now 0 }
        ensures changes_that_path_alone { table_sound self.old → IfAccepted result path.now directory (table_tree self.old) (table_tree self.new) (table_space self.old) (table_space self.new) }
        ensures takes_exactly_its_space { table_sound self.old → Takes result (length path.now) self.old self.new }
        ensures keeps_the_slices { SameSlices self.old self.new }
        ensures stays_sound { table_sound self.old → table_sound self.new }
    {
        self.add(path, None)
    }

    fn add_file(&mut self, path: &[u8], content: &[u8]) -> Result<(), Refusal>
        ensures refused_by_the_checks { table_sound self.old → result ≡ addition (table_tree self.old) (table_space self.old) path.now (length content.now) }
        ensures changes_that_path_alone { table_sound self.old → IfAccepted result path.now (file content.now) (table_tree self.old) (table_tree self.new) (table_space self.old) (table_space self.new) }
        ensures takes_exactly_its_space { table_sound self.old → Takes result (length path.now + length content.now) self.old self.new }
        ensures keeps_the_slices { SameSlices self.old self.new }
        ensures stays_sound { table_sound self.old → table_sound self.new }
    {
        self.add(path, Some(content))
    }

    fn remove(&mut self, path: &[u8]) -> Result<(), Refusal>
        ensures refused_by_the_checks { table_sound self.old → Removal (table_tree self.old) path.now result }
        ensures changes_that_path_alone { table_sound self.old → IfAccepted result path.now nothing (table_tree self.old) (table_tree self.new) (table_space self.old) (table_space self.new) }
        ensures gives_exactly_its_space_back { table_sound self.old → GivesBack result (length path.now + content_size (table_tree self.old path.now)) self.old self.new }
        ensures keeps_the_slices { SameSlices self.old self.new }
        ensures stays_sound { table_sound self.old → table_sound self.new }
    {
        self.check_removal(path)?;
        self.take_out(path);
        Ok(())
    }
}
