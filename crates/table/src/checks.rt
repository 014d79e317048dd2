// The checks of a change, in their order.
ghost use Rattle.std.specs.Prelude.{◌≡◌, ◌+◌, not, ◌&&◌, nat_le};
ghost use Rattle.std.specs.List.{list_any};
ghost use Rattle.list.specs.Held.{held};
ghost use Rattle.file_system.specs.Tree.{storable};
ghost use Rattle.file_system.specs.Store.{has_place, addition, Removal};
ghost use Rattle.table.specs.Table.{table_tree, table_space};
ghost use Rattle.table.specs.Sound.{table_sound};
ghost use Rattle.table.specs.Parts.{is_child, LastCheck};

use crate::Table;
use crate::entry::is_child;
use crate::node::Node;
use file_system::{Refusal, is_storable};
use path::parent;

impl Table<'_> {
    // Whether the path is not `/`, and its parent is a directory.
    pub(crate) fn has_place(&self, path: &[u8]) -> bool
        ensures in_a_directory { table_sound self.now → result ≡ has_place (table_tree self.now) path.now }
    {
        match parent(path) {
            Some(above) => self.is_directory(above),
            None => false,
        }
    }

    // Whether an entry is free, and the bytes of the path and of so much content.
    pub(crate) fn has_space(&self, path: &[u8], size: usize) -> bool
        ensures exact_rule { table_sound self.now → result ≡ table_space self.now path.now size }
    {
        self.entries.room() > 0 && fit(path.len(), size, self.bytes.room())
    }

    // The checks of an addition, in their order.
    pub(crate) fn check(&self, path: &[u8], size: usize) -> Result<(), Refusal>
        ensures first_that_fails { table_sound self.now → result ≡ addition (table_tree self.now) (table_space self.now) path.now size }
    {
        if !is_admissible(path, size) {
            return Err(Refusal::NotAdmissible);
        }
        if !self.has_place(path) {
            return Err(Refusal::NoParent);
        }
        if !self.is_free(path) {
            return Err(Refusal::Conflict);
        }
        if !self.has_space(path, size) {
            return Err(Refusal::NoSpace);
        }
        Ok(())
    }

    // Whether nothing stands directly in a directory. Each entry is looked at: the paths in a directory do not stand right
    // behind it, since `/a-b` comes between `/a` and `/a/x`.
    fn is_empty(&self, path: &[u8]) -> bool
        ensures no_child { result ≡ not (list_any (λ e. is_child (held self.now.bytes) path.now e) (held self.now.entries)) }
    {
        let bytes = self.bytes.as_slice();
        !self
            .entries
            .as_slice()
            .iter()
            .any(|e| is_child(bytes, *e, path))
    }

    // The checks of a removal, in their order.
    pub(crate) fn check_removal(&self, path: &[u8]) -> Result<(), Refusal>
        ensures first_that_fails { table_sound self.now → Removal (table_tree self.now) path.now result }
    {
        if !is_storable(path) {
            return Err(Refusal::NotAdmissible);
        }
        if !self.has_place(path) {
            return Err(Refusal::NoParent);
        }
        match self.node(path) {
            Node::Nothing => Err(Refusal::Conflict),
            Node::Directory => self.check_empty(path),
            Node::File(_) => Ok(()),
        }
    }

    // Whether a directory is empty, as the last check of its removal.
    fn check_empty(&self, path: &[u8]) -> Result<(), Refusal>
        ensures last_check { table_sound self.now → LastCheck (table_tree self.now) path.now result }
    {
        if self.is_empty(path) {
            Ok(())
        } else {
            Err(Refusal::Conflict)
        }
    }
}

// Whether a store can hold the path, and a content of that size.
fn is_admissible(path: &[u8], size: usize) -> bool
    ensures within_the_limits { result ≡ (storable path.now && nat_le size 65535) }
{
    is_storable(path) && size <= 65535
}

// Whether two lengths together are within the room.
fn fit(path: usize, size: usize, room: usize) -> bool
    ensures within { result ≡ nat_le (path + size) room }
{
    path <= room && size <= room - path
}
