// An entry of a table, and what its places tell.
ghost use Rattle.std.specs.Prelude.{◌≡◌, ◌≤◌, None};
ghost use Rattle.file_system.specs.Tree.{directory};
ghost use Rattle.table.specs.Table.{size_of};
ghost use Rattle.table.specs.Parts.{moved, is_child};

use list::{after, front};
use path::parent;

/// A directory or a file: its path stands at `start` among the table's bytes, and a file's content follows it. Places and
/// no slices, since there is no heap and the lent bytes are still written.
#[derive(Clone, Copy)]
pub struct Entry {
    pub(crate) start: usize,
    pub(crate) path: usize,
    pub(crate) content: Option<usize>,
}

// An entry that fills memory not yet used; written out, so that its contract names what it holds.
impl Default for Entry {
    ghost use Rattle.std.specs.Prelude.{◌≡◌, None};

    ghost is_default = { λ entry. entry ≡ record { start = 0; path = 0; content = None } };

    fn default() -> Entry {
        Entry {
            start: 0,
            path: 0,
            content: None,
        }
    }
}

// An entry, as it stands once a gap is closed.
pub(crate) fn moved(e: Entry, start: usize, size: usize) -> Entry
    ensures down_if_behind { result ≡ moved start size e }
{
    if start < e.start {
        return Entry {
            start: e.start.saturating_sub(size),
            path: e.path,
            content: e.content,
        };
    }
    e
}

// How many bytes an entry takes, or `most` where that is less.
pub(crate) fn size_within(e: Entry, most: usize) -> usize
    ensures whole { size_of e ≤ most → result ≡ size_of e }
{
    let content = match e.content {
        Some(length) => length,
        None => 0,
    };
    if e.path > most || content > most - e.path {
        return most;
    }
    e.path + content
}

// Whether an entry stands directly in a directory.
pub(crate) fn is_child(bytes: &[u8], e: Entry, directory: &[u8]) -> bool
    ensures directly { result ≡ is_child bytes.now directory.now e }
{
    match parent(front(after(bytes, e.start), e.path)) {
        Some(above) => above == directory,
        None => false,
    }
}
