// Entries in the order of their paths.
ghost use Rattle.std.specs.Prelude.{◌≡◌, ◌≤◌, true, false, length, take, drop};
ghost use Rattle.table.specs.Table.{path_of, sought};
ghost use Rattle.table.specs.Sound.{before, Sorted};
ghost use Rattle.table.specs.Parts.{AllBefore};

use crate::entry::Entry;
use list::{after, front, is_part};

// Whether the path of an entry comes before a path.
#[tactic(auto, using(crate::proofs::TableOrder::before_is))]
fn is_before(bytes: &[u8], e: Entry, path: &[u8]) -> bool
    ensures in_path_order { result ≡ before (path_of bytes.now e) path.now }
{
    front(after(bytes, e.start), e.path).cmp(path).is_lt()
}

// How many entries have paths that come before a path, and so the place where that path belongs.
pub(crate) fn place(entries: &[Entry], bytes: &[u8], path: &[u8]) -> usize
    ensures inside { result ≤ length entries.now }
    ensures those_before { Sorted bytes.now entries.now → AllBefore bytes.now path.now true (take result entries.now) }
    ensures those_not_before { Sorted bytes.now entries.now → AllBefore bytes.now path.now false (drop result entries.now) }
{
    entries.partition_point(|e| is_before(bytes, *e, path))
}

// The first entry with a path, where the entries stand in path order.
pub(crate) fn find(entries: &[Entry], bytes: &[u8], path: &[u8]) -> Option<Entry>
    ensures first { Sorted bytes.now entries.now → result ≡ sought bytes.now entries.now path.now }
{
    let e = *entries.get(place(entries, bytes, path))?;
    is_part(bytes, e.start, e.path, path).then_some(e)
}
