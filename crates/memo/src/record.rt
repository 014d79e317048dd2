// Records of paths with their kinds.
ghost use Rattle.std.specs.Prelude.{◌≡◌, ◌≤◌, [], map, length, take};
ghost use Rattle.std.specs.Str.{bytes_eq};
ghost use Rattle.memo.specs.Memo.{item_of, item, recalled, without};

use file_system::Kind;
use list::{copy, is_part};

// A path and its kind: the first `length` bytes are the path.
#[derive(Clone, Copy)]
pub(crate) struct Record {
    path: [u8; 1024],
    length: usize,
    kind: Kind,
}

impl Record {
    // A record of no path.
    pub(crate) fn new() -> Record
        ensures of_no_path { item_of result ≡ item [] Kind.Nothing }
    {
        Record {
            path: [0; 1024],
            length: 0,
            kind: Kind::Nothing,
        }
    }

    // The record becomes that of a path that fits.
    pub(crate) fn set(&mut self, path: &[u8], kind: Kind)
        ensures of_the_path { length path.now ≤ 1024 → item_of self.new ≡ item path.now kind }
    {
        let _ = copy(&mut self.path, 0, path);
        self.length = path.len();
        self.kind = kind;
    }

    // Whether the record is of a path.
    fn is_of(&self, path: &[u8]) -> bool
        ensures same_path { result ≡ bytes_eq (item_of self.now).path path.now }
    {
        is_part(&self.path, 0, self.length, path)
    }
}

// The kind in the first record of a path.
pub(crate) fn kind_in(records: &[Record], path: &[u8]) -> Option<Kind>
    ensures first { result ≡ recalled (map item_of records.now) path.now }
{
    records
        .iter()
        .find(|record| record.is_of(path))
        .map(|record| record.kind)
}

// Moves the records of other paths to the front, in their order, and tells how many those are.
pub(crate) fn keep_others(records: &mut [Record], held: usize, path: &[u8]) -> usize
    ensures in_order { map item_of (take result records.new) ≡ without path.now (map item_of (take held records.old)) }
{
    let end = held.min(records.len());
    let mut count = 0;
    for i in 0..end {
        let record = records[i];
        if !record.is_of(path) {
            records[count] = record;
            count += 1;
        }
    }
    count
}
