// The kinds of up to 64 paths, the one held the longest first.
ghost use Rattle.std.specs.Prelude.{◌≡◌, ◌≤◌, [], length};
ghost use Rattle.memo.specs.Memo.{item, first_place, remembered, recalled, entered, without};

use crate::record::{Record, keep_others, kind_in};
use file_system::Kind;
use list::{after, front};

// How many paths are remembered.
const LIMIT: usize = 64;

// The records that are remembered; they lie in the value itself, since there is no heap. Once all are in use the newest is
// written over the one held the longest.
#[derive(Drop)]
pub(crate) struct RememberedKinds {
    records: [Record; LIMIT],
    count: usize,
    // the place of the one held the longest, once all are in use
    oldest: usize,
}

impl RememberedKinds {
    // Remembers nothing.
    pub(crate) fn new() -> RememberedKinds
        ensures none { remembered result ≡ [] }
    {
        RememberedKinds {
            records: [Record::new(); LIMIT],
            count: 0,
            oldest: 0,
        }
    }

    // The place of the record held the longest: no record was written over before all were in use.
    fn first(&self) -> usize
        ensures place { result ≡ first_place self.now }
    {
        if self.count < LIMIT {
            0
        } else {
            self.oldest % LIMIT
        }
    }

    // The kind that is remembered of a path.
    pub(crate) fn recall(&self, path: &[u8]) -> Option<Kind>
        ensures first { result ≡ recalled (remembered self.now) path.now }
        ensures at_most_64 { length (remembered self.now) ≤ 64 }
    {
        let first = self.first();
        let older = after(front(&self.records, self.count), first);
        if let Some(kind) = kind_in(older, path) {
            return Some(kind);
        }
        kind_in(front(&self.records, first), path)
    }

    // One path more; where 64 are held, the one held the longest makes room.
    pub(crate) fn remember(&mut self, path: &[u8], kind: Kind)
        ensures first_in_first_out { length path.now ≤ 1024 → remembered self.new ≡ entered (remembered self.old) (item path.now kind) }
    {
        if self.count < LIMIT {
            self.records[self.count].set(path, kind);
            self.count += 1;
            self.oldest = 0;
        } else {
            let at = self.oldest % LIMIT;
            self.records[at].set(path, kind);
            self.oldest = (at + 1) % LIMIT;
        }
    }

    // Drops a path.
    pub(crate) fn forget(&mut self, path: &[u8])
        ensures that_path_alone { remembered self.new ≡ without path.now (remembered self.old) }
    {
        if self.recall(path).is_none() {
            return;
        }
        let first = self.first();
        self.records.rotate_left(first);
        self.oldest = 0;
        self.count = keep_others(&mut self.records, self.count, path);
    }
}
