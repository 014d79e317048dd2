// A text with its end at hand.

ghost use Rattle.std.specs.Prelude.{◌≡◌, ◌-◌, ℕ, List, length, take, drop};
ghost use Rattle.std.specs.Iterator.{YieldsFirst, item_count};

use crate::bytes::Bytes;
use crate::part::Part;
use std::alloc::AllocError;

// How many of the last bytes are at hand.
const AT_HAND: usize = 256;

/// A text with its end at hand: where its last 256 bytes begin is remembered, so that many ends can be looked at without
/// going through the whole text for each.
pub struct Ended<B: Bytes> {
    all: Part<B>,
    last: Part<B>,
    ghost at_the_end: { take last.len (B.to_come last.bytes) ≡ drop (all.len - last.len) (take all.len (B.to_come all.bytes)) },
}

impl<B: Bytes> Clone for Ended<B> {
    ghost is_clone = { λ x y. y ≡ x };

    fn clone(&self) -> Result<Ended<B>, AllocError> {
        Ok(*self)
    }
}

impl<B: Bytes> Copy for Ended<B> {}

impl<B: Bytes> Ended<B> {
    /// All bytes that are to come. They are counted, and those before the end are passed over: for a slice at once, and else
    /// by going through them twice.
    pub fn new(bytes: B) -> Ended<B>
        ensures all_to_come { ⟦<Ended<B> as Bytes>⟧.to_come result ≡ B.to_come bytes }
    {
        let all = Part::whole(bytes);
        let last = all.after(all.bytes_left().saturating_sub(AT_HAND));
        Ended { all, last }
    }

    /// The first `count` of these bytes, or all where there are fewer.
    pub fn front(self, count: usize) -> Part<B>
        ensures first_bytes { ⟦<Part<B> as Bytes>⟧.to_come result ≡ take count (⟦<Ended<B> as Bytes>⟧.to_come self) }
    {
        self.all.front(count)
    }

    /// The last `count` of these bytes, or all where there are fewer. It passes over 256 bytes at most, unless `count` is
    /// larger.
    pub fn last(self, count: usize) -> Part<B>
        ensures last_bytes { ⟦<Part<B> as Bytes>⟧.to_come result ≡ drop (length (⟦<Ended<B> as Bytes>⟧.to_come self) - count) (⟦<Ended<B> as Bytes>⟧.to_come self) }
    {
        let near = if count <= self.last.bytes_left() {
            self.last
        } else {
            self.all
        };
        near.after(near.bytes_left().saturating_sub(count))
    }
}

impl<B: Bytes> Iterator for Ended<B> {
    type Item = u8;

    ghost next_gives = { YieldsFirst (λ t. take t.all.len (B.to_come t.all.bytes)) };

    ghost remaining = { item_count (λ t. take t.all.len (B.to_come t.all.bytes)) };

    /// The next byte, or none where none is left.
    fn next(&mut self) -> Option<u8> {
        let mut all = self.all;
        let byte = all.next();
        let last = if self.last.bytes_left() > all.bytes_left() {
            all
        } else {
            self.last
        };
        *self = Ended { all, last };
        byte
    }
}

impl<B: Bytes> Bytes for Ended<B> {
    ghost to_come = { λ t. take t.all.len (B.to_come t.all.bytes) };

    ghost always_ends = { λ s. (tt, tt) };

    ghost gives_the_first = { λ s t r h. h };

    fn bytes_left(&self) -> usize {
        self.all.bytes_left()
    }
}
