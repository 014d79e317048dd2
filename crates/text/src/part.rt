// The first bytes of a text.

ghost use Rattle.std.specs.Prelude.{◌≡◌, ◌≤◌, ℕ, List, length, take, drop};
ghost use Rattle.std.specs.Iterator.{YieldsFirst, item_count};

use crate::bytes::Bytes;
use std::alloc::AllocError;

/// The first bytes of those that are to come.
pub struct Part<B: Bytes> {
    bytes: B,
    len: usize,
    ghost within: { len ≤ length (B.to_come bytes) },
}

impl<B: Bytes> Clone for Part<B> {
    ghost is_clone = { λ x y. y ≡ x };

    fn clone(&self) -> Result<Part<B>, AllocError> {
        Ok(*self)
    }
}

impl<B: Bytes> Copy for Part<B> {}

impl<B: Bytes> Part<B> {
    /// All bytes that are to come; they are counted once.
    pub fn whole(bytes: B) -> Part<B>
        ensures all_to_come { ⟦<Part<B> as Bytes>⟧.to_come result ≡ B.to_come bytes }
    {
        let len = bytes.bytes_left();
        Part { bytes, len }
    }

    /// The first `count` of these bytes, or all where there are fewer.
    pub fn front(self, count: usize) -> Part<B>
        ensures first_bytes { ⟦<Part<B> as Bytes>⟧.to_come result ≡ take count (⟦<Part<B> as Bytes>⟧.to_come self) }
    {
        Part {
            bytes: self.bytes,
            len: count.min(self.len),
        }
    }

    /// What follows the first `count` of these bytes; nothing where there are fewer. They are passed over as `B` does it, for a
    /// slice at once, unless nothing follows.
    pub fn after(self, count: usize) -> Part<B>
        ensures all_but_the_first { ⟦<Part<B> as Bytes>⟧.to_come result ≡ drop count (⟦<Part<B> as Bytes>⟧.to_come self) }
    {
        let len = self.len.saturating_sub(count);
        let mut bytes = self.bytes;
        if len > 0 {
            bytes.pass(count);
        }
        Part { bytes, len }
    }
}

impl<B: Bytes> Iterator for Part<B> {
    type Item = u8;

    ghost next_gives = { YieldsFirst (λ p. take p.len (B.to_come p.bytes)) };

    ghost remaining = { item_count (λ p. take p.len (B.to_come p.bytes)) };

    /// The next byte, or none where none is left.
    fn next(&mut self) -> Option<u8> {
        if self.len == 0 {
            return None;
        }
        let byte = self.bytes.next();
        self.len -= 1;
        byte
    }
}

impl<B: Bytes> Bytes for Part<B> {
    ghost to_come = { λ p. take p.len (B.to_come p.bytes) };

    ghost always_ends = { λ s. (tt, tt) };

    ghost gives_the_first = { λ s t r h. h };

    fn bytes_left(&self) -> usize {
        self.len
    }

    /// Passes over the first `count` bytes as `B` does it, for a slice at once.
    fn pass(&mut self, count: usize) {
        *self = self.after(count);
    }
}
