// The bytes of a slice.

ghost use Rattle.std.specs.Prelude.{◌≡◌, ℕ, List};
ghost use Rattle.std.specs.Iterator.{YieldsFirst, item_count};

use crate::bytes::Bytes;

/// Gives the bytes of a slice, as they stand there.
#[derive(Clone, Copy)]
pub struct Plain<'a> {
    rest: &'a [u8],
}

impl<'a> Plain<'a> {
    /// All bytes of the slice are to come.
    pub fn new(bytes: &'a [u8]) -> Plain<'a>
        ensures all_to_come { ⟦<Plain<'a> as Bytes>⟧.to_come result ≡ bytes.now }
    {
        Plain { rest: bytes }
    }
}

impl<'a> Iterator for Plain<'a> {
    type Item = u8;

    ghost next_gives = { YieldsFirst (λ p. p.rest.now) };

    ghost remaining = { item_count (λ p. p.rest.now) };

    /// The next byte, or none where none is left.
    fn next(&mut self) -> Option<u8> {
        let (first, rest) = self.rest.split_first()?;
        self.rest = rest;
        Some(*first)
    }
}

impl<'a> Bytes for Plain<'a> {
    ghost to_come = { λ p. p.rest.now };

    ghost always_ends = { λ s. (tt, tt) };

    ghost gives_the_first = { λ s t r h. h };

    fn bytes_left(&self) -> usize {
        self.rest.len()
    }

    /// Passes over the first `count` bytes at once.
    fn pass(&mut self, count: usize) {
        self.rest = list::after(self.rest, count);
    }
}
