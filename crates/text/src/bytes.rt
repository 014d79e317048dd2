// What gives the bytes of a text one after the other.

ghost use Rattle.std.specs.Prelude.{◌≡◌, ℕ, List, length, drop, Option};
ghost use Rattle.std.specs.Iterator.{YieldsFirst, IsFinite};

/// Gives the bytes of a text one after the other. A copy gives the same bytes again, so that a text can be gone through more
/// than once where there is no room to hold it.
pub trait Bytes: Iterator<Item = u8> + Copy {
    ghost to_come: { Self → List ℕ };

    /// How many bytes are to come.
    fn bytes_left(&self) -> usize
        ensures number_of_bytes { result ≡ length (to_come self.now) };

    /// Passes over the first `count` bytes, or over all where there are fewer. They are gone through one by one, unless the
    /// type has a shorter way.
    fn pass(&mut self, count: usize)
        ensures all_but_the_first { to_come self.new ≡ drop count (to_come self.old) }
    {
        for _ in 0..count {
            if self.next().is_none() {
                return;
            }
        }
    }

    ghost always_ends: { (s : Self) → Self.can_next s × IsFinite (Self.remaining s) };

    ghost gives_the_first: { (s t : Self) (r : Option ℕ) → Self.next_gives s r t → YieldsFirst to_come s r t };
}
