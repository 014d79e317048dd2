// Whether two texts have the same bytes.

ghost use Rattle.std.specs.Prelude.{◌≡◌, Decides};

use crate::bytes::Bytes;

/// Whether the same bytes are to come from both.
pub fn same_bytes<A: Bytes, B: Bytes>(one: A, other: B) -> bool
    ensures exactly_if_the_same { Decides result (A.to_come one ≡ B.to_come other) }
{
    let mut one = one;
    let mut other = other;
    while let Some(byte) = one.next() {
        if other.next() != Some(byte) {
            return false;
        }
    }
    other.next().is_none()
}
