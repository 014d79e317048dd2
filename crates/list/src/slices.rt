// Parts of slices, and a copy that is made as a whole or not at all.
ghost use Rattle.std.specs.Prelude.{◌≡◌, ◌+◌, ◌≤◌, ◌++◌, length, take, drop, is_ok, if◌then◌else◌, nat_le};
ghost use Rattle.std.specs.Str.{bytes_eq};

use crate::Full;

/// The first `len` elements, or all where there are fewer.
pub fn front<T>(items: &[T], len: usize) -> &[T]
    ensures first_elements { result.now ≡ take len items.now }
{
    &items[..len.min(items.len())]
}

/// What follows the first `len` elements; nothing where there are fewer.
pub fn after<T>(items: &[T], len: usize) -> &[T]
    ensures all_but_the_first { result.now ≡ drop len items.now }
{
    &items[len.min(items.len())..]
}

/// Whether `text` is the part of `bytes` that begins at `start` and has `len` bytes.
pub fn is_part(bytes: &[u8], start: usize, len: usize, text: &[u8]) -> bool
    ensures same_bytes { result ≡ bytes_eq (take len (drop start bytes.now)) text.now }
{
    front(after(bytes, start), len) == text
}

/// Copies all of `more` to `at` and what follows, unless it would pass the end.
pub fn copy<T: Copy>(items: &mut [T], at: usize, more: &[T]) -> Result<(), Full>
    ensures fits { is_ok result ≡ nat_le (at + length more.now) (length items.old) }
    ensures stored { items.new ≡ (if is_ok result then take at items.old ++ (more.now ++ drop (at + length more.now) items.old) else items.old) }
{
    let size = items.len();
    if at > size || more.len() > size - at {
        return Err(Full);
    }
    items[at..at + more.len()].copy_from_slice(more);
    Ok(())
}
