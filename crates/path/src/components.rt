// Reading a path by its components: whether it is normal, and its parent.

ghost use Rattle.std.specs.Prelude.{◌≡◌, ℕ, ◌<◌, true, false, length, take, drop, IfSome, Decides, MatchOption, slice_index, ◌≢◌};
ghost use Rattle.path.specs.Path.{proper, every, split, written, components, normal, has_parent, parent_of, IsWritten};

use crate::pieces::{are_proper, is_proper};
use text::{Bytes, Part, Plain};

/// Whether the path is `/`, or `/` and components joined by single slashes, none of them empty, `.` or `..`.
pub fn is_normal(path: &[u8]) -> bool
    ensures by_components { result ≡ normal path.now }
    ensures written_again { result ≡ true → written (components path.now) ≡ path.now }
    ensures normal_is_written_components { Decides result (IsWritten path.now) }
{
    match path.strip_prefix(b"/") {
        Some(pieces) => pieces.is_empty() || has_proper_pieces(pieces),
        None => false,
    }
}

// Whether each piece of a slice is proper.
fn has_proper_pieces(text: &[u8]) -> bool
    ensures { result ≡ every proper (split text.now) }
{
    text.split(|byte| *byte == b'/')
        .all(|piece| is_proper(Part::whole(Plain::new(piece))))
}

// Whether any text is normal.
pub(crate) fn is_normal_text<B: Bytes>(path: Part<B>) -> bool
    ensures { result ≡ normal (⟦<Part<B> as Bytes>⟧.to_come path) }
{
    let mut pieces = path;
    if pieces.next() != Some(b'/') {
        return false;
    }
    pieces.bytes_left() == 0 || are_proper(pieces)
}

/// The path without its last component; none where the path is not normal or is `/`.
pub fn parent(path: &[u8]) -> Option<&[u8]>
    ensures without_last_component { MatchOption result (has_parent path.now ≡ false) (λ s. (has_parent path.now ≡ true) × (s.now ≡ parent_of path.now)) }
    ensures front_of_path { IfSome result (λ s. s.now ≡ take (length s.now) path.now) }
    ensures normal_result { IfSome result (λ s. normal s.now ≡ true) }
    ensures shorter { IfSome result (λ s. length s.now < length path.now) }
{
    if !is_normal(path) || path.len() == 1 {
        return None;
    }
    // The slash of a component right below `/` is the path `/` itself.
    let end = last_slash(path).max(1);
    Some(&path[..end])
}

// Where the last slash of a text stands that begins with one.
fn last_slash(text: &[u8]) -> usize
    requires { (0 < length text.now) × (slice_index text.now 0 ≡ 47) }
    ensures inside { result < length text.now }
    ensures slash_there { slice_index text.now result ≡ 47 }
    ensures no_slash_after { (i : ℕ) → result < i → i < length text.now → slice_index text.now i ≢ 47 }
{
    text.iter().rposition(|byte| *byte == b'/').unwrap_or(0)
}
