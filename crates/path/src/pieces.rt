// A text that is cut at its slashes.

ghost use Rattle.std.specs.Prelude.{◌≡◌, ◌∷◌, option_map};
ghost use Rattle.path.specs.Path.{stays, goes_up, proper, every, split, pieces_left};

use text::{Bytes, Part, Plain, same_bytes};

// The piece before the first slash, and what follows that slash, where there is one.
pub(crate) fn cut<B: Bytes>(text: Part<B>) -> (Part<B>, Option<Part<B>>)
    ensures { split (⟦<Part<B> as Bytes>⟧.to_come text) ≡ ⟦<Part<B> as Bytes>⟧.to_come result.0 ∷ pieces_left (option_map ⟦<Part<B> as Bytes>⟧.to_come result.1) }
{
    let mut rest = text;
    while let Some(byte) = rest.next() {
        if byte == b'/' {
            // The slash was passed with the piece.
            let len = text.bytes_left() - rest.bytes_left() - 1;
            return (text.front(len), Some(rest));
        }
    }
    (text, None)
}

// Whether each piece of the text is proper.
pub(crate) fn are_proper<B: Bytes>(text: Part<B>) -> bool
    ensures { result ≡ every proper (split (⟦<Part<B> as Bytes>⟧.to_come text)) }
{
    let mut left = Some(text);
    while let Some(text) = left {
        let (piece, behind) = cut(text);
        if !is_proper(piece) {
            return false;
        }
        left = behind;
    }
    true
}

// The length of `..`, the longest piece that may not stand in a normal path.
const LONGEST_IMPROPER: usize = 2;

// Whether a piece may stand in a normal path.
pub(crate) fn is_proper<B: Bytes>(piece: Part<B>) -> bool
    ensures { result ≡ proper (⟦<Part<B> as Bytes>⟧.to_come piece) }
{
    piece.bytes_left() > LONGEST_IMPROPER || !(is_same(piece) || is_up(piece))
}

// Whether a piece changes nothing: it is empty or `.`.
pub(crate) fn is_same<B: Bytes>(piece: Part<B>) -> bool
    ensures { result ≡ stays (⟦<Part<B> as Bytes>⟧.to_come piece) }
{
    piece.bytes_left() == 0 || same_bytes(piece, Plain::new(b"."))
}

// Whether a piece is `..`, which leads up.
pub(crate) fn is_up<B: Bytes>(piece: Part<B>) -> bool
    ensures { result ≡ goes_up (⟦<Part<B> as Bytes>⟧.to_come piece) }
{
    same_bytes(piece, Plain::new(b".."))
}
