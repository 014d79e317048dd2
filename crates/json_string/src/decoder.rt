// The bytes that a text of chars stands for, one after the other and without a buffer.

ghost use Rattle.std.specs.Prelude.{◌≡◌, ◌<◌, ◌≤◌, min, [], ◌∷◌, ◌++◌, length, take, drop, Decides, MatchOption};
ghost use Rattle.std.specs.Iterator.{YieldsFirst, item_count};
ghost use Rattle.json_string.specs.Encoded.{encoded};
ghost use Rattle.json_string.specs.Decoded.{decoded};
ghost use Rattle.json_string.specs.Left.{left};

use crate::piece::{Encoded, first_decoding};
use text::Bytes;

/// Goes through the decoded bytes of a text of chars in order.
#[derive(Clone, Copy)]
pub struct Decoder<'a> {
    rest: &'a [u8],
    // The bytes of the last piece, and how many of them were given.
    piece: Encoded,
    given: usize,
}

impl<'a> Decoder<'a> {
    /// All decoded bytes of the text are to come.
    pub fn new(text: &'a [u8]) -> Decoder<'a>
        ensures all_to_come { left result ≡ decoded text.now }
    {
        Decoder {
            rest: text,
            piece: Encoded::new(&[]),
            given: 0,
        }
    }

    // The first byte of the next piece.
    fn next_piece(&mut self) -> Option<u8>
        requires { drop self.old.given (encoded self.old.piece) ≡ [] }
        ensures { MatchOption result ((left self.old ≡ []) × (left self.new ≡ [])) (λ byte. left self.old ≡ byte ∷ left self.new) }
    {
        if self.rest.is_empty() {
            return None;
        }
        let decoding = first_decoding(self.rest);
        self.rest = list::after(self.rest, decoding.size);
        self.piece = decoding.bytes;
        self.given = 1;
        decoding.bytes.as_slice().first().copied()
    }
}

impl<'a> Iterator for Decoder<'a> {
    type Item = u8;

    ghost next_gives = { YieldsFirst left };

    ghost remaining = { item_count left };

    /// The next decoded byte, or none where none is left.
    fn next(&mut self) -> Option<u8> {
        if let Some(byte) = self.piece.as_slice().get(self.given).copied() {
            self.given += 1;
            return Some(byte);
        }
        self.next_piece()
    }
}

impl<'a> Bytes for Decoder<'a> {
    ghost to_come = { left };

    ghost always_ends = { λ s. (tt, tt) };

    ghost gives_the_first = { λ s t r h. h };

    /// How many bytes are left; all are decoded for it.
    fn bytes_left(&self) -> usize {
        self.count()
    }
}
