// The decoded bytes of a text of chars: their number, comparison and copies.

ghost use Rattle.std.specs.Prelude.{◌≡◌, ℕ, min, List, ◌++◌, length, take, drop, Decides};
ghost use Rattle.json_string.specs.String.{Chars};
ghost use Rattle.json_string.specs.Decoded.{decoded};

use crate::decoder::Decoder;

/// How many bytes the text stands for.
pub fn decoded_len(text: &[u8]) -> usize
    ensures number_of_decoded_bytes { result ≡ length (decoded text.now) }
    ensures of_chars { (d : List ℕ) → Chars text.now d → result ≡ length d }
{
    Decoder::new(text).count()
}

/// Whether the text stands for these bytes.
pub fn is_decoded_as(text: &[u8], bytes: &[u8]) -> bool
    ensures same_bytes { Decides result (decoded text.now ≡ bytes.now) }
    ensures of_chars { (d : List ℕ) → Chars text.now d → Decides result (d ≡ bytes.now) }
{
    Decoder::new(text).eq(bytes.iter().copied())
}

/// Copies the `count` decoded bytes from the place `from` on, or as many as there are and there is room for, to the start of
/// `into`, and tells how many. What stands behind them in `into` is as before.
pub fn copy_decoded(text: &[u8], from: usize, count: usize, into: &mut [u8]) -> usize
    ensures how_many { result ≡ length (take (min count (length into.old)) (drop from (decoded text.now))) }
    ensures stored { into.new ≡ take result (drop from (decoded text.now)) ++ drop result into.old }
{
    let room = count.min(into.len());
    let mut copied = list::List::new(into);
    for byte in Decoder::new(text).skip(from).take(room) {
        copied.push(byte).unwrap();
    }
    copied.len()
}
