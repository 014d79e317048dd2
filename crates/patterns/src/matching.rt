// Patterns with a star over texts.

ghost use Rattle.std.specs.Prelude.{◌≡◌, ℕ, List, MatchOption, option_map};
ghost use Rattle.json_string.specs.Decoded.{decoded};
ghost use Rattle.json_string.specs.Left.{left};
ghost use Rattle.patterns.specs.Pattern.{Matches};
ghost use Rattle.patterns.specs.Match.{before_suffix, match_of};

use crate::STAR;
use json_string::Decoder;
use text::{Bytes, Ended, Part, same_bytes};

/// The part of the text that the first decoded star of the pattern stands for, or none where the pattern does not match. The
/// pattern is given by its undecoded chars. Without a star it matches the text that it stands for, and the part is empty.
///
/// It goes through no more of the pattern than two bytes beyond the length of the text, and through no more of the text than
/// what stands before the star and the end that is compared, from where that end is at hand: many patterns can be tried on a
/// long text. What it tells is a place in the text, and no copy.
pub fn match_pattern<B: Bytes>(pattern: &[u8], text: Ended<B>) -> Option<Part<B>>
    ensures part_told { option_map ⟦<Part<B> as Bytes>⟧.to_come result ≡ match_of (decoded pattern.now) (⟦<Ended<B> as Bytes>⟧.to_come text) }
    ensures matched_part { MatchOption result ((m : List ℕ) → Matches (decoded pattern.now) (⟦<Ended<B> as Bytes>⟧.to_come text) m → ⊥) (λ part. Matches (decoded pattern.now) (⟦<Ended<B> as Bytes>⟧.to_come text) (⟦<Part<B> as Bytes>⟧.to_come part)) }
{
    let mut suffix = Decoder::new(pattern);
    let mut rest = text;
    // No `for`, which would keep the decoder that is handed on at a star.
    while let Some(byte) = suffix.next() {
        if byte == STAR {
            return match_suffix(suffix, rest);
        }
        if rest.next() != Some(byte) {
            return None;
        }
    }
    (rest.bytes_left() == 0).then_some(rest.front(0))
}

// What stands before the suffix in a text that ends with it.
fn match_suffix<B: Bytes>(suffix: Decoder, text: Ended<B>) -> Option<Part<B>>
    ensures { option_map ⟦<Part<B> as Bytes>⟧.to_come result ≡ before_suffix (left suffix.entry) (⟦<Ended<B> as Bytes>⟧.to_come text) }
{
    // A longer suffix differs from the whole text, and needs no count.
    let size = text.bytes_left();
    let len = suffix.take(size).count();
    same_bytes(suffix, text.last(len)).then_some(text.front(size - len))
}
