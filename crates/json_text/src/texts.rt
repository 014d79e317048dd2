// Whole JSON texts.

ghost use Rattle.std.specs.Prelude.{◌≡◌, ℕ, ◌<◌, ◌≤◌, true, length, take, is_ok, IfOk, IfErr, MatchResult, OnOk};
ghost use Rattle.json_text.specs.Json.{Json, Ws, Text, LongestBeginning};
ghost use Rattle.json_text.specs.Standing.{ValueAt};
ghost use Rattle.json_text.specs.Value.{reading, value, fault};

use crate::cursor::Cursor;
use json_string::Fault;

/// How many bytes a text may have.
pub const TEXT_SIZE: usize = 16_384;

/// How many brackets of a text may be open at a time.
pub const DEPTH: usize = 32;

/// The place where the value of a JSON text of at most `TEXT_SIZE` bytes begins, with at most `DEPTH` brackets open. The place of the fault in any
/// other is `TEXT_SIZE` where it is longer, and else the length of its longest beginning that some JSON text continues.
pub fn read_text(text: &[u8]) -> Result<usize, Fault>
    ensures within_these_limits { (TEXT_SIZE ≡ 16384) × (DEPTH ≡ 32) }
    ensures as_read { MatchResult result (λ at. (v : Json) × (end : ℕ) × (reading text.now ≡ value v) × ValueAt text.now at end v) (λ told. reading text.now ≡ fault told.place) }
    ensures accepted_are_texts { IfOk result (λ at. (v : Json) × (end : ℕ) × Text DEPTH text.now v × ValueAt text.now at end v) }
    ensures value_behind_white_space { IfOk result (λ at. Ws (take at text.now)) }
    ensures accepted_are_within_limit { OnOk result (length text.now ≤ TEXT_SIZE) }
    ensures every_text_is_accepted { length text.now ≤ TEXT_SIZE → (v : Json) → Text DEPTH text.now v → is_ok result ≡ true }
    ensures fault_of_a_long_text { TEXT_SIZE < length text.now → MatchResult result (λ _. ⊥) (λ fault. fault.place ≡ TEXT_SIZE) }
    ensures fault_behind_the_longest_beginning { length text.now ≤ TEXT_SIZE → IfErr result (λ fault. LongestBeginning DEPTH text.now fault.place) }
{
    if text.len() > TEXT_SIZE {
        return Err(Fault { place: TEXT_SIZE });
    }
    let value = Cursor { text, at: 0 }.skip_ws();
    let end = value.element(DEPTH)?;
    if end < text.len() {
        return Err(Fault { place: end });
    }
    Ok(value.start.at)
}
