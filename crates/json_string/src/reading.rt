// Reading a string: where it ends, or the first byte after which no string goes on.

ghost use Rattle.std.specs.Prelude.{◌≡◌, ℕ, ◌<◌, ◌≤◌, length, Ok, Err, MatchResult};
ghost use Rattle.json_string.specs.Reading.{StringAt, FaultAt};

use crate::state::State;

/// Text that is not as it should be, from this place on.
#[derive(Clone, Copy, PartialEq, Eq, Debug)]
pub struct Fault {
    pub place: usize,
}

/// Reads the chars of a string from `at`, which stands behind its opening quotation mark, and tells where its closing one
/// stands. An `at` past the end of the text is a fault at the end.
pub fn read_string(text: &[u8], at: usize) -> Result<usize, Fault>
    ensures string_or_fault { at ≤ length text.now → MatchResult result (λ end. StringAt text.now at end) (λ fault. FaultAt text.now at fault.place) }
    ensures each_string { (end : ℕ) → StringAt text.now at end → result ≡ Ok end }
    ensures past_the_end { length text.now < at → MatchResult result (λ _. ⊥) (λ fault. fault.place ≡ length text.now) }
{
    let mut state = State::Plain;
    // By places, since `enumerate().skip(at)` would go through all that stands before.
    for place in at..text.len() {
        state = state.step(text[place]);
        match state {
            State::Closed => return Ok(place),
            State::Broken => return Err(Fault { place }),
            _ => {}
        }
    }
    Err(Fault { place: text.len() })
}
