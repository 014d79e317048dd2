// Targets filled with what a star stood for.

ghost use Rattle.std.specs.Prelude.{◌≡◌, ◌<◌, ◌≤◌, min, ◌++◌, length, drop, MatchResult};
ghost use Rattle.json_string.specs.Decoded.{decoded};
ghost use Rattle.patterns.specs.Pattern.{filled};

use crate::STAR;
use json_string::Decoder;
use list::List;
use text::{Bytes, append};

// The longest target that is filled in.
const LONGEST: usize = 1024;

/// A filled-in target has more than 1,024 bytes, or more than there is room for.
#[derive(Clone, Copy, PartialEq, Eq, Debug)]
pub struct TooLong;

/// Writes the target, given by its undecoded chars, to the start of `into`, all its decoded stars filled with `matched`, and
/// tells its length. Where it has more than 1,024 bytes, or more than `into`, nothing is written.
///
/// It goes through the target twice, and through `matched` once for each star that it writes.
pub fn fill_target<B: Bytes>(target: &[u8], matched: B, into: &mut [u8]) -> Result<usize, TooLong>
    ensures size { MatchResult result (λ size. (size ≡ length (filled (B.to_come matched) (decoded target.now))) × (size ≤ min 1024 (length into.old))) (λ _. min 1024 (length into.old) < length (filled (B.to_come matched) (decoded target.now))) }
    ensures written { MatchResult result (λ size. into.new ≡ filled (B.to_come matched) (decoded target.now) ++ drop size into.old) (λ _. into.new ≡ into.old) }
{
    let size = filled_len(target, matched, LONGEST.min(into.len()))?;
    write_filled(target, matched, into);
    Ok(size)
}

// How many bytes the filled-in target has, unless they are more than `limit`.
fn filled_len<B: Bytes>(target: &[u8], matched: B, limit: usize) -> Result<usize, TooLong>
    ensures { MatchResult result (λ size. (size ≡ length (filled (B.to_come matched) (decoded target.now))) × (size ≤ limit)) (λ _. limit < length (filled (B.to_come matched) (decoded target.now))) }
{
    let of_star = matched.bytes_left();
    let mut size = 0;
    for byte in Decoder::new(target) {
        let more = if byte == STAR { of_star } else { 1 };
        if more > limit - size {
            return Err(TooLong);
        }
        size += more;
    }
    Ok(size)
}

// Writes a filled-in target that `into` has room for.
fn write_filled<B: Bytes>(target: &[u8], matched: B, into: &mut [u8])
    requires { length (filled (B.to_come matched) (decoded target.now)) ≤ length into.old }
    ensures { into.new ≡ filled (B.to_come matched) (decoded target.now) ++ drop (length (filled (B.to_come matched) (decoded target.now))) into.old }
{
    let mut written = List::new(into);
    for byte in Decoder::new(target) {
        if byte == STAR {
            append(&mut written, matched).unwrap();
        } else {
            written.push(byte).unwrap();
        }
    }
}
