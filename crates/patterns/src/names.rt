// A manifest's name at the beginning of a specifier.

ghost use Rattle.std.specs.Prelude.{◌≡◌, true, ◌||◌, ◌==◌, MatchOption};
ghost use Rattle.json_string.specs.Decoded.{decoded};
ghost use Rattle.patterns.specs.Name.{names_part};

use json_string::Decoder;
use text::Plain;

/// Whether a manifest's name, given by its undecoded chars, is the specifier's path part, or its beginning before a `/` or
/// `\`. A name may be empty.
pub fn names_specifier(name: &[u8], part: &[u8]) -> bool
    ensures by_its_beginning { result ≡ names_part (decoded name.now) part.now }
{
    let mut rest = Plain::new(part);
    for byte in Decoder::new(name) {
        if rest.next() != Some(byte) {
            return false;
        }
    }
    ends_name(rest.next())
}

// Whether a name may end where this comes next: nothing, or a `/` or `\`.
#[tactic(auto, using(std::proofs::lemmas::Bool::Decides::nat_tests))]
fn ends_name(next: Option<u8>) -> bool
    ensures { MatchOption next (result ≡ true) (λ byte. result ≡ (byte == 47 || byte == 92)) }
{
    matches!(next, None | Some(b'/' | b'\\'))
}
