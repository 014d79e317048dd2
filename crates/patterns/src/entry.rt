// The text that an entry is matched as.

ghost use Rattle.std.specs.Prelude.{◌≡◌};
ghost use Rattle.patterns.specs.Entry.{undotted};

use text::Bytes;

/// The text without one leading `./`.
pub fn without_dot_slash<B: Bytes>(text: B) -> B
    ensures one_taken_off { B.to_come result ≡ undotted (B.to_come text) }
{
    let mut rest = text;
    if rest.next() != Some(b'.') || rest.next() != Some(b'/') {
        return text;
    }
    rest
}
