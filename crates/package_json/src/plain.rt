// Plain targets of `exports`: components behind `./`, judged byte by byte as they are decoded.
ghost use Rattle.std.specs.Prelude.{◌≡◌, ℕ, not, List, [], ◌∷◌, map};
ghost use Rattle.std.specs.Str.{bytes_eq};
ghost use Rattle.json_string.specs.Decoded.{decoded};
ghost use Rattle.json_string.specs.Left.{left};
ghost use Rattle.package_json.specs.Plain.{small, is_plain_byte, plain_rest, plain_target};
ghost use Rattle.package_json.specs.Component.{completed};

use json_string::Decoder;

/// Whether a string, by its undecoded chars, is a plain target.
pub fn is_plain(chars: &[u8]) -> bool
    ensures by_components { result ≡ plain_target (decoded chars.now) }
{
    let mut decoder = Decoder::new(chars);
    if decoder.next() != Some(b'.') || decoder.next() != Some(b'/') {
        return false;
    }
    are_plain(decoder)
}

// Whether what a decoder has still to give is components joined by single slashes, of plain bytes alone. No more is decoded
// than up to the byte that settles it.
fn are_plain(rest: Decoder) -> bool
    ensures { result ≡ plain_rest (left rest.entry) }
{
    let mut part = Part::Empty;
    for byte in rest {
        if !is_plain_byte(byte) {
            return false;
        }
        if byte == b'/' {
            if !part.is_component() {
                return false;
            }
            part = Part::Empty;
        } else {
            part = part.then(byte);
        }
    }
    part.is_component()
}

// A component as far as it is read, by the words that are none.
#[derive(Clone, Copy)]
enum Part {
    Empty,
    OneDot,
    TwoDots,
    // The beginning of node_modules, in any case, behind which these letters are left.
    Modules(&'static [u8]),
    // None of the words begins so.
    Other,
}

impl Part {
    // What one byte more makes of it.
    fn then(self, byte: u8) -> Part
        ensures { (rest : List ℕ) → completed result rest ≡ completed self (byte ∷ rest) }
    {
        match (self, byte) {
            (Part::Empty, b'.') => Part::OneDot,
            (Part::OneDot, b'.') => Part::TwoDots,
            (Part::Empty, _) => modules_letter(b"node_modules", byte),
            (Part::Modules(letters), _) => modules_letter(letters, byte),
            (Part::OneDot | Part::TwoDots | Part::Other, _) => Part::Other,
        }
    }

    // Whether it is a component as it stands.
    fn is_component(self) -> bool
        ensures { result ≡ completed self [] }
    {
        match self {
            Part::Empty | Part::OneDot | Part::TwoDots => false,
            Part::Modules(letters) => !letters.is_empty(),
            Part::Other => true,
        }
    }
}

// A byte where these letters of node_modules are left: the first of them, in any case, or none.
fn modules_letter(letters: &'static [u8], byte: u8) -> Part
    ensures { (rest : List ℕ) → completed result rest ≡ not (bytes_eq (map small (byte ∷ rest)) letters.now) }
{
    match letters {
        [letter, behind @ ..] if byte.to_ascii_lowercase() == *letter => Part::Modules(behind),
        _ => Part::Other,
    }
}

fn is_plain_byte(byte: u8) -> bool
    ensures plain_byte { result ≡ is_plain_byte byte }
{
    !matches!(byte, b'*' | b'%' | b'\\')
}
