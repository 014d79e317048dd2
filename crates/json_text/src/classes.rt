// Classes of bytes.

#![tactic(auto, unfolding(crate::specs::Json::is_ws, crate::specs::Json::is_digit, crate::specs::Json::is_e, crate::specs::Json::is_sign))]

ghost use Rattle.std.specs.Prelude.{◌≡◌, ℕ, Bool, false, refl};
ghost use Rattle.json_text.specs.Json.{is_ws, is_digit, is_e, is_sign};

// A class of bytes, which the symbol for the end of a text is not in.
pub(crate) trait Class {
    ghost members: { ℕ → Bool };

    fn has(byte: u8) -> bool
        ensures { result ≡ members byte };

    ghost end_is_none: { members 256 ≡ false };
}

// A space, a horizontal tab, a line feed or a carriage return. Four comparisons become one test of a bit, which `matches!`
// does not.
pub(crate) struct Whitespace;

impl Class for Whitespace {
    ghost members = { is_ws };

    ghost end_is_none = { unfold is_ws in refl };

    fn has(byte: u8) -> bool {
        byte == b' ' || byte == b'\t' || byte == b'\n' || byte == b'\r'
    }
}

pub(crate) struct Digit;

impl Class for Digit {
    ghost members = { is_digit };

    ghost end_is_none = { unfold is_digit in refl };

    fn has(byte: u8) -> bool {
        byte.is_ascii_digit()
    }
}

// The letter before an exponent.
pub(crate) struct E;

impl Class for E {
    ghost members = { is_e };

    ghost end_is_none = { unfold is_e in refl };

    fn has(byte: u8) -> bool {
        matches!(byte, b'e' | b'E')
    }
}

pub(crate) struct Sign;

impl Class for Sign {
    ghost members = { is_sign };

    ghost end_is_none = { unfold is_sign in refl };

    fn has(byte: u8) -> bool {
        matches!(byte, b'-' | b'+')
    }
}
