// A string read byte by byte: what has been read so far, and what one byte more makes of it.

#![tactic(auto, using(std::proofs::lemmas::Bool::Decides::nat_tests), unfolding(crate::specs::String::holds, crate::specs::String::in_a_range, crate::specs::Machine::string_step, crate::specs::Machine::row_step))]

ghost use Rattle.std.specs.Prelude.{◌≡◌, cond};
ghost use Rattle.json_string.specs.String.{◌–◌, holds};
ghost use Rattle.json_string.specs.Machine.{plain, escape, code, code_d, broken, string_step, hexdig};
ghost use Rattle.json_string.specs.Meaning.{meaning};

#[derive(Clone, Copy)]
pub(crate) enum State {
    // Whole chars.
    Plain,
    // The backslash of an escape.
    Escape,
    // `\u`, and `\uD`, after which the next digit tells a surrogate.
    Code,
    CodeD,
    // That many digits are wanted.
    Digits3,
    Digits2,
    Digits1,
    // That many digits of a high surrogate are wanted, and the escape of a low one.
    High2,
    High1,
    LowBackslash,
    LowU,
    LowD,
    LowDigit,
    // That many continuation bytes of a character in UTF-8 are wanted.
    Tails3,
    Tails2,
    Tails1,
    // The first bytes whose second byte is limited, lest the form be overlong, a surrogate or too large.
    AfterE0,
    AfterEd,
    AfterF0,
    AfterF4,
    // The closing quotation mark.
    Closed,
    // No string begins so.
    Broken,
}

impl State {
    // What the byte leads to.
    pub(crate) fn step(self, byte: u8) -> State
        ensures { meaning result ≡ string_step (meaning self) byte }
    {
        match self {
            State::Plain => first_byte(byte),
            State::Escape => escape_letter(byte),
            State::Code => first_digit(byte),
            State::CodeD => second_digit(byte),
            State::Digits3 => digit(byte, State::Digits2),
            State::Digits2 => digit(byte, State::Digits1),
            State::Digits1 => digit(byte, State::Plain),
            State::High2 => digit(byte, State::High1),
            State::High1 => digit(byte, State::LowBackslash),
            State::LowBackslash => within(byte, b'\\', b'\\', State::LowU),
            State::LowU => within(byte, b'u', b'u', State::LowD),
            State::LowD => low_surrogate(byte),
            State::LowDigit => low_surrogate_digit(byte),
            State::Tails3 => within(byte, 0x80, 0xBF, State::Tails2),
            State::Tails2 => within(byte, 0x80, 0xBF, State::Tails1),
            State::Tails1 => within(byte, 0x80, 0xBF, State::Plain),
            State::AfterE0 => within(byte, 0xA0, 0xBF, State::Tails1),
            State::AfterEd => within(byte, 0x80, 0x9F, State::Tails1),
            State::AfterF0 => within(byte, 0x90, 0xBF, State::Tails2),
            State::AfterF4 => within(byte, 0x80, 0x8F, State::Tails2),
            State::Closed | State::Broken => State::Broken,
        }
    }
}

// The first byte of a char, or the closing quotation mark.
fn first_byte(byte: u8) -> State
    ensures { meaning result ≡ string_step plain byte }
{
    match byte {
        b'"' => State::Closed,
        b'\\' => State::Escape,
        // Control characters stand in a string only as escapes.
        0x00..=0x1F => State::Broken,
        0x20..=0x7F => State::Plain,
        0xC2..=0xDF => State::Tails1,
        0xE0 => State::AfterE0,
        0xED => State::AfterEd,
        0xE1..=0xEF => State::Tails2,
        0xF0 => State::AfterF0,
        0xF1..=0xF3 => State::Tails3,
        0xF4 => State::AfterF4,
        _ => State::Broken,
    }
}

// The byte behind a backslash.
fn escape_letter(byte: u8) -> State
    ensures { meaning result ≡ string_step escape byte }
{
    match byte {
        b'u' => State::Code,
        b'"' | b'\\' | b'/' | b'b' | b'f' | b'n' | b'r' | b't' => State::Plain,
        _ => State::Broken,
    }
}

// The first of the four digits behind `\u`.
fn first_digit(byte: u8) -> State
    ensures { meaning result ≡ string_step code byte }
{
    match byte {
        b'D' | b'd' => State::CodeD,
        _ => digit(byte, State::Digits3),
    }
}

// The digit behind `\uD`: a low surrogate may not come first.
fn second_digit(byte: u8) -> State
    ensures { meaning result ≡ string_step code_d byte }
{
    match byte {
        b'0'..=b'7' => State::Digits2,
        b'8' | b'9' | b'A' | b'B' | b'a' | b'b' => State::High2,
        _ => State::Broken,
    }
}

// The D of a low surrogate.
fn low_surrogate(byte: u8) -> State
    ensures { meaning result ≡ string_step (meaning State.LowD) byte }
{
    match byte {
        b'D' | b'd' => State::LowDigit,
        _ => State::Broken,
    }
}

// The digit behind it.
fn low_surrogate_digit(byte: u8) -> State
    ensures { meaning result ≡ string_step (meaning State.LowDigit) byte }
{
    match byte {
        b'C'..=b'F' | b'c'..=b'f' => State::Digits2,
        _ => State::Broken,
    }
}

// A hexadecimal digit.
fn digit(byte: u8, then: State) -> State
    ensures { meaning result ≡ cond (holds hexdig byte) (meaning then) broken }
{
    if byte.is_ascii_hexdigit() {
        then
    } else {
        State::Broken
    }
}

// A byte of a range.
fn within(byte: u8, low: u8, high: u8, then: State) -> State
    ensures { meaning result ≡ cond (holds (low – high) byte) (meaning then) broken }
{
    if low <= byte && byte <= high {
        then
    } else {
        State::Broken
    }
}
