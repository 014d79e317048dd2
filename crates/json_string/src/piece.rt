// The first piece of a text of chars: a byte that stands for itself, or an escape.

#![tactic(auto, using(std::proofs::lemmas::Bool::Decides::nat_tests), unfolding(crate::specs::String::pair_code, crate::specs::Decoded::hex_value, crate::specs::Decoded::escape_value, crate::specs::Decoded::code_at, crate::specs::Decoded::coded_piece))]

ghost use Rattle.std.specs.Prelude.{◌≡◌, ◌+◌, ◌%◌, ◌<◌, ◌≤◌, length, slice_index};
ghost use Rattle.std.proofs.Math.Utf8.{encode};
ghost use Rattle.json_string.specs.Decoded.{hex_value, escape_value, code_at, coded_piece, first_piece};
ghost use Rattle.json_string.specs.Encoded.{encoded};

// The bytes of one character in UTF-8: the first `len` of four. A decoder is copied, which no buffer of the library is.
#[derive(Clone, Copy)]
pub(crate) struct Encoded {
    bytes: [u8; 4],
    len: usize,
}

impl Encoded {
    pub(crate) fn new(bytes: &[u8]) -> Encoded
        requires { length bytes.now ≤ 4 }
        ensures { encoded result ≡ bytes.now }
    {
        let mut padded = [0; 4];
        padded[..bytes.len()].copy_from_slice(bytes);
        Encoded {
            bytes: padded,
            len: bytes.len(),
        }
    }

    pub(crate) fn as_slice(&self) -> &[u8]
        ensures { result.now ≡ encoded self.now }
    {
        list::front(&self.bytes, self.len)
    }
}

// How many bytes of the text, and what they stand for.
#[derive(Clone, Copy)]
pub(crate) struct Decoding {
    pub(crate) size: usize,
    pub(crate) bytes: Encoded,
}

// What a text begins with.
#[tactic(auto, using(std::proofs::lemmas::Bool::Decides::nat_tests), unfolding(crate::specs::Decoded::first_piece))]
pub(crate) fn first_decoding(text: &[u8]) -> Decoding
    ensures takes { result.size ≡ (first_piece text.now).size }
    ensures stands_for { encoded result.bytes ≡ (first_piece text.now).bytes }
{
    match (byte_at(text, 0), byte_at(text, 1)) {
        (b'\\', b'u') => coded(digits_at(text, 2), digits_at(text, 8)),
        (b'\\', letter) => Decoding {
            size: 2,
            bytes: Encoded::new(&[escaped_byte(letter)]),
        },
        (first, _) => Decoding {
            size: 1,
            bytes: Encoded::new(&[first]),
        },
    }
}

// An escape by its code; a high surrogate takes the second code with it.
fn coded(high: u32, low: u32) -> Decoding
    requires { high < 0x10000 }
    ensures takes { result.size ≡ (coded_piece high low).size }
    ensures stands_for { encoded result.bytes ≡ (coded_piece high low).bytes }
{
    match high {
        0xD800..0xDC00 => Decoding {
            size: 12,
            bytes: utf8(0x10000 + (high % 0x400) * 0x400 + low % 0x400),
        },
        _ => Decoding {
            size: 6,
            bytes: utf8(high),
        },
    }
}

// The number that four hexadecimal digits write, each by its line, as the definition has them: a `fold` over them would
// want a bound of its own at each step.
fn digits_at(text: &[u8], at: usize) -> u32
    requires { at ≤ 8 }
    ensures written { result ≡ code_at text.now at }
    ensures four_digits { result < 0x10000 }
{
    let a = digit_value(byte_at(text, at));
    let b = digit_value(byte_at(text, at + 1));
    let c = digit_value(byte_at(text, at + 2));
    let d = digit_value(byte_at(text, at + 3));
    ((a * 16 + b) * 16 + c) * 16 + d
}

// The value of a hexadecimal digit; 0 of any other byte.
fn digit_value(byte: u8) -> u32
    ensures value { result ≡ hex_value byte }
    ensures one_digit { result < 16 }
{
    char::from(byte).to_digit(16).unwrap_or(0)
}

// The byte that the escape of a letter stands for.
fn escaped_byte(letter: u8) -> u8
    ensures { result ≡ escape_value letter }
{
    match letter {
        b'b' => 0x08,
        b'f' => 0x0C,
        b'n' => b'\n',
        b'r' => b'\r',
        b't' => b'\t',
        _ => letter,
    }
}

// The byte at a place; 0 past the end.
fn byte_at(text: &[u8], at: usize) -> u8
    ensures { result ≡ slice_index text.now at }
{
    text.get(at).copied().unwrap_or(0)
}

// A code in UTF-8 (RFC 3629, section 3). The definition has bytes for surrogates too, which are no `char`.
fn utf8(code: u32) -> Encoded
    requires { code < 0x110000 }
    ensures { encoded result ≡ encode code }
{
    match code {
        0..0x80 => Encoded::new(&[code as u8]),
        0x80..0x800 => Encoded::new(&[(0xC0 + code / 0x40) as u8, tail(code)]),
        0x800..0x10000 => {
            Encoded::new(&[(0xE0 + code / 0x1000) as u8, tail(code / 0x40), tail(code)])
        }
        _ => Encoded::new(&[
            (0xF0 + code / 0x40000) as u8,
            tail(code / 0x1000),
            tail(code / 0x40),
            tail(code),
        ]),
    }
}

// A continuation byte: the low six bits.
fn tail(bits: u32) -> u8
    ensures { result ≡ 0x80 + bits % 0x40 }
{
    (0x80 + bits % 0x40) as u8
}
