//! Words: text for byte strings. `%XX` stands for a byte that may not stand plain, and `-` alone for no bytes.
#![tactic(auto)]

ghost use Rattle.std.specs.Prelude.{◌≡◌, ◌<◌, true, false, ◌⊎◌, [], ◌∷◌, ◌++◌, length, IfOk, Some, Ok, Err, string_bytes, MatchOption, MatchResult, OnOk};
ghost use Rattle.words.specs.declared.Fault.TheVariants.{Memory};
ghost use Rattle.words.specs.Words.{bytes as bytes_of, message, digit_of, digit_value, is_digit, letters as letters_of, plain as plain_of, put, read as read_of, spelled, written, RoundTrip};

use percent_encoding::percent_encode_byte;
use std::alloc::{AllocError, AllocFailed, Global};
use std::error::Error;
use std::fmt;

/// Why a text is no word, or that there was no memory for its bytes.
#[derive(Clone, Copy, PartialEq, Eq, Debug)]
pub enum Fault {
    Memory,
    Empty,
    Escape,
    Unescaped,
}

impl From<AllocFailed<u8>> for Fault {
    ghost from_gives = { λ _ fault. fault ≡ Memory };

    fn from(_failed: AllocFailed<u8>) -> Fault {
        Fault::Memory
    }
}

impl fmt::Display for Fault {
    ghost output = { λ fault. Some (message fault) };

    fn fmt<W: fmt::Write>(&self, f: &mut fmt::Formatter<W>) -> fmt::Result {
        f.write_str(match self {
            Fault::Memory => "there is no memory for a word",
            Fault::Empty => "a word is empty",
            Fault::Escape => "a % without two hexadecimal digits after it",
            Fault::Unescaped => "a byte stands plain that has to be written %XX",
        })
    }
}

impl Error for Fault {}

/// The byte string that a word stands for.
pub fn read(heap: Global, text: &[u8]) -> Result<Vec<u8>, Fault>
    ensures stands { MatchResult result (λ v. read_of text.now ≡ Ok v.items) (λ e. (e ≡ Fault.Memory) ⊎ (read_of text.now ≡ Err e)) }
{
    match text {
        [] => Err(Fault::Empty),
        [b'-'] => Ok(Vec::new(heap)),
        _ => bytes(heap, text),
    }
}

/// The word of a byte string.
pub fn write(heap: Global, bytes: &[u8]) -> Result<String, AllocError>
    ensures word { IfOk result (λ s. string_bytes s ≡ written bytes.now) }
    ensures read_back { RoundTrip }
{
    match bytes {
        [] => String::from_str(heap, "-"),
        [b'-'] => String::from_str(heap, "%2D"),
        _ => letters(heap, bytes),
    }
}

fn bytes(heap: Global, text: &[u8]) -> Result<Vec<u8>, Fault>
    ensures { MatchResult result (λ v. bytes_of text.now ≡ Ok v.items) (λ e. (e ≡ Fault.Memory) ⊎ (bytes_of text.now ≡ Err e)) }
{
    let mut found = Vec::new(heap);
    let mut rest = text;
    while let Some((byte, after)) = next(rest)? {
        found.push(byte)?;
        rest = after;
    }
    Ok(found)
}

// The first byte that a text stands for, and the text after it.
fn next(text: &[u8]) -> Result<Option<(u8, &[u8])>, Fault>
    ensures { MatchResult result (λ o. MatchOption o (text.now ≡ []) (λ p. (bytes_of text.now ≡ put p.0 (bytes_of p.1.now)) × (length p.1.now < length text.now))) (λ e. bytes_of text.now ≡ Err e) }
{
    let [first, after @ ..] = text else {
        return Ok(None);
    };
    if *first == b'%' {
        return Ok(Some(coded(after)?));
    }
    if plain(*first) {
        Ok(Some((*first, after)))
    } else {
        Err(Fault::Unescaped)
    }
}

// The byte whose two digits stand first, after a `%`, and the text after them.
fn coded(text: &[u8]) -> Result<(u8, &[u8]), Fault>
    ensures { MatchResult result (λ p. (bytes_of (37 ∷ text.now) ≡ put p.0 (bytes_of p.1.now)) × (length p.1.now < length text.now)) (λ e. bytes_of (37 ∷ text.now) ≡ Err e) }
{
    let [high, low, after @ ..] = text else {
        return Err(Fault::Escape);
    };
    Ok((16 * value(*high)? + value(*low)?, after))
}

fn value(digit: u8) -> Result<u8, Fault>
    ensures { MatchResult result (λ v. (is_digit digit ≡ true) × (v ≡ digit_value digit) × (v < 16)) (λ e. (is_digit digit ≡ false) × (e ≡ Fault.Escape)) }
{
    match char::from(digit).to_digit(16) {
        Some(value) => Ok(value as u8),
        None => Err(Fault::Escape),
    }
}

fn letters(heap: Global, bytes: &[u8]) -> Result<String, AllocError>
    ensures { IfOk result (λ s. string_bytes s ≡ letters_of bytes.now) }
{
    let mut word = String::new(heap);
    for byte in bytes {
        spell(&mut word, *byte)?;
    }
    Ok(word)
}

fn spell(word: &mut String, byte: u8) -> Result<(), AllocError>
    ensures { OnOk result (string_bytes word.new ≡ string_bytes word.old ++ spelled byte) }
{
    if plain(byte) {
        word.push(char::from(byte))
    } else {
        word.push_str(percent_encode_byte(byte))
    }
}

/// Whether a byte may stand for itself in a word.
fn plain(byte: u8) -> bool
    ensures { result ≡ plain_of byte }
{
    byte.is_ascii_graphic() && byte != b'%'
}
