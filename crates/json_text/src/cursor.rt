// A place in a text, and the place behind what stands there.

ghost use Rattle.std.specs.Prelude.{◌≡◌, ◌≤◌, length};

use crate::classes::{Class, Whitespace};
use crate::token::Token;
use json_string::Fault;

// A place in a text, at most its end.
#[derive(Clone, Copy)]
pub(crate) struct Cursor<'a> {
    pub(crate) text: &'a [u8],
    pub(crate) at: usize,
    ghost inside: { at ≤ length text.now },
}

impl<'a> Cursor<'a> {
    ghost use Rattle.std.specs.Prelude.{◌≡◌, ◌+◌, ◌<◌, ◌==◌, true, false, drop, MatchOption, MatchResult};
    ghost use Rattle.json_text.specs.Standing.{Run, Space};
    ghost use Rattle.json_text.specs.Cursors.{symbol, Behind};

    // The cursor at a place that is no later than the end.
    pub(crate) fn new(text: &'a [u8], at: usize) -> Option<Cursor<'a>>
        ensures { MatchOption result (length text.now < at) (λ here. (here.text.now ≡ text.now) × (here.at ≡ at)) }
    {
        if at <= text.len() {
            Some(Cursor { text, at })
        } else {
            None
        }
    }

    // The byte that stands here, and the place behind it.
    pub(crate) fn split_first(self) -> Option<(u8, Cursor<'a>)>
        ensures { MatchOption result (symbol self.entry ≡ 256) (λ (byte, next). (symbol self.entry ≡ byte) × Behind self.entry.text.now self.entry.at next) }
    {
        let byte = *self.text.get(self.at)?;
        let next = Cursor {
            text: self.text,
            at: self.at + 1,
        };
        Some((byte, next))
    }

    // The place behind a byte that passes the test, where one stands here.
    fn after_if<F: FnOnce(u8) -> bool>(self, test: F) -> Option<Cursor<'a>>
        requires { F.IsAlwaysCallable test }
        ensures { MatchOption result ((symbol self.entry < 256 → F.post test (symbol self.entry) false) × (symbol self.entry ≤ 256)) (λ next. F.post test (symbol self.entry) true × Behind self.entry.text.now self.entry.at next) }
    {
        let (first, next) = self.split_first()?;
        test(first).then_some(next)
    }

    // The place behind this byte, where it stands here.
    pub(crate) fn after(self, byte: u8) -> Option<Cursor<'a>>
        ensures { let here = symbol self.entry == byte in MatchOption result (here ≡ false) (λ next. (here ≡ true) × Behind self.entry.text.now self.entry.at next) }
    {
        self.after_if(|first| first == byte)
    }

    // The place behind a byte of this class, where one stands here.
    pub(crate) fn after_any<C: Class>(self) -> Option<Cursor<'a>>
        ensures { let here = C.members (symbol self.entry) in MatchOption result (here ≡ false) (λ next. (here ≡ true) × Behind self.entry.text.now self.entry.at next) }
    {
        self.after_if(|first| C::has(first))
    }

    // The place behind this byte, which must stand here.
    pub(crate) fn expect(self, byte: u8) -> Result<Cursor<'a>, Fault>
        ensures { let here = symbol self.entry == byte in MatchResult result (λ next. (here ≡ true) × Behind self.entry.text.now self.entry.at next) (λ fault. (here ≡ false) × (fault.place ≡ self.entry.at)) }
    {
        self.after(byte).ok_or(self.fault())
    }

    // Where the bytes of a class end that begin here.
    pub(crate) fn skip<C: Class>(self) -> Cursor<'a>
        ensures same_text { result.text.now ≡ self.entry.text.now }
        ensures run { Run C.members self.entry.text.now self.entry.at result.at }
    {
        let mut end = self;
        while let Some(next) = end.after_any::<C>() {
            end = next;
        }
        end
    }

    // Where the white space ends that begins here.
    pub(crate) fn skip_ws(self) -> Token<'a>
        ensures same_text { result.start.text.now ≡ self.entry.text.now }
        ensures space { Space self.entry.text.now self.entry.at result.start.at }
    {
        Token {
            start: self.skip::<Whitespace>(),
        }
    }

    // The cursor at another place of the same text, no later than its end.
    pub(crate) fn moved_to(self, at: usize) -> Cursor<'a>
        requires { at ≤ length self.text.now }
        ensures same_text { result.text.now ≡ self.entry.text.now }
        ensures there { result.at ≡ at }
    {
        Cursor {
            text: self.text,
            at,
        }
    }

    // The fault that nothing goes on here.
    pub(crate) fn fault(self) -> Fault
        ensures { result.place ≡ self.entry.at }
    {
        Fault { place: self.at }
    }
}
