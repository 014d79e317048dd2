// Numbers: [ minus ] int [ frac ] [ exp ].

ghost use Rattle.std.specs.Prelude.{◌≡◌, true, ◌⊎◌, MatchResult};
ghost use Rattle.json_text.specs.Cursors.{symbol};
ghost use Rattle.json_text.specs.Json.{Optional, Number, Int, Frac, Exp, is_digit};
ghost use Rattle.json_text.specs.Machine.{want, have, minus, zero, before_exp, e};
ghost use Rattle.json_text.specs.Reading.{Reading, EndReading, Any, Unsigned, SignedDigits, DigitsAt, NoDigitAt};

use crate::classes::{Digit, E, Sign};
use crate::cursor::Cursor;
use json_string::Fault;

impl<'a> Cursor<'a> {
    // A number that begins at a place where a minus or a digit stands.
    pub(crate) fn number(self) -> Result<usize, Fault>
        requires { (symbol self ≡ 45) ⊎ (is_digit (symbol self) ≡ true) }
        ensures { EndReading Number want have Any self.entry result }
    {
        match self.after(b'-') {
            Some(behind) => behind.unsigned(),
            None => self.unsigned(),
        }
    }

    // A number behind its minus.
    fn unsigned(self) -> Result<usize, Fault>
        ensures { EndReading Unsigned minus have Any self.entry result }
    {
        Ok(self.int()?.frac()?.exp()?.at)
    }

    // A zero, or digits of which the first is no zero.
    fn int(self) -> Result<Cursor<'a>, Fault>
        ensures { Reading Int minus zero Any self.entry result }
    {
        match self.after(b'0') {
            Some(behind) => Ok(behind),
            None => self.digits(),
        }
    }

    // A point and digits, or nothing.
    fn frac(self) -> Result<Cursor<'a>, Fault>
        ensures { Reading (Optional Frac) zero before_exp Any self.entry result }
    {
        match self.after(b'.') {
            Some(behind) => behind.digits(),
            None => Ok(self),
        }
    }

    // An e and digits, perhaps with a sign; or nothing.
    fn exp(self) -> Result<Cursor<'a>, Fault>
        ensures { Reading (Optional Exp) before_exp have Any self.entry result }
    {
        match self.after_any::<E>() {
            Some(behind) => behind.signed_digits(),
            None => Ok(self),
        }
    }

    // Digits, perhaps with a sign before them.
    fn signed_digits(self) -> Result<Cursor<'a>, Fault>
        ensures { Reading SignedDigits e have Any self.entry result }
    {
        match self.after_any::<Sign>() {
            Some(behind) => behind.digits(),
            None => self.digits(),
        }
    }

    // One digit or more, up to the next symbol that is none.
    fn digits(self) -> Result<Cursor<'a>, Fault>
        ensures { MatchResult result (λ end. (end.text.now ≡ self.entry.text.now) × DigitsAt self.entry.text.now self.entry.at end.at) (λ f. NoDigitAt self.entry.text.now self.entry.at f.place) }
    {
        match self.after_any::<Digit>() {
            Some(behind) => Ok(behind.skip::<Digit>()),
            None => Err(self.fault()),
        }
    }
}
