// Values that have no bracket, and the names of members.

ghost use Rattle.std.specs.Prelude.{◌≡◌, ℕ, ◌≢◌, List, IfOk};
ghost use Rattle.json_text.specs.Cursors.{symbol};
ghost use Rattle.json_text.specs.Machine.{want, have, want_name};
ghost use Rattle.json_text.specs.Reading.{Reading, TokenReading, Any, Room, AnyValue, NameColon};
ghost use Rattle.json_text.specs.Standing.{ColonAt};

use crate::cursor::Cursor;
use crate::token::Token;
use json_string::Fault;

impl<'a> Token<'a> {
    // A string, a number or a literal name, where no bracket stands.
    pub(crate) fn plain_value(self) -> Result<Cursor<'a>, Fault>
        requires no_array { symbol self.start ≢ 91 }
        requires no_object { symbol self.start ≢ 123 }
        ensures { (depth : ℕ) → Reading (AnyValue depth) want have (Room depth) self.entry.start result }
    {
        let Some((byte, behind)) = self.start.split_first() else {
            return Err(self.start.fault());
        };
        match byte {
            b'"' => behind.string_end(),
            b'-' | b'0'..=b'9' => {
                let end = self.start.number()?;
                Ok(self.start.moved_to(end))
            }
            b't' => behind.name_rest(b"rue"),
            b'f' => behind.name_rest(b"alse"),
            b'n' => behind.name_rest(b"ull"),
            _ => Err(self.start.fault()),
        }
    }

    // The name of a member and the colon, up to where its value is wanted.
    pub(crate) fn name_and_colon(self) -> Result<Token<'a>, Fault>
        ensures reading { TokenReading NameColon want_name want Any self.entry.start result }
        ensures stands { IfOk result (λ place. (k : List ℕ) × ColonAt self.entry.start.text.now self.entry.start.at place.start.at k) }
    {
        let behind = self.start.expect(b'"')?.string_end()?.skip_ws();
        Ok(behind.start.expect(b':')?.skip_ws())
    }
}
