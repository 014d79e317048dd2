// Values: arrays and objects, whose readers call each other with the depth that is left. They tell the place behind what
// they read and no cursor: a place is told in a register.

ghost use Rattle.std.specs.Prelude.{◌≡◌, ◌+◌, ◌∷◌};
ghost use Rattle.json_text.specs.Cursors.{symbol};
ghost use Rattle.json_text.specs.Machine.{want, have, want_name, square, curly};
ghost use Rattle.json_text.specs.Reading.{EndReading, NextReading, Room, AnyValue, AnyValues, AnyMember, AnyMembers, Spaced, Ended};

use crate::brackets::Bracket;
use crate::cursor::Cursor;
use crate::token::Token;
use json_string::Fault;

impl<'a> Token<'a> {
    // A value, with at most `depth` brackets open in it.
    #[cycle(values)]
    fn value(self, depth: usize) -> Result<usize, Fault>
        ensures { EndReading (AnyValue depth) want have (Room depth) self.entry.start result }
    {
        match self.start.bracket() {
            Some(Bracket::Square) => self.array(depth),
            Some(Bracket::Curly) => self.object(depth),
            None => Ok(self.plain_value()?.at),
        }
    }

    // A value and the white space behind it.
    #[cycle(values)]
    pub(crate) fn element(self, depth: usize) -> Result<usize, Fault>
        ensures { NextReading (Spaced (AnyValue depth)) want have (Room depth) self.entry.start result }
    {
        let end = self.value(depth)?;
        Ok(self.start.moved_to(end).skip_ws().start.at)
    }

    // An array, from its opening bracket on.
    #[cycle(values)]
    fn array(self, depth: usize) -> Result<usize, Fault>
        requires { symbol self.start ≡ 91 }
        ensures { EndReading (AnyValue depth) want have (Room depth) self.entry.start result }
    {
        let Some(inner) = depth.checked_sub(1) else {
            return Err(self.start.fault());
        };
        let first = self.start.expect(b'[')?.skip_ws();
        match first.start.after(b']') {
            Some(end) => Ok(end.at),
            None => first.elements(inner),
        }
    }

    // The values of an array, and its end.
    #[cycle(values)]
    fn elements(self, depth: usize) -> Result<usize, Fault>
        ensures { EndReading (Ended (AnyValues depth) 93) (λ σ. want (square ∷ σ)) have (Room (depth + 1)) self.entry.start result }
    {
        let mut next = self;
        loop {
            let place = next.element(depth)?;
            let behind = self.start.moved_to(place);
            if let Some(end) = behind.after(b']') {
                return Ok(end.at);
            }
            next = behind.expect(b',')?.skip_ws();
        }
    }

    // An object, from its opening bracket on.
    #[cycle(values)]
    fn object(self, depth: usize) -> Result<usize, Fault>
        requires { symbol self.start ≡ 123 }
        ensures { EndReading (AnyValue depth) want have (Room depth) self.entry.start result }
    {
        let Some(inner) = depth.checked_sub(1) else {
            return Err(self.start.fault());
        };
        let first = self.start.expect(b'{')?.skip_ws();
        match first.start.after(b'}') {
            Some(end) => Ok(end.at),
            None => first.members(inner),
        }
    }

    // The members of an object, and its end.
    #[cycle(values)]
    fn members(self, depth: usize) -> Result<usize, Fault>
        ensures { EndReading (Ended (AnyMembers depth) 125) (λ σ. want_name (curly ∷ σ)) have (Room (depth + 1)) self.entry.start result }
    {
        let mut next = self;
        loop {
            let place = next.member(depth)?;
            let behind = self.start.moved_to(place);
            if let Some(end) = behind.after(b'}') {
                return Ok(end.at);
            }
            next = behind.expect(b',')?.skip_ws();
        }
    }

    // A member and the white space behind it.
    #[cycle(values)]
    fn member(self, depth: usize) -> Result<usize, Fault>
        ensures { NextReading (Spaced (AnyMember depth)) want_name have (Room depth) self.entry.start result }
    {
        self.name_and_colon()?.element(depth)
    }
}
