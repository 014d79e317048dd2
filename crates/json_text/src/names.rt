// Literal names: true, false and null.

ghost use Rattle.std.specs.Prelude.{◌≡◌};
ghost use Rattle.json_text.specs.Machine.{have, name_rest};
ghost use Rattle.json_text.specs.Reading.{Reading, Any};

use crate::cursor::Cursor;
use json_string::Fault;

impl<'a> Cursor<'a> {
    // The bytes of a literal name that are still wanted.
    pub(crate) fn name_rest(self, rest: &[u8]) -> Result<Cursor<'a>, Fault>
        ensures { Reading (λ a. a ≡ rest.now) (name_rest rest.now) have Any self.entry result }
    {
        let mut end = self;
        for byte in rest {
            end = end.expect(*byte)?;
        }
        Ok(end)
    }
}
