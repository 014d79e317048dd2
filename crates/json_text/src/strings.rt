// Strings, in the words of the readers of values.

ghost use Rattle.std.specs.Prelude.{◌≡◌, ℕ, ◌+◌, IfOk};
ghost use Rattle.json_string.specs.Machine.{plain};
ghost use Rattle.json_string.specs.Reading.{StringAt};
ghost use Rattle.json_text.specs.Machine.{Role, in_string, after_string};
ghost use Rattle.json_text.specs.Reading.{Reading, Any, StringEnd};

use crate::cursor::Cursor;
use json_string::{Fault, read_string};

impl<'a> Cursor<'a> {
    // A string behind its opening quotation mark, a name or a value.
    pub(crate) fn string_end(self) -> Result<Cursor<'a>, Fault>
        ensures reading { (role : Role) → Reading StringEnd (in_string role plain) (after_string role) Any self.entry result }
        ensures stands { IfOk result (λ behind. (end : ℕ) × (behind.at ≡ end + 1) × StringAt self.entry.text.now self.entry.at end) }
    {
        let end = read_string(self.text, self.at)?;
        Ok(Cursor {
            text: self.text,
            at: end + 1,
        })
    }
}
