// An observer that marks each outcome with a byte, and fails where there is no room. What it was told is that its marks are
// those of the events: so the contract of a list of calls says what stands on it, even where it failed.
ghost use Rattle.std.specs.Prelude.{◌≡◌, [], map};
ghost use Rattle.list.specs.Held.{held};
ghost use Rattle.tests.specs.Tape.{mark_of, mark_of_change, mark_of_told};

use dts_resolver::{Lent, Refused, Resolution};
use file_system::Refusal;
use list::{Full, List};
use replay::{Lookup, Observer};

#[derive(Drop)]
pub(crate) struct Tape<'a> {
    marks: List<'a, u8>,
}

impl<'a> Tape<'a> {
    // A tape with no marks.
    pub(crate) fn new(memory: &'a mut [u8]) -> Tape<'a>
        ensures none { held result.marks ≡ [] }
    {
        Tape {
            marks: List::new(memory),
        }
    }

    // The marks, in the order of the calls.
    pub(crate) fn marks(&self) -> &[u8]
        ensures marks { result.now ≡ held self.now.marks }
    {
        self.marks.as_slice()
    }
}

fn mark_change(outcome: Result<(), Refusal>) -> u8
    ensures mark { result ≡ mark_of_change outcome }
{
    match outcome {
        Ok(()) => 3,
        Err(_) => 4,
    }
}

fn mark_answer(answer: &Result<Resolution<'_>, Refused>) -> u8
    ensures mark { result ≡ mark_of_told answer.now }
{
    match answer {
        Ok(found) if found.path.is_some() => 1,
        Ok(_) => 0,
        Err(_) => 2,
    }
}

impl Observer for Tape<'_> {
    type Error = Full;

    ghost told = { λ tape es. held tape.marks ≡ map mark_of es };

    fn looked_up(
        &mut self,
        _lookup: &Lookup<'_>,
        answer: &Result<Resolution<'_>, Refused>,
        _lent: &Lent<'_>,
    ) -> Result<(), Full> {
        self.marks.push(mark_answer(answer))
    }

    fn added_directory(&mut self, _path: &[u8], outcome: Result<(), Refusal>) -> Result<(), Full> {
        self.marks.push(mark_change(outcome))
    }

    fn added_file(
        &mut self,
        _path: &[u8],
        _content: &[u8],
        outcome: Result<(), Refusal>,
    ) -> Result<(), Full> {
        self.marks.push(mark_change(outcome))
    }

    fn removed(&mut self, _path: &[u8], outcome: Result<(), Refusal>) -> Result<(), Full> {
        self.marks.push(mark_change(outcome))
    }
}
