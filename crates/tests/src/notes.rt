// An observer that notes each outcome as a text: of a lookup what it chose and the steps of its trail, of a change what it
// came to.
use dts_resolver::{Lent, Presence, Refused, Reply, Resolution};
use file_system::Refusal;
use replay::{Lookup, Observer};
use std::alloc::{AllocError, Global};

#[derive(Drop)]
pub(crate) struct Notes {
    heap: Global,
    pub(crate) texts: Vec<String>,
}

impl Notes {
    pub(crate) fn new(heap: Global) -> Notes {
        Notes {
            heap,
            texts: Vec::new(heap),
        }
    }

    fn change(&mut self, outcome: Result<(), Refusal>) -> Result<(), AllocError> {
        let text = match outcome {
            Ok(()) => String::from_str(self.heap, "done")?,
            Err(refusal) => format!(in self.heap; "{refusal}")?,
        };
        self.texts.push(text)?;
        Ok(())
    }
}

fn chosen(
    heap: Global,
    answer: &Result<Resolution<'_>, Refused>,
    lent: &Lent<'_>,
) -> Result<String, AllocError> {
    match answer {
        Err(refused) => format!(in heap; "{}", refused.refusal),
        Ok(found) => match found.chosen(lent.path) {
            None => String::from_str(heap, "none"),
            Some(path) => words::write(heap, path),
        },
    }
}

impl Observer for Notes {
    type Error = AllocError;

    ghost told = { λ notes events. Unit {0} };

    fn looked_up(
        &mut self,
        _lookup: &Lookup<'_>,
        answer: &Result<Resolution<'_>, Refused>,
        lent: &Lent<'_>,
    ) -> Result<(), AllocError> {
        let mut text = chosen(self.heap, answer, lent)?;
        let count = match answer {
            Ok(found) => found.count,
            Err(refused) => refused.count,
        };
        for step in lent.steps.iter().take(count) {
            let path = words::write(self.heap, step.path(lent.bytes))?;
            text.push_str("; ")?;
            text.push_str(path.as_str())?;
            match step.reply {
                Reply::Kind(kind) => {
                    let kind = format!(in self.heap; " {kind}")?;
                    text.push_str(kind.as_str())?;
                },
                Reply::Manifest(Presence::Present) => text.push_str(" read")?,
                Reply::Manifest(Presence::Absent) => text.push_str(" no file")?,
            }
        }
        self.texts.push(text)?;
        Ok(())
    }

    fn added_directory(
        &mut self,
        _path: &[u8],
        outcome: Result<(), Refusal>,
    ) -> Result<(), AllocError> {
        self.change(outcome)
    }

    fn added_file(
        &mut self,
        _path: &[u8],
        _content: &[u8],
        outcome: Result<(), Refusal>,
    ) -> Result<(), AllocError> {
        self.change(outcome)
    }

    fn removed(&mut self, _path: &[u8], outcome: Result<(), Refusal>) -> Result<(), AllocError> {
        self.change(outcome)
    }
}
