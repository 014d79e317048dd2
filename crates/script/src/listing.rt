// The commands of a whole script, in order.
ghost use Rattle.std.specs.Prelude.{IfOk, All};
ghost use Rattle.script.specs.Meaning.{Means};

use crate::command::{Command, Fault};
use crate::stage::Stage;
use commands::has_command;
use std::alloc::{AllocError, Global};

/// A command with its line.
#[derive(Drop)]
pub struct Line<'t> {
    pub text: &'t str,
    pub command: Command,
}

/// A line that is no command where it stands: its number, counting all lines from 1, and what is wrong with it.
#[derive(Clone, Copy)]
pub struct Wrong {
    pub line: usize,
    pub fault: Fault,
}

/// The commands of a script, up to the first line that is none.
#[derive(Drop)]
pub struct Script<'t> {
    pub lines: Vec<Line<'t>>,
    pub wrong: Option<Wrong>,
}

/// Reads a whole script.
pub fn read<'t>(heap: Global, text: &'t str) -> Result<Script<'t>, AllocError>
    ensures each_means { IfOk result (λ script. All (λ line. Means line.text.now line.command) script.lines.items) }
{
    let mut lines = Vec::new(heap);
    let mut stage = Stage::First;
    for (index, line) in text.lines().enumerate() {
        if !has_command(line) {
            continue;
        }
        match stage.parse(heap, line) {
            Ok(command) => {
                stage = Stage::after(&command);
                lines.push(Line {
                    text: line,
                    command,
                })?;
            },
            Err(fault) => {
                let wrong = Wrong {
                    line: index.saturating_add(1),
                    fault,
                };
                return Ok(Script {
                    lines,
                    wrong: Some(wrong),
                });
            },
        }
    }
    Ok(Script { lines, wrong: None })
}
