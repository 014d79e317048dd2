//! Commands on standard input: one to a line, its words parted by one space.
#![tactic(auto)]

ghost use Rattle.std.specs.Prelude.{◌≡◌};
ghost use Rattle.commands.specs.Lines.{holds_command, one_word};

use std::io::Read;
use std::process::ExitCode;
use thiserror::Error;

/// What carries commands out.
pub trait Runner {
    /// Carries the command of one line out, and prints what it came to. An error ends the run.
    fn carry_out(&mut self, line: &str) -> anyhow::Result<()>;
}

/// What is wrong with the words of a line.
#[derive(Clone, Copy, Debug, Error)]
pub enum Fault {
    #[error("there is no such command")]
    Unknown,
    #[error("a word is missing: words are parted by one space, and no bytes are written -")]
    Missing,
    #[error("there is a word too many")]
    Extra,
}

/// The whole of standard input.
pub fn read(rt: &HostRuntime) -> anyhow::Result<String> {
    let heap = rt.alloc();
    let mut bytes = Vec::new(heap);
    rt.stdin().read_to_end(&mut bytes)?;
    // Bytes that are no text become a character that no word may have, so that their line is told as wrong.
    Ok(String::from_utf8_lossy(heap, bytes.as_slice())?)
}

/// Whether a line holds a command: it is neither empty nor a comment.
pub fn has_command(line: &str) -> bool
    ensures neither_empty_nor_comment { result ≡ holds_command line.now }
{
    !matches!(line.as_bytes(), [] | [b'#', ..])
}

/// Refuses what is not one word: the last word of a line may be missing, or be several.
pub fn check_word(text: &str) -> Result<(), Fault>
    ensures first_that_fails { result ≡ one_word text.now }
{
    let bytes = text.as_bytes();
    if bytes.is_empty() {
        return Err(Fault::Missing);
    }
    if bytes.contains(&b' ') {
        return Err(Fault::Extra);
    }
    Ok(())
}

/// Has each command carried out, up to the first that cannot be.
pub fn run<R: Runner>(rt: &HostRuntime, text: &str, runner: &mut R) -> anyhow::Result<ExitCode> {
    for (index, line) in text.lines().enumerate() {
        if !has_command(line) {
            continue;
        }
        if let Err(error) = runner.carry_out(line) {
            return stop(rt, index.saturating_add(1), error);
        }
    }
    Ok(ExitCode::SUCCESS)
}

/// Ends a run at a line, by its number. The message goes to both outputs: a reader of the answers sees the one, and a shell
/// shows the other.
pub fn stop(rt: &HostRuntime, line: usize, error: anyhow::Error) -> anyhow::Result<ExitCode> {
    println!(rt; "line {line}: {error}")?;
    eprintln!(rt; "line {line}: {error}")?;
    Ok(ExitCode::FAILURE)
}
