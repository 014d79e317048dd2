//! A run of a script: its calls, over one table with the layers that it asks for.
use crate::memory::{Memory, lengths};
use crate::printer::Printer;
use dts_resolver::Lent;
use file_system::FileSystem;
use memo::Memo;
use replay::{Call, Lookup, replay};
use script::{Command, LENT, Layers, Line, Script};
use std::alloc::{AllocError, Global};
use std::process::ExitCode;
use table::{Entry, Table};

/// Carries a script out, up to the first line that is no command, and prints what each line came to.
pub fn run(rt: &HostRuntime, text: &str) -> anyhow::Result<ExitCode> {
    let heap = rt.alloc();
    let script = script::read(heap, text)?;
    let sizes = script::table_sizes(heap, text);
    let mut entries = vec![in heap; Entry::default(); sizes.entries]?;
    let mut bytes = vec![in heap; 0u8; sizes.bytes]?;
    let mut table = Table::new(entries.as_mut_slice(), bytes.as_mut_slice());
    match script::layers(heap, text) {
        Layers::None => run_over(rt, &mut table, &script),
        Layers::One => run_over(rt, &mut Memo::new(table), &script),
        Layers::Two => run_over(rt, &mut Memo::new(Memo::new(table)), &script),
    }
}

fn run_over<S: FileSystem>(
    rt: &HostRuntime,
    store: &mut S,
    script: &Script<'_>,
) -> anyhow::Result<ExitCode> {
    let heap = rt.alloc();
    let lines = script.lines.as_slice();
    let calls = calls(heap, lines)?;
    let mut memory = Memory::for_lines(heap, lines)?;
    let mut printer = Printer::new(rt, lines);
    carry_out(store, calls.as_slice(), &mut memory.lent(), &mut printer)?;
    printer.set_ups()?;
    match script.wrong {
        None => Ok(ExitCode::SUCCESS),
        Some(wrong) => commands::stop(rt, wrong.line, anyhow::Error::from(wrong.fault)),
    }
}

// The calls. What they promise is not needed here, and without that what calls it is proved much faster.
fn carry_out<S: FileSystem>(
    store: &mut S,
    calls: &[Call<'_>],
    lent: &mut Lent<'_>,
    printer: &mut Printer<'_, '_, '_>,
) -> anyhow::Result<()> {
    replay(store, calls, lent, printer)
}

// The calls of the lines; each lookup is lent as much memory as the line `memory` before it asks for.
fn calls<'s>(heap: Global, lines: &'s [Line<'_>]) -> Result<Vec<Call<'s>>, AllocError> {
    let mut calls = Vec::new(heap);
    let mut sizes = LENT;
    for line in lines {
        match &line.command {
            Command::Table(_) | Command::Memo(_) => {},
            Command::Memory(asked) => sizes = *asked,
            Command::AddDirectory(path) => calls.push(Call::AddDirectory(path.as_slice()))?,
            Command::AddFile { path, content } => {
                calls.push(Call::AddFile(path.as_slice(), content.as_slice()))?;
            },
            Command::Remove(path) => calls.push(Call::Remove(path.as_slice()))?,
            Command::Lookup {
                containing,
                specifier,
                mask,
            } => {
                let lookup = Lookup {
                    containing: containing.as_slice(),
                    specifier: specifier.as_slice(),
                    mask,
                    lengths: lengths(sizes),
                };
                calls.push(Call::LookUp(lookup))?;
            },
        }
    }
    Ok(calls)
}
