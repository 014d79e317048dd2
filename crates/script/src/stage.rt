// What a script may set up, and where: the sizes of the table, and the layers over it.
ghost use Rattle.std.specs.Prelude.{◌≡◌, true, IfOk};
ghost use Rattle.script.specs.Meaning.{Means};
ghost use Rattle.script.specs.Sizes.{SmallSizes, SmallTable};
ghost use Rattle.script.specs.Stages.{may_stand, stage_after};

use crate::command::{Command, Fault, Layers, MemorySizes, TableSizes, parse};
use commands::has_command;
use std::alloc::Global;

/// The sizes of the table, where a script does not give them.
pub const TABLE: TableSizes = TableSizes {
    entries: 4096,
    bytes: 4194304,
};

/// The lengths that are lent to a lookup, where a script does not give them.
pub const LENT: MemorySizes = MemorySizes {
    path: 1024,
    work: 32768,
    steps: 256,
    bytes: 16384,
};

/// How far a script has come: `table` may only be its first command, and `memo` its first or the one after `table`.
#[derive(Clone, Copy)]
pub enum Stage {
    First,
    AfterTable,
    Later,
}

impl Stage {
    /// The command of a line that stands here. The table cannot change its sizes once it is in use, nor the store its layers.
    pub fn parse(self, heap: Global, line: &str) -> Result<Command, Fault>
        ensures means { IfOk result (Means line.now) }
        ensures stands_there { IfOk result (λ command. may_stand self command ≡ true) }
        ensures sizes_within_the_limit { IfOk result SmallSizes }
    {
        let command = parse(heap, line)?;
        match (&command, self) {
            (Command::Table(_), Stage::AfterTable | Stage::Later) => Err(Fault::LateTable),
            (Command::Memo(_), Stage::Later) => Err(Fault::LateMemo),
            _ => Ok(command),
        }
    }

    /// The stage after a command.
    pub fn after(command: &Command) -> Stage
        ensures by_the_command { result ≡ stage_after command.now }
    {
        match command {
            Command::Table(_) => Stage::AfterTable,
            _ => Stage::Later,
        }
    }
}

/// The sizes of the table. It is made before the first command is carried out, so they are looked for first.
pub fn table_sizes(heap: Global, text: &str) -> TableSizes
    ensures within_the_limit { SmallTable result }
{
    let Some(line) = text.lines().find(|line| has_command(line)) else {
        return TABLE;
    };
    match parse(heap, line) {
        Ok(Command::Table(sizes)) => sizes,
        _ => TABLE,
    }
}

/// The layers that a script asks for, by its first command or the one after `table`.
pub fn layers(heap: Global, text: &str) -> Layers {
    let mut stage = Stage::First;
    for line in text.lines().filter(|line| has_command(line)) {
        match stage.parse(heap, line) {
            Ok(Command::Table(_)) => stage = Stage::AfterTable,
            Ok(Command::Memo(layers)) => return layers,
            _ => return Layers::None,
        }
    }
    Layers::None
}
