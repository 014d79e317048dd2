//! The script of the program `dts_lookup`: its commands, and what it may set up.
#![tactic(auto)]

mod command;
mod listing;
mod stage;

pub use command::{Command, Fault, Layers, MemorySizes, TableSizes, parse};
pub use listing::{Line, Script, Wrong, read};
pub use stage::{LENT, Stage, TABLE, layers, table_sizes};
