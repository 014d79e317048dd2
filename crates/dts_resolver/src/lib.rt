//! Which declaration file an import means: the lookup of an import over a store, in lent memory, and the laws that it keeps.
#![tactic(auto)]

mod checks;
pub mod endings;
mod extensions;
mod file_step;
mod import;
pub mod laws;
mod lent;
mod relative;
mod resolution;
mod resolve;
mod specifier;

pub use extensions::{Extensions, Sort};
pub use import::Import;
pub use lent::Lent;
pub use resolution::{ModuleType, Refused, Resolution};
pub use resolve::lookup;
pub use search::{PATH_SIZE, Presence, Refusal, Reply, Step};
pub use specifier::Specifier;

/// The fewest bytes that a work area has.
pub const WORK_SIZE: usize = 32768;

/// The most bytes that a containing path has, and a specifier.
pub const IMPORT_SIZE: usize = 512;
