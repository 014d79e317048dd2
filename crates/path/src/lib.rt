//! Paths as byte strings: which are normal, the parent of one, and joining a subpath to a directory.

#![tactic(auto)]

mod components;
mod joining;
mod pieces;
mod utf8;

pub use components::{is_normal, parent};
pub use joining::{TooLong, join, join_text};
pub use utf8::is_utf8;
