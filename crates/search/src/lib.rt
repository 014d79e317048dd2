//! Searches over a store: a search as data with what it comes to and asks in a tree, and the struct that asks a store and
//! keeps the trail of its questions in lent memory.
#![tactic(auto)]

mod error;
pub mod laws;
mod searcher;
mod trail;

pub use error::Refusal;
pub use searcher::{Searcher, Source};
pub use trail::{Presence, Reply, Step};

/// The most bytes that a path has; one that grows over it is refused.
pub const PATH_SIZE: usize = 1024;
