//! What every store of files answers, by the tree that it means. A store is a crate of its own over this one.
#![tactic(auto)]

mod store;

pub use store::{FileSystem, Kind, Part, Refusal, is_storable};
