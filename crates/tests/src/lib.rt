//! Tests of the libraries, in a crate of their own: a crate with tests is proved twice.
#![tactic(auto)]

#[cfg(test)]
mod acts;
#[cfg(test)]
mod counting;
mod lending;
#[cfg(test)]
mod lists;
#[cfg(test)]
mod looking;
#[cfg(test)]
mod lookups;
#[cfg(test)]
mod matching;
#[cfg(test)]
mod memos;
#[cfg(test)]
mod notes;
#[cfg(test)]
mod paths;
#[cfg(test)]
mod piles;
#[cfg(test)]
mod questions;
#[cfg(test)]
mod replays;
#[cfg(test)]
mod scripts;
#[cfg(test)]
mod specifiers;
#[cfg(test)]
mod spelling;
#[cfg(test)]
mod stores;
#[cfg(test)]
mod tape;
