//! What the strings of a manifest say of a text: patterns with a star, targets that are filled with what the star stood for,
//! entries, and names. The strings stand in the manifest's text and are read as they are decoded.

#![tactic(auto)]

mod entry;
mod filling;
mod laws;
mod matching;
mod names;

pub use entry::without_dot_slash;
pub use filling::{TooLong, fill_target};
pub use laws::{matches_are_told, patterns_split_at_the_first_star};
pub use matching::match_pattern;
pub use names::names_specifier;

pub(crate) const STAR: u8 = b'*';
