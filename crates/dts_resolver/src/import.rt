// What a lookup is asked.
use crate::extensions::Extensions;

/// An import of a schedule, and the sorts of files that it may mean.
#[derive(Clone, Copy, PartialEq, Eq, Debug)]
pub struct Import<'c, 's> {
    /// The path of the schedule, or of a directory's entry: its parent is where the specifier is looked up from.
    pub containing: &'c [u8],
    pub specifier: &'s [u8],
    pub mask: Extensions,
}
