// A call of a list.
use dts_resolver::Extensions;

/// How much of each piece of the lent memory a lookup is lent: the first so many bytes, and steps of the trail, or all where
/// the piece has fewer.
#[derive(Clone, Copy)]
pub struct Lengths {
    pub path: usize,
    pub work: usize,
    pub steps: usize,
    pub bytes: usize,
}

/// A lookup of a list: what it is asked, and how much memory it is lent. The mask is lent as the texts are: a list of structs
/// that hold references, and beside them a value with an invariant, is a form that the checker does not cover.
#[derive(Clone, Copy)]
pub struct Lookup<'c> {
    pub containing: &'c [u8],
    pub specifier: &'c [u8],
    pub mask: &'c Extensions,
    pub lengths: Lengths,
}

/// A call of a list; an added file has a content.
#[derive(Clone, Copy)]
pub enum Call<'c> {
    LookUp(Lookup<'c>),
    AddDirectory(&'c [u8]),
    AddFile(&'c [u8], &'c [u8]),
    Remove(&'c [u8]),
}
