//! Which endings a path is tried with, and the type of a module by the ending of its path.
ghost use Rattle.std.specs.Prelude.{◌≡◌, ℕ, ◌≤◌, List, ◌++◌, length, map, take, drop, MatchOption};
ghost use Rattle.dts_resolver.specs.Endings.{from_last_dot, ending_of, stem_of, type_of};
ghost use Rattle.dts_resolver.specs.Rows.{row_of, columns_in, suffix_of, named_column};

use crate::extensions::Sort;
use crate::resolution::ModuleType;

/// The rows of the table of endings.
#[derive(Clone, Copy, PartialEq, Eq, Debug)]
pub enum Row {
    /// Of `.mjs`, `.mts` and `.d.mts`.
    Module,
    /// Of `.cjs`, `.cts` and `.d.cts`.
    CommonJs,
    /// Of `.tsx` and `.jsx`.
    Jsx,
    /// Of `.ts`, `.d.ts` and `.js`.
    Plain,
    /// Of any other ending.
    Other,
}

/// What a trial appends.
#[derive(Clone, Copy, PartialEq, Eq, Debug)]
pub(crate) enum Suffix<'e> {
    /// An ending that the table names.
    Named(&'e [u8]),
    /// Any other ending, which goes between `.d` and `.ts`.
    Declaring(&'e [u8]),
}

impl<'e> Suffix<'e> {
    // The texts that it is made of.
    pub(crate) fn parts(self) -> (&'e [u8], &'e [u8], &'e [u8])
        ensures in_order { result.0.now ++ (result.1.now ++ result.2.now) ≡ suffix_of self.entry }
    {
        match self {
            Suffix::Named(ending) => (b"", ending, b""),
            Suffix::Declaring(ending) => (b".d", ending, b".ts"),
        }
    }
}

// What the table has for the endings of each row, left to right: a sort of files, and the ending that it is tried with.
const MODULE: [(Sort, &[u8]); 3] = [
    (Sort::TypeScript, b".mts"),
    (Sort::Declaration, b".d.mts"),
    (Sort::JavaScript, b".mjs"),
];

const COMMON_JS: [(Sort, &[u8]); 3] = [
    (Sort::TypeScript, b".cts"),
    (Sort::Declaration, b".d.cts"),
    (Sort::JavaScript, b".cjs"),
];

const JSX: [(Sort, &[u8]); 5] = [
    (Sort::TypeScript, b".tsx"),
    (Sort::TypeScript, b".ts"),
    (Sort::Declaration, b".d.ts"),
    (Sort::JavaScript, b".jsx"),
    (Sort::JavaScript, b".js"),
];

pub(crate) const PLAIN: [(Sort, &[u8]); 5] = [
    (Sort::TypeScript, b".ts"),
    (Sort::TypeScript, b".tsx"),
    (Sort::Declaration, b".d.ts"),
    (Sort::JavaScript, b".js"),
    (Sort::JavaScript, b".jsx"),
];

impl Row {
    // The row of an ending.
    pub(crate) fn of(ending: &[u8]) -> Row
        ensures by_ending { result ≡ row_of ending.now }
    {
        // A `match` on byte strings was tried: it leaves a goal for each of some forty ways to differ from all of them, and
        // those do not close.
        if ending == b".mjs".as_slice()
            || ending == b".mts".as_slice()
            || ending == b".d.mts".as_slice()
        {
            return Row::Module;
        }
        if ending == b".cjs".as_slice()
            || ending == b".cts".as_slice()
            || ending == b".d.cts".as_slice()
        {
            return Row::CommonJs;
        }
        if ending == b".tsx".as_slice() || ending == b".jsx".as_slice() {
            return Row::Jsx;
        }
        if ending == b".ts".as_slice()
            || ending == b".d.ts".as_slice()
            || ending == b".js".as_slice()
        {
            return Row::Plain;
        }
        Row::Other
    }

    // The columns that the table names for a row; none for the row of other endings, whose one column has the ending
    // in it. No row has more than five.
    pub(crate) fn columns(self) -> Option<&'static [(Sort, &'static [u8])]>
        ensures in_order { MatchOption result (self ≡ Row.Other) (λ cs. (ending : List ℕ) → map named_column cs.now ≡ columns_in self ending) }
        ensures at_most_five { (ending : List ℕ) → length (columns_in self ending) ≤ 5 }
    {
        match self {
            Row::Module => Some(&MODULE),
            Row::CommonJs => Some(&COMMON_JS),
            Row::Jsx => Some(&JSX),
            Row::Plain => Some(&PLAIN),
            Row::Other => None,
        }
    }
}

// Where the ending of a path starts; its length where it has none.
pub(crate) fn ending_start(path: &[u8]) -> usize
    ensures ending_from_there { drop result path.now ≡ ending_of path.now }
    ensures stem_before { take result path.now ≡ stem_of path.now }
    ensures inside { result ≤ length path.now }
{
    if path.ends_with(b".d.ts") {
        return path.len() - 5;
    }
    if path.ends_with(b".d.mts") || path.ends_with(b".d.cts") {
        return path.len() - 6;
    }
    let dot = last_dot(path);
    // What follows the last dot counts if it has fewer than 10 bytes, the dot included.
    if path.len() - dot < 10 {
        dot
    } else {
        path.len()
    }
}

// Where the last dot of a path stands; its length where it has none.
fn last_dot(path: &[u8]) -> usize
    ensures from_the_dot_on { drop result path.now ≡ from_last_dot path.now }
    ensures inside { result ≤ length path.now }
{
    let mut last = path.len();
    for (i, b) in path.iter().enumerate() {
        if *b == b'.' {
            last = i;
        }
    }
    last
}

/// Tells the type of a module by the ending of its path: `.mts` is a module, `.cts` CommonJs, `.json` Json; others have no
/// type. A path may have any bytes.
pub fn module_type(path: &[u8]) -> Option<ModuleType>
    ensures by_ending { result ≡ type_of path.now }
{
    if path.ends_with(b".mts") {
        return Some(ModuleType::Module);
    }
    if path.ends_with(b".cts") {
        return Some(ModuleType::CommonJs);
    }
    if path.ends_with(b".json") {
        return Some(ModuleType::Json);
    }
    None
}
