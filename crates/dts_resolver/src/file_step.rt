// The file step: the trials of a path under the endings of the table. It follows TypeScript's `loadModuleFromFile`.
ghost use Rattle.std.specs.Prelude.{◌≡◌, ◌<◌, [], ◌∷◌, ◌++◌, length, map, take, MatchResult};
ghost use Rattle.search.specs.Asking.{Asked};
ghost use Rattle.search.specs.Course.{course_of, Tried};
ghost use Rattle.dts_resolver.specs.Endings.{row_trials, ending_trials, file_trials};
ghost use Rattle.dts_resolver.specs.Rows.{suffix_of, column_of, named_column};

use crate::endings::{PLAIN, Row, Suffix, ending_start};
use crate::extensions::{Extensions, Sort};
use file_system::{FileSystem, Kind};
use list::{Full, List, after, front};
use search::{PATH_SIZE, Refusal, Searcher};

// The file step on a path; a chosen path stands at the start of the candidate bytes.
pub(crate) fn file_step<S: FileSystem>(
    searcher: &mut Searcher<S>,
    mask: Extensions,
    path: &[u8],
    candidate: &mut [u8; PATH_SIZE],
) -> Result<Option<usize>, Refusal>
    ensures tried { Tried S.tree S.sound searcher.old searcher.new (file_trials mask path.now) (course_of result candidate.new) }
    ensures only_asked { Asked S.tree S.space S.sound searcher.old searcher.new }
{
    let at = ending_start(path);
    if let Some(end) = try_ending(searcher, mask, front(path, at), after(path, at), candidate)? {
        return Ok(Some(end));
    }
    try_row(searcher, mask, path, &PLAIN, candidate)
}

// The row of an ending that is there, on the stem.
fn try_ending<S: FileSystem>(
    searcher: &mut Searcher<S>,
    mask: Extensions,
    stem: &[u8],
    ending: &[u8],
    candidate: &mut [u8; PATH_SIZE],
) -> Result<Option<usize>, Refusal>
    ensures tried { Tried S.tree S.sound searcher.old searcher.new (ending_trials mask stem.now ending.now) (course_of result candidate.new) }
    ensures only_asked { Asked S.tree S.space S.sound searcher.old searcher.new }
{
    if ending.is_empty() {
        return Ok(None);
    }
    match Row::of(ending).columns() {
        Some(row) => try_row(searcher, mask, stem, row, candidate),
        None => try_column(
            searcher,
            mask,
            stem,
            Sort::Declaration,
            Suffix::Declaring(ending),
            candidate,
        ),
    }
}

// The columns of a row that the table names on a stem, left to right.
fn try_row<S: FileSystem>(
    searcher: &mut Searcher<S>,
    mask: Extensions,
    stem: &[u8],
    row: &[(Sort, &[u8])],
    candidate: &mut [u8; PATH_SIZE],
) -> Result<Option<usize>, Refusal>
    ensures tried { Tried S.tree S.sound searcher.old searcher.new (row_trials mask stem.now (map named_column row.now)) (course_of result candidate.new) }
    ensures only_asked { Asked S.tree S.space S.sound searcher.old searcher.new }
{
    for (sort, ending) in row {
        if let Some(end) = try_column(
            searcher,
            mask,
            stem,
            *sort,
            Suffix::Named(ending),
            candidate,
        )? {
            return Ok(Some(end));
        }
    }
    Ok(None)
}

// One column of a row, if the mask allows it.
fn try_column<S: FileSystem>(
    searcher: &mut Searcher<S>,
    mask: Extensions,
    stem: &[u8],
    sort: Sort,
    suffix: Suffix,
    candidate: &mut [u8; PATH_SIZE],
) -> Result<Option<usize>, Refusal>
    ensures tried { Tried S.tree S.sound searcher.old searcher.new (row_trials mask stem.now (column_of sort suffix.entry ∷ [])) (course_of result candidate.new) }
    ensures only_asked { Asked S.tree S.space S.sound searcher.old searcher.new }
{
    if !mask.contains(Extensions::from(sort)) {
        return Ok(None);
    }
    try_file(searcher, stem, suffix, candidate)
}

// One trial: the stem with a suffix is chosen if it is a file.
fn try_file<S: FileSystem>(
    searcher: &mut Searcher<S>,
    stem: &[u8],
    suffix: Suffix,
    candidate: &mut [u8; PATH_SIZE],
) -> Result<Option<usize>, Refusal>
    ensures tried { Tried S.tree S.sound searcher.old searcher.new ((stem.now ++ suffix_of suffix.entry) ∷ []) (course_of result candidate.new) }
    ensures only_asked { Asked S.tree S.space S.sound searcher.old searcher.new }
{
    let end = assemble(candidate, stem, suffix)?;
    match searcher.ask_kind(front(candidate, end))? {
        Kind::File => Ok(Some(end)),
        _ => Ok(None),
    }
}

// Writes the stem with a suffix to the start of the lent bytes, and tells its length.
fn assemble(into: &mut [u8], stem: &[u8], suffix: Suffix) -> Result<usize, Full>
    ensures stem_and_suffix { MatchResult result (λ n. take n into.new ≡ stem.now ++ suffix_of suffix.entry) (λ _. length into.old < length (stem.now ++ suffix_of suffix.entry)) }
{
    let (head, ending, tail) = suffix.parts();
    let mut path = List::new(into);
    path.append(stem)?;
    path.append(head)?;
    path.append(ending)?;
    path.append(tail)?;
    Ok(path.len())
}
