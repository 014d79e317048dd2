// The lookup: its checks, its search, and its answer.
ghost use Rattle.std.specs.Prelude.{◌≡◌, ◌≤◌, true, ◌++◌, length, drop, is_some, IfSome, IfOk};
ghost use Rattle.search.specs.Asking.{store_of, along, Asked};
ghost use Rattle.search.specs.Course.{outcome_of, Searched};
ghost use Rattle.dts_resolver.specs.Specifier.{holds, unescaped};
ghost use Rattle.dts_resolver.specs.Checks.{part_checks, checks};
ghost use Rattle.dts_resolver.specs.Trials.{ended, trials};
ghost use Rattle.dts_resolver.specs.Steps.{search_of, looked_up};
ghost use Rattle.dts_resolver.specs.Laws.{UnlessFull, AsksWhatItNeeds, KeepsItsAnswer, MindsOnlyNewFiles};
ghost use Rattle.dts_resolver.specs.Answer.{given_by, buffer_after, path_told, length_told, type_at, Looked, Tells, Memory, SameMemory, count_told, outcome_told, RefusedByCheck, RestAsBefore, TellsParts};

use crate::checks::{check_given, check_part};
use crate::endings::module_type;
use crate::extensions::Extensions;
use crate::import::Import;
use crate::lent::Lent;
use crate::relative::{is_joined, search_joined};
use crate::resolution::{ModuleType, Refused, Resolution};
use crate::specifier::{Specifier, unescape};
use crate::{IMPORT_SIZE, WORK_SIZE};
use file_system::FileSystem;
use list::{List, front};
use search::{PATH_SIZE, Refusal, Searcher, Source};

/// Looks up which declaration file an import means.
///
/// It is refused by the first check that fails, with the lent memory as it was but for the work area, or where the search
/// first meets a reason; a refusal tells its number and the count of steps. Else the chosen path, the steps and their paths
/// fill the starts of their pieces of memory, and all behind them is as before. That holds over every store; which file is
/// chosen, the replies and the trail are as defined over a store that keeps its meaning.
pub fn lookup<'s, S: FileSystem>(
    store: &mut S,
    import: &Import<'_, 's>,
    lent: &mut Lent<'_>,
) -> Result<Resolution<'s>, Refused>
    ensures by_these_sizes { (PATH_SIZE ≡ 1024) × ((WORK_SIZE ≡ 32768) × (IMPORT_SIZE ≡ 512)) }
    ensures refused_by_a_check { IfSome (checks (given_by import.now lent.old)) (λ e. RefusedByCheck e result lent.old lent.new) }
    ensures rest_as_before { RestAsBefore result lent.old lent.new }
    ensures parts_of_the_specifier { IfOk result (TellsParts import.now.specifier.now lent.new.path.now) }
    ensures unasked_without_a_step { count_told result ≡ 0 → store.new ≡ store.old }
    ensures tells_the_answer { S.sound store.old → Tells (looked_up (S.tree store.old) (given_by import.now lent.old)) result }
    ensures fills_the_memory { S.sound store.old → Memory (S.tree store.old) (looked_up (S.tree store.old) (given_by import.now lent.old)) lent.old lent.new }
    ensures same_memory { SameMemory lent.old lent.new }
    ensures ends_as_its_trials { S.sound store.old → UnlessFull (outcome_told result lent.new.path.now) (ended (S.tree store.old) (trials (S.tree store.old) (given_by import.now lent.old))) }
    ensures asks_what_it_needs { AsksWhatItNeeds (S.tree store.old) (given_by import.now lent.old) }
    ensures same_replies_same_answer { KeepsItsAnswer (S.tree store.old) (given_by import.now lent.old) }
    ensures added_files_are_harmless { MindsOnlyNewFiles (S.tree store.old) (given_by import.now lent.old) }
    ensures same_tree { S.sound store.old → S.tree store.new ≡ S.tree store.old }
    ensures same_space { S.sound store.old → S.space store.new ≡ S.space store.old }
    ensures stays_sound { S.sound store.old → S.sound store.new }
{
    let directory = match check_given(import.containing, import.specifier, lent) {
        Ok(directory) => directory,
        Err(refusal) => return Err(Refused { refusal, count: 0 }),
    };
    let parsed = Specifier::parse(import.specifier);
    let mut steps = List::new(lent.steps);
    let mut bytes = List::new(lent.bytes);
    let mut searcher = Searcher {
        source: Source::new(store),
        steps: &mut steps,
        bytes: &mut bytes,
    };
    let found = look(
        &mut searcher,
        import.mask,
        directory,
        parsed.path,
        lent.path,
        lent.work,
    );
    let count = steps.len();
    match found {
        Ok(end) => Ok(answer(parsed, end, lent, count)),
        Err(refusal) => Err(Refused { refusal, count }),
    }
}

// The answer of a lookup that was not refused.
fn answer<'s>(
    parsed: Specifier<'s>,
    end: Option<usize>,
    lent: &Lent<'_>,
    count: usize,
) -> Resolution<'s>
    ensures same_length { result.path ≡ end }
    ensures same_query { result.query ≡ parsed.entry.query }
    ensures same_fragment { result.fragment ≡ parsed.entry.fragment }
    ensures type_of_the_choice { result.module_type ≡ type_at end lent.now.path.now }
    ensures same_count { result.count ≡ count }
{
    Resolution {
        path: end,
        query: parsed.query,
        fragment: parsed.fragment,
        module_type: type_at(end, lent.path),
        count,
    }
}

// The module type of a choice, which stands at the start of the path buffer.
fn type_at(end: Option<usize>, path: &[u8]) -> Option<ModuleType>
    ensures by_the_choice { result ≡ type_at end path.now }
{
    end.and_then(|end| module_type(front(path, end)))
}

// Checks and searches a path part, which the specifier has as `raw`. A chosen path is copied to the path buffer.
fn look<S: FileSystem>(
    searcher: &mut Searcher<S>,
    mask: Extensions,
    directory: &[u8],
    raw: &[u8],
    path: &mut [u8],
    work: &mut [u8],
) -> Result<Option<usize>, Refusal>
    requires { (PATH_SIZE ≤ length path.old) × ((WORK_SIZE ≤ length work.old) × (length raw.now ≤ IMPORT_SIZE)) }
    ensures searched { S.sound (store_of searcher.old) → Looked (S.tree (store_of searcher.old)) (along searcher.old) (along searcher.new) mask directory.now (unescaped raw.now) (outcome_of result path.new) }
    ensures refused_by_a_check { IfSome (part_checks (unescaped raw.now)) (λ e. (result ≡ Err e) × (along searcher.new ≡ along searcher.old)) }
    ensures fills_the_buffer { path.new ≡ buffer_after (outcome_of result path.new) path.old }
    ensures told_length { length_told result ≡ path_told (outcome_of result path.new) }
    ensures only_asked { Asked S.tree S.space S.sound searcher.old searcher.new }
{
    let (text, rest) = work.split_first_chunk_mut::<IMPORT_SIZE>().unwrap();
    let end = unescape(raw, text).unwrap();
    let part = front(text, end);
    check_part(part)?;
    let (joined, rest) = rest.split_first_chunk_mut().unwrap();
    let candidate = rest.first_chunk_mut().unwrap();
    let Some(end) = search_part(searcher, mask, directory, part, joined, candidate)? else {
        return Ok(None);
    };
    Ok(Some(fill(path, front(candidate, end))))
}

// The search of a path part. One that is not joined has no trials with a colon, and else names a package.
fn search_part<S: FileSystem>(
    searcher: &mut Searcher<S>,
    mask: Extensions,
    directory: &[u8],
    part: &[u8],
    joined: &mut [u8; PATH_SIZE],
    candidate: &mut [u8; PATH_SIZE],
) -> Result<Option<usize>, Refusal>
    ensures searched { Searched S.tree S.sound searcher.old searcher.new (search_of mask directory.now part.now) (outcome_of result candidate.new) }
    ensures only_asked { Asked S.tree S.space S.sound searcher.old searcher.new }
{
    if is_joined(part) {
        return search_joined(searcher, mask, directory, part, joined, candidate);
    }
    if has_colon(part) {
        return Ok(None);
    }
    Err(Refusal::Unfinished)
}

// Whether a path part has a colon.
fn has_colon(part: &[u8]) -> bool
    ensures somewhere { result ≡ holds 58 part.now }
{
    part.contains(&b':')
}

// Copies a chosen path to the start of the path buffer, and tells its length.
fn fill(path: &mut [u8], chosen: &[u8]) -> usize
    requires { length chosen.now ≤ length path.old }
    ensures told_length { result ≡ length chosen.now }
    ensures rest_as_before { path.new ≡ chosen.now ++ drop (length chosen.now) path.old }
{
    path[..chosen.len()].copy_from_slice(chosen);
    chosen.len()
}
