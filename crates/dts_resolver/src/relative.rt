// The search of a path part that begins with `.` or `/`: it is joined to the containing directory.
ghost use Rattle.std.specs.Prelude.{◌≡◌};
ghost use Rattle.path.specs.Path.{joining};
ghost use Rattle.search.specs.Search.{none_left};
ghost use Rattle.search.specs.Asking.{Asked};
ghost use Rattle.search.specs.Course.{outcome_of, Searched};
ghost use Rattle.dts_resolver.specs.Checks.{is_joined};
ghost use Rattle.dts_resolver.specs.Steps.{on, file_step, directory_step};

use crate::extensions::Extensions;
use crate::file_step::file_step;
use file_system::{FileSystem, Kind};
use list::front;
use path::join;
use search::{PATH_SIZE, Refusal, Searcher};

// Whether a path part is joined to the containing directory.
pub(crate) fn is_joined(part: &[u8]) -> bool
    ensures dot_or_slash { result ≡ is_joined part.now }
{
    matches!(part, [b'.' | b'/', ..])
}

// The search of a path part that is joined to a directory.
pub(crate) fn search_joined<S: FileSystem>(
    searcher: &mut Searcher<S>,
    mask: Extensions,
    directory: &[u8],
    part: &[u8],
    joined: &mut [u8; PATH_SIZE],
    candidate: &mut [u8; PATH_SIZE],
) -> Result<Option<usize>, Refusal>
    ensures searched { Searched S.tree S.sound searcher.old searcher.new (on (joining PATH_SIZE directory.now part.now) (λ p. file_step mask p (directory_step p none_left)) none_left) (outcome_of result candidate.new) }
    ensures only_asked { Asked S.tree S.space S.sound searcher.old searcher.new }
{
    let Some(end) = join(directory, part, joined)? else {
        return Ok(None);
    };
    search_path(searcher, mask, front(joined, end), candidate)
}

// The file step on a joined path. A directory there wants the directory step, which is still to come.
fn search_path<S: FileSystem>(
    searcher: &mut Searcher<S>,
    mask: Extensions,
    path: &[u8],
    candidate: &mut [u8; PATH_SIZE],
) -> Result<Option<usize>, Refusal>
    ensures searched { Searched S.tree S.sound searcher.old searcher.new (file_step mask path.now (directory_step path.now none_left)) (outcome_of result candidate.new) }
    ensures only_asked { Asked S.tree S.space S.sound searcher.old searcher.new }
{
    if let Some(end) = file_step(searcher, mask, path, candidate)? {
        return Ok(Some(end));
    }
    match searcher.ask_kind(path)? {
        Kind::Directory => Err(Refusal::Unfinished),
        _ => Ok(None),
    }
}
