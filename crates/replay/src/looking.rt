// A lookup of a list, in the part of the lent memory that it is lent.
ghost use Rattle.std.specs.Prelude.{◌≡◌, length};
ghost use Rattle.replay.specs.Requests.{request, sizes, sizes_of, given_of};
ghost use Rattle.replay.specs.Memory.{contents, contents_of};
ghost use Rattle.replay.specs.Replay.{CarriedOut, LookedUp};

use crate::call::{Call, Lookup};
use crate::observer::Observer;
use dts_resolver::{Import, Lent, Step, lookup};
use file_system::FileSystem;

// Carries a lookup out. The pieces of the memory are handed on one by one, since a slice that is handed on is known to
// keep its length.
pub(crate) fn look_up<S: FileSystem, O: Observer>(
    store: &mut S,
    asked: &Lookup<'_>,
    lent: &mut Lent<'_>,
    observer: &mut O,
) -> Result<(), O::Error>
    ensures told_of_it { CarriedOut S.sound S.tree S.space (O.told observer.old) (O.told observer.new) result (request (sizes_of lent.old) (Call.LookUp asked.now)) store.old store.new (contents_of lent.old) (contents_of lent.new) }
    ensures stays_sound { S.sound store.old → S.sound store.new }
    ensures own_path { lent.new.path.ghost_name ≡ lent.old.path.ghost_name }
    ensures own_work { lent.new.work.ghost_name ≡ lent.old.work.ghost_name }
    ensures own_steps { lent.new.steps.ghost_name ≡ lent.old.steps.ghost_name }
    ensures own_bytes { lent.new.bytes.ghost_name ≡ lent.old.bytes.ghost_name }
    ensures same_lengths { sizes_of lent.new ≡ sizes_of lent.old }
{
    look_up_in_part(
        store, asked, lent.path, lent.work, lent.steps, lent.bytes, observer,
    )
}

// Carries a lookup out in the part of the memory that it is lent.
fn look_up_in_part<S: FileSystem, O: Observer>(
    store: &mut S,
    asked: &Lookup<'_>,
    path: &mut [u8],
    work: &mut [u8],
    steps: &mut [Step],
    bytes: &mut [u8],
    observer: &mut O,
) -> Result<(), O::Error>
    ensures told_of_it { CarriedOut S.sound S.tree S.space (O.told observer.old) (O.told observer.new) result (request (sizes (length path.old) (length work.old) (length steps.old) (length bytes.old)) (Call.LookUp asked.now)) store.old store.new (contents path.old work.old steps.old bytes.old) (contents path.new work.new steps.new bytes.new) }
    ensures stays_sound { S.sound store.old → S.sound store.new }
{
    let lengths = asked.lengths;
    let path_end = lengths.path.min(path.len());
    let work_end = lengths.work.min(work.len());
    let steps_end = lengths.steps.min(steps.len());
    let bytes_end = lengths.bytes.min(bytes.len());
    look_up_in_all(
        store,
        asked,
        &mut path[..path_end],
        &mut work[..work_end],
        &mut steps[..steps_end],
        &mut bytes[..bytes_end],
        observer,
    )
}

// Carries a lookup out in all of the memory. The struct is made here, of whole pieces: of parts of them that are lent in a
// struct it is not known what they hold when they come back.
fn look_up_in_all<S: FileSystem, O: Observer>(
    store: &mut S,
    asked: &Lookup<'_>,
    path: &mut [u8],
    work: &mut [u8],
    steps: &mut [Step],
    bytes: &mut [u8],
    observer: &mut O,
) -> Result<(), O::Error>
    ensures told_of_it { LookedUp S.sound S.tree S.space (O.told observer.old) (O.told observer.new) result (given_of (sizes (length path.old) (length work.old) (length steps.old) (length bytes.old)) asked.now) store.old store.new (contents path.old work.old steps.old bytes.old) (contents path.new work.new steps.new bytes.new) }
    ensures stays_sound { S.sound store.old → S.sound store.new }
{
    let mut lent = Lent {
        path,
        work,
        steps,
        bytes,
    };
    look_up_in(store, asked, &mut lent, observer)
}

// Carries a lookup out.
fn look_up_in<S: FileSystem, O: Observer>(
    store: &mut S,
    asked: &Lookup<'_>,
    lent: &mut Lent<'_>,
    observer: &mut O,
) -> Result<(), O::Error>
    ensures told_of_it { LookedUp S.sound S.tree S.space (O.told observer.old) (O.told observer.new) result (given_of (sizes_of lent.old) asked.now) store.old store.new (contents_of lent.old) (contents_of lent.new) }
    ensures stays_sound { S.sound store.old → S.sound store.new }
    ensures own_path { lent.new.path.ghost_name ≡ lent.old.path.ghost_name }
    ensures own_work { lent.new.work.ghost_name ≡ lent.old.work.ghost_name }
    ensures own_steps { lent.new.steps.ghost_name ≡ lent.old.steps.ghost_name }
    ensures own_bytes { lent.new.bytes.ghost_name ≡ lent.old.bytes.ghost_name }
    ensures same_lengths { sizes_of lent.new ≡ sizes_of lent.old }
{
    let import = Import {
        containing: asked.containing,
        specifier: asked.specifier,
        mask: *asked.mask,
    };
    let answer = lookup(store, &import, lent);
    observer.looked_up(asked, &answer, lent)
}
