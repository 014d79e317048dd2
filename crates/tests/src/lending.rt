// A caller of the lookup that lends four slices of its own: what they hold afterwards is known to it again.
ghost use Rattle.std.specs.Prelude.{◌≡◌, ◌++◌, length, drop, take};
ghost use Rattle.search.specs.Search.{path_bytes};
ghost use Rattle.search.specs.Memory.{steps_from, bytes_told};
ghost use Rattle.dts_resolver.specs.Steps.{looked_up};
ghost use Rattle.dts_resolver.specs.Answer.{given_of, buffer_after, Tells, count_told, choice_told, or_zero};

use dts_resolver::{Import, Lent, Refused, Resolution, Step, lookup};
use file_system::FileSystem;

/// A lookup in four slices. Over a store that keeps its meaning they begin with the choice, the steps and the bytes of their
/// paths; over any store what is behind those is as before.
pub fn look_up_in<'s, S: FileSystem>(
    store: &mut S,
    import: &Import<'_, 's>,
    path: &mut [u8],
    work: &mut [u8],
    steps: &mut [Step],
    bytes: &mut [u8],
) -> Result<Resolution<'s>, Refused>
    ensures tells_the_answer { S.sound store.old → Tells (looked_up (S.tree store.old) (given_of import.now (length path.old) (length work.old) (length steps.old) (length bytes.old))) result }
    ensures path_buffer { S.sound store.old → path.new ≡ buffer_after (looked_up (S.tree store.old) (given_of import.now (length path.old) (length work.old) (length steps.old) (length bytes.old))).outcome path.old }
    ensures trail_steps { S.sound store.old → let r = looked_up (S.tree store.old) (given_of import.now (length path.old) (length work.old) (length steps.old) (length bytes.old)) in steps.new ≡ steps_from (S.tree store.old) 0 r.trail ++ drop (length r.trail) steps.old }
    ensures trail_bytes { S.sound store.old → let r = looked_up (S.tree store.old) (given_of import.now (length path.old) (length work.old) (length steps.old) (length bytes.old)) in bytes.new ≡ path_bytes r.trail ++ drop (length (path_bytes r.trail)) bytes.old }
    ensures path_behind { drop (or_zero (choice_told result)) path.new ≡ drop (or_zero (choice_told result)) path.old }
    ensures steps_behind { drop (count_told result) steps.new ≡ drop (count_told result) steps.old }
    ensures bytes_behind { drop (bytes_told (take (count_told result) steps.new)) bytes.new ≡ drop (bytes_told (take (count_told result) steps.new)) bytes.old }
{
    let mut lent = Lent {
        path,
        work,
        steps,
        bytes,
    };
    lookup(store, import, &mut lent)
}
