// How many questions a lookup puts to its store, over one that counts them: as many as it tells steps.
use crate::acts::{Act, carry_out};
use crate::counting::Counting;
use crate::looking::look_up;
use dts_resolver::{IMPORT_SIZE, Lent, PATH_SIZE, Step, WORK_SIZE};
use std::cell::Cell;
use std::process::Abort;
use table::{Entry, Table};

// What a lookup told: the number of a refusal, if it was refused, and the count of steps; and how many questions it put.
#[derive(Clone, Copy, PartialEq)]
struct Outcome {
    refusal: Option<u8>,
    count: usize,
    asked: usize,
}

// How much of each piece of memory a lookup is lent.
#[derive(Clone, Copy)]
struct Sizes {
    path: usize,
    work: usize,
    steps: usize,
    bytes: usize,
}

const AMPLE: Sizes = Sizes {
    path: PATH_SIZE,
    work: WORK_SIZE,
    steps: 16,
    bytes: 2048,
};

// Ample memory but for the trail, which has room for so many steps, and bytes of their paths.
fn trail_of(steps: usize, bytes: usize) -> Sizes {
    Sizes {
        steps,
        bytes,
        ..AMPLE
    }
}

// What a lookup comes to over a table with the file `/p/b.ts`.
fn looked_up(rt: &impl Abort, containing: &[u8], specifier: &[u8], sizes: &Sizes) -> Outcome {
    let mut entries = [Entry::default(); 2];
    let mut memory = [0u8; 16];
    let asked = Cell::new(0);
    let mut store = Counting::new(Table::new(&mut entries, &mut memory), &asked);
    let acts = [
        Act::Directory(b"/p", Ok(())),
        Act::File(b"/p/b.ts", b"", Ok(())),
    ];
    carry_out(rt, &mut store, &acts);
    let before = asked.get();
    let mut path = [0u8; PATH_SIZE];
    let mut work = [0u8; WORK_SIZE];
    let mut steps = [Step::default(); 16];
    let mut bytes = [0u8; 2048];
    assert!(rt; sizes.path <= PATH_SIZE && sizes.work <= WORK_SIZE && sizes.steps <= 16);
    assert!(rt; sizes.bytes <= 2048);
    let mut lent = Lent {
        path: &mut path[..sizes.path],
        work: &mut work[..sizes.work],
        steps: &mut steps[..sizes.steps],
        bytes: &mut bytes[..sizes.bytes],
    };
    let (refusal, count) = match look_up(&mut store, containing, specifier, &mut lent) {
        Ok(found) => (None, found.count),
        Err(refused) => (Some(refused.refusal.number()), refused.count),
    };
    Outcome {
        refusal,
        count,
        asked: asked.get().saturating_sub(before),
    }
}

// A lookup that told so many steps and put as many questions, refused or not.
fn same(refusal: Option<u8>, count: usize) -> Outcome {
    Outcome {
        refusal,
        count,
        asked: count,
    }
}

#[test]
fn answers_tell_as_many_steps_as_questions(rt: HostRuntime) {
    assert!(rt; looked_up(&rt, b"/p/a.ts", b"c:d", &AMPLE) == same(None, 0));
    assert!(rt; looked_up(&rt, b"/p/a.ts", b"./b", &AMPLE) == same(None, 1));
    assert!(rt; looked_up(&rt, b"/p/a.ts", b"/p/b", &AMPLE) == same(None, 1));
    assert!(rt; looked_up(&rt, b"/p/a.ts", b"/q", &AMPLE) == same(None, 6));
}

// The path `/p/c.ts` is tried first, and asked for once more when it might be a directory.
#[test]
fn a_known_question_is_put_once(rt: HostRuntime) {
    assert!(rt; looked_up(&rt, b"/p/a.ts", b"./c.ts", &AMPLE) == same(None, 10));
}

#[test]
fn refusals_by_a_check_ask_nothing(rt: HostRuntime) {
    let short_path = Sizes {
        path: PATH_SIZE - 1,
        ..AMPLE
    };
    let short_work = Sizes {
        work: WORK_SIZE - 1,
        ..AMPLE
    };
    assert!(rt; looked_up(&rt, b"/p/a.ts", b"./b", &short_path) == same(Some(1), 0));
    assert!(rt; looked_up(&rt, b"/p/a.ts", b"./b", &short_work) == same(Some(1), 0));
    assert!(rt; looked_up(&rt, b"p/a.ts", b"./b", &AMPLE) == same(Some(2), 0));
    assert!(rt; looked_up(&rt, b"/p/a.ts", b"./\xff", &AMPLE) == same(Some(3), 0));
    assert!(rt; looked_up(&rt, b"/p/a.ts", b"?q", &AMPLE) == same(Some(4), 0));
    assert!(rt; looked_up(&rt, b"/p/a.ts", b"/p/../p/b", &AMPLE) == same(Some(5), 0));
    assert!(rt; looked_up(&rt, b"/p/a.ts", b"#b", &AMPLE) == same(Some(6), 0));
}

#[test]
fn refusals_of_the_search_tell_as_many_steps_as_questions(rt: HostRuntime) {
    let two_steps = Sizes { steps: 2, ..AMPLE };
    assert!(rt; looked_up(&rt, b"/p/a.ts", b"m", &AMPLE) == same(Some(0), 0));
    assert!(rt; looked_up(&rt, b"/a.ts", b"./p", &AMPLE) == same(Some(0), 6));
    assert!(rt; looked_up(&rt, b"/p/a.ts", b"./c", &two_steps) == same(Some(8), 2));
}

#[test]
fn without_room_on_the_trail_the_store_is_not_asked(rt: HostRuntime) {
    assert!(rt; looked_up(&rt, b"/a.ts", b"./b", &trail_of(0, 64)) == same(Some(8), 0));
    assert!(rt; looked_up(&rt, b"/a.ts", b"./b", &trail_of(2, 64)) == same(Some(8), 2));
    assert!(rt; looked_up(&rt, b"/a.ts", b"./b", &trail_of(8, 4)) == same(Some(8), 0));
    assert!(rt; looked_up(&rt, b"/a.ts", b"./b", &trail_of(8, 5)) == same(Some(8), 1));
    assert!(rt; looked_up(&rt, b"/a.ts", b"./b", &trail_of(8, 64)) == same(None, 6));
}

// From a directory of 510 bytes to a path of 1,021: with `.ts` that is 1,024 and asked for, with `.tsx` one byte too many.
#[test]
fn a_path_that_grows_too_long_is_not_asked_for(rt: HostRuntime) {
    let mut containing = [b'a'; IMPORT_SIZE];
    containing[0] = b'/';
    containing[510] = b'/';
    let mut specifier = [b'a'; IMPORT_SIZE];
    specifier[0] = b'.';
    specifier[1] = b'/';
    assert!(rt; looked_up(&rt, &containing, &specifier, &AMPLE) == same(Some(7), 1));
}
