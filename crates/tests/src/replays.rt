// Lists of calls, and what the laws say of equal lookups in them.
use crate::notes::Notes;
use crate::tape::Tape;
use dts_resolver::{Extensions, Lent, Step};
use file_system::FileSystem;
use list::Full;
use memo::Memo;
use replay::{Call, Lengths, Lookup, Observer, replay};
use std::alloc::AllocError;
use std::process::Abort;
use std::test::Fail;
use table::{Entry, Table};

// A list by a function without a contract: the tests need no facts of it.
fn carry_out<S: FileSystem, O: Observer>(
    store: &mut S,
    calls: &[Call<'_>],
    observer: &mut O,
) -> Result<(), O::Error> {
    let mut lent = Lent {
        path: &mut [0u8; 1024],
        work: &mut [0u8; 32768],
        steps: &mut [Step::default(); 16],
        bytes: &mut [0u8; 256],
    };
    replay(store, calls, &mut lent, observer)
}

// The lookup of `./floor` from `/rink/schedule.ts` under a mask, with so many bytes as its path buffer.
fn floor(mask: &Extensions, path: usize) -> Call<'_> {
    let lengths = Lengths {
        path,
        work: 32768,
        steps: 16,
        bytes: 256,
    };
    Call::LookUp(Lookup {
        containing: b"/rink/schedule.ts",
        specifier: b"./floor",
        mask,
        lengths,
    })
}

const AUGUST: &str =
    "/rink/floor.d.ts; /rink/floor.ts nothing; /rink/floor.tsx nothing; /rink/floor.d.ts file";

// The list, over a store with room for five entries and 69 bytes that holds `/` alone. What each call comes to:
fn list<'m>(look: Call<'m>, short: Call<'m>) -> [(Call<'m>, &'static str); 18] {
    [
        (Call::AddDirectory(b"/rink"), "done"),
        (Call::AddFile(b"/rink/floor.d.ts", b""), "done"),
        (look, AUGUST),
        // An added file that the lookup has no need of. Every reply is the same, so the answer and the trail are; and only
        // a file was added, which was not chosen, so the answer is.
        (Call::AddFile(b"/rink/floor.js", b""), "done"),
        (look, AUGUST),
        // An added `package.json`. Every reply is the same. That only files were added says nothing here.
        (Call::AddFile(b"/rink/package.json", b"{}"), "done"),
        (look, AUGUST),
        // Refused additions, of a file that is there, and for want of space: they change nothing.
        (Call::AddFile(b"/rink/floor.d.ts", b"new"), "conflict"),
        (Call::AddFile(b"/rink/floor.ts", b"0123456789"), "no-space"),
        (look, AUGUST),
        // An added file that is tried before. A reply differs; only a file was added, and it is chosen.
        (Call::AddFile(b"/rink/floor.ts", b""), "done"),
        (look, "/rink/floor.ts; /rink/floor.ts file"),
        // It is removed again. Every reply is that of the first lookup, so the answer and the trail are.
        (Call::Remove(b"/rink/floor.ts"), "done"),
        (look, AUGUST),
        // The chosen file is removed. A reply differs, and no law says anything.
        (Call::Remove(b"/rink/floor.d.ts"), "done"),
        (
            look,
            "/rink/floor.js; /rink/floor.ts nothing; /rink/floor.tsx nothing; /rink/floor.d.ts nothing; /rink/floor.js file",
        ),
        (Call::Remove(b"/rink"), "conflict"),
        // The same lookup with another memory is another lookup.
        (short, "short-memory"),
    ]
}

fn is_as_listed<S: FileSystem>(
    rt: &impl Abort,
    store: &mut S,
    notes: &mut Notes,
) -> Result<(), Fail> {
    let mask = Extensions::ALL;
    let listed = list(floor(&mask, 1024), floor(&mask, 1023));
    let mut calls = [listed[0].0; 18];
    let mut outcomes = [""; 18];
    for i in 0..18 {
        (calls[i], outcomes[i]) = listed[i];
    }
    let told: Result<(), AllocError> = carry_out(store, &calls, notes);
    told?;
    assert_eq!(rt; notes.texts.len(), 18);
    for (note, outcome) in notes.texts.iter().zip(outcomes.iter()) {
        assert!(rt; note.as_str() == *outcome, "{note}");
    }
    Ok(())
}

#[test]
fn over_a_table(rt: HostRuntime) -> Result<(), Fail> {
    let mut entries = [Entry::default(); 5];
    let mut bytes = [0u8; 69];
    let mut table = Table::new(&mut entries, &mut bytes);
    is_as_listed(&rt, &mut table, &mut Notes::new(rt.alloc()))
}

#[test]
fn over_a_memo_over_a_memo_over_a_table(rt: HostRuntime) -> Result<(), Fail> {
    let mut entries = [Entry::default(); 5];
    let mut bytes = [0u8; 69];
    let mut pile = Memo::new(Memo::new(Table::new(&mut entries, &mut bytes)));
    is_as_listed(&rt, &mut pile, &mut Notes::new(rt.alloc()))
}

// The observer has room for four marks: it fails at the fifth call, which is carried out, and the sixth is not.
#[test]
fn an_observer_that_fails_ends_the_list(rt: HostRuntime) -> Result<(), Fail> {
    let mask = Extensions::ALL;
    let look = floor(&mask, 1024);
    let calls = [
        Call::AddDirectory(b"/rink"),
        look,
        Call::AddFile(b"/rink/floor.ts", b""),
        look,
        Call::Remove(b"/rink/floor.ts"),
        Call::Remove(b"/rink"),
    ];
    let mut entries = [Entry::default(); 5];
    let mut bytes = [0u8; 69];
    let mut table = Table::new(&mut entries, &mut bytes);
    let mut marks = [9u8; 4];
    let mut tape = Tape::new(&mut marks);
    let told: Result<(), Full> = carry_out(&mut table, &calls, &mut tape);
    assert!(rt; told == Err(Full));
    assert!(rt; tape.marks() == [3u8, 0, 3, 1].as_slice());
    assert!(rt; kind(&mut table, b"/rink/floor.ts") == file_system::Kind::Nothing);
    assert!(rt; kind(&mut table, b"/rink") == file_system::Kind::Directory);
    Ok(())
}

fn kind<S: FileSystem>(store: &mut S, path: &[u8]) -> file_system::Kind {
    store.kind(path)
}
