// Lines of a script, and what it may set up.
use script::{Command, Layers, Stage, layers, parse, read};
use std::alloc::{AllocError, Global};
use std::process::Abort;
use std::test::Fail;

// Why a line is no command where it stands; nothing where it is one.
fn fault(heap: Global, stage: Stage, line: &str) -> Result<String, AllocError> {
    match stage.parse(heap, line) {
        Ok(_) => Ok(String::new(heap)),
        Err(fault) => format!(in heap; "{fault}"),
    }
}

fn faults(rt: &impl Abort, heap: Global, lines: &[(Stage, &str, &str)]) -> Result<(), AllocError> {
    for (stage, line, message) in lines {
        let told = fault(heap, *stage, line)?;
        assert!(rt; told.as_str() == *message, "{line}: {told}");
    }
    Ok(())
}

#[test]
fn a_lookup_has_its_words(rt: HostRuntime) -> Result<(), Fail> {
    let Ok(
        Command::Lookup {
            containing,
            specifier,
            ..
        },
    ) = parse(rt.alloc(), "lookup /a.ts ./b%20c")
    else {
        return Err(Fail::new("no lookup"));
    };
    assert!(rt; containing.as_slice() == b"/a.ts".as_slice());
    assert!(rt; specifier.as_slice() == b"./b c".as_slice());
    Ok(())
}

#[test]
fn sizes_are_read(rt: HostRuntime) -> Result<(), Fail> {
    let Ok(Command::Table(sizes)) = parse(rt.alloc(), "table 16 16777216") else {
        return Err(Fail::new("no table"));
    };
    assert!(rt; sizes.entries == 16 && sizes.bytes == 16777216);
    Ok(())
}

#[test]
fn a_line_has_its_words_and_no_more(rt: HostRuntime) -> Result<(), Fail> {
    faults(
        &rt,
        rt.alloc(),
        &[
            (
                Stage::Later,
                "add-directory",
                "a word is missing: words are parted by one space, and no bytes are written -",
            ),
            (
                Stage::Later,
                "add-directory /a /b",
                "there is a word too many",
            ),
            (
                Stage::Later,
                "add-file /a %4",
                "a % without two hexadecimal digits after it",
            ),
            (Stage::Later, "remove /a", ""),
            (Stage::Later, "remove /a /b", "there is a word too many"),
            (Stage::Later, "delete /a", "there is no such command"),
        ],
    )?;
    Ok(())
}

#[test]
fn numbers_are_plain_and_bounded(rt: HostRuntime) -> Result<(), Fail> {
    faults(
        &rt,
        rt.alloc(),
        &[
            (Stage::Later, "lookup /a.ts - 4", ""),
            (
                Stage::Later,
                "lookup /a.ts - 8",
                "a mask is a digit from 0 to 7",
            ),
            (
                Stage::First,
                "table 16 16777217",
                "a size is at most 16777216",
            ),
            (
                Stage::First,
                "table 16 99999999999999999999",
                "a size is at most 16777216",
            ),
            (
                Stage::Later,
                "memory 1 2 3 +4",
                "a size is a plain decimal number",
            ),
        ],
    )?;
    Ok(())
}

#[test]
fn a_script_is_read_up_to_the_first_line_that_is_no_command(rt: HostRuntime) -> Result<(), Fail> {
    let script = read(
        rt.alloc(),
        "# two\nadd-directory /a\n\nremove /a\nmemo 1\nremove /a\n",
    )?;
    assert!(rt; script.lines.len() == 2);
    assert!(rt; script.wrong.is_some_and(|wrong| wrong.line == 5));
    let whole = read(rt.alloc(), "memo 1\nremove /a")?;
    assert!(rt; whole.lines.len() == 2);
    assert!(rt; whole.wrong.is_none());
    Ok(())
}

#[test]
fn set_up_comes_first(rt: HostRuntime) -> Result<(), Fail> {
    let asked = layers(rt.alloc(), "# sizes\ntable 2 3\n\nmemo 2\nmemory 1 2 3 4\n");
    assert!(rt; matches!(asked, Layers::Two));
    faults(
        &rt,
        rt.alloc(),
        &[
            (Stage::AfterTable, "memo 1", ""),
            (Stage::First, "memo 3", "there are 0, 1 or 2 layers"),
            (
                Stage::Later,
                "memo 1",
                "`memo` stands first, or right after `table`",
            ),
            (
                Stage::AfterTable,
                "table 2 3",
                "`table` stands before every other command",
            ),
        ],
    )?;
    Ok(())
}
