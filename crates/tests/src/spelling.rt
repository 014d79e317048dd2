// Words, read and written.
use std::alloc::{AllocError, Global};
use std::process::Abort;
use std::test::Fail;
use words::{Fault, read, write};

// The bytes of a word, by a function without a contract.
fn bytes(heap: Global, word: &[u8]) -> Result<Vec<u8>, Fault> {
    read(heap, word)
}

fn word(heap: Global, bytes: &[u8]) -> Result<String, AllocError> {
    write(heap, bytes)
}

#[test]
fn a_word_is_read(rt: HostRuntime) -> Result<(), Fail> {
    assert!(rt; bytes(rt.alloc(), b"/a%20b%c3%A9-")?.as_slice() == b"/a b\xc3\xa9-".as_slice());
    assert!(rt; bytes(rt.alloc(), b"-")?.is_empty());
    assert!(rt; bytes(rt.alloc(), b"%2D")?.as_slice() == b"-".as_slice());
    Ok(())
}

#[test]
fn what_is_no_word_is_refused(rt: HostRuntime) {
    assert!(rt; matches!(bytes(rt.alloc(), b""), Err(Fault::Empty)));
    assert!(rt; matches!(bytes(rt.alloc(), b"a%4"), Err(Fault::Escape)));
    assert!(rt; matches!(bytes(rt.alloc(), b"%4g"), Err(Fault::Escape)));
    assert!(rt; matches!(bytes(rt.alloc(), b"a b"), Err(Fault::Unescaped)));
}

#[test]
fn a_word_is_written(rt: HostRuntime) -> Result<(), Fail> {
    assert!(rt; word(rt.alloc(), b"/a b%\x7f\xff")?.as_str() == "/a%20b%25%7F%FF");
    assert!(rt; word(rt.alloc(), b"")?.as_str() == "-");
    assert!(rt; word(rt.alloc(), b"-")?.as_str() == "%2D");
    assert!(rt; word(rt.alloc(), b"--")?.as_str() == "--");
    Ok(())
}
