// Joining and parents.
use json_string::Decoder;
use path::{TooLong, join, join_text, parent};
use std::alloc::{AllocError, Global};
use std::process::Abort;

fn joins(rt: &impl Abort, directory: &[u8], subpath: &[u8], path: &[u8]) {
    let mut room = [0u8; 2000];
    assert_eq!(rt; join(directory, subpath, &mut room), Ok(Some(path.len())));
    assert!(rt; room.starts_with(path));
}

// The same of an entry, which stands in a manifest's text.
fn joins_entry(rt: &impl Abort, directory: &[u8], entry: &[u8], path: &[u8]) {
    let mut room = [0u8; 2000];
    assert_eq!(rt;
        join_text(directory, Decoder::new(entry), &mut room),
        Ok(Some(path.len()))
    );
    assert!(rt; room.starts_with(path));
}

fn names_nothing(rt: &impl Abort, directory: &[u8], subpath: &[u8]) {
    let mut room = [0u8; 8];
    assert_eq!(rt; join(directory, subpath, &mut room), Ok(None));
}

#[test]
fn pieces(rt: HostRuntime) {
    joins(&rt, b"/a", b"./x", b"/a/x");
    joins(&rt, b"/a", b"../../x", b"/x");
    joins(&rt, b"/", b"a//./b/", b"/a/b");
    joins(&rt, b"/a/b", b"..", b"/a");
    joins(&rt, b"/a", b"/b/c", b"/b/c");
}

#[test]
fn nothing(rt: HostRuntime) {
    names_nothing(&rt, b"/a", b"");
    names_nothing(&rt, b"/a", b"/a/../b");
    names_nothing(&rt, b"a", b"b");
}

#[test]
fn lengths(rt: HostRuntime) {
    let mut room = [0u8; 2000];
    assert_eq!(rt; join(b"/", &[b'a'; 1023], &mut room), Ok(Some(1024)));
    assert_eq!(rt; join(b"/", &[b'a'; 1024], &mut room), Err(TooLong));
    let mut small = [0u8; 4];
    assert_eq!(rt; join(b"/a", b"bc/..", &mut small), Err(TooLong));
}

// `a/../` three thousand times, and what stands behind it.
fn to_and_fro(heap: Global, end: &[u8]) -> Result<Vec<u8>, AllocError> {
    let mut text = Vec::new(heap);
    for _ in 0..3000u32 {
        text.extend_from_slice(b"a/../")?;
    }
    text.extend_from_slice(end)?;
    Ok(text)
}

#[test]
fn entries(rt: HostRuntime) -> Result<(), AllocError> {
    joins_entry(&rt, b"/p/d", b"\\u002e\\/li\\u0062\\/x", b"/p/d/lib/x");
    joins_entry(&rt, b"/p/d", b"\\/b\\/c", b"/b/c");
    joins_entry(
        &rt,
        b"/p/d",
        to_and_fro(rt.alloc(), b"x")?.as_slice(),
        b"/p/d/x",
    );
    let mut room = [0u8; 8];
    assert_eq!(rt; join_text(b"/p/d", Decoder::new(b""), &mut room), Ok(None));
    assert_eq!(rt;
        join_text(b"/p/d", Decoder::new(b"\\/b\\/..\\/c"), &mut room),
        Ok(None)
    );
    assert_eq!(rt;
        join_text(b"/p/d", Decoder::new(&[b'a'; 10000]), &mut room),
        Err(TooLong)
    );
    Ok(())
}

#[test]
fn parents(rt: HostRuntime) {
    assert!(rt; parent(b"/a/b") == Some(b"/a".as_slice()));
    assert!(rt; parent(b"/a") == Some(b"/".as_slice()));
    assert!(rt; parent(b"/").is_none());
    assert!(rt; parent(b"/a/").is_none());
}
