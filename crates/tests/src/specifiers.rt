// Specifiers and masks.
use dts_resolver::{Extensions, Specifier};
use std::process::Abort;

fn splits(rt: &impl Abort, specifier: &[u8], path: &[u8], query: &[u8], fragment: &[u8]) {
    let parts = Specifier::parse(specifier);
    assert!(rt; parts.path == path);
    assert!(rt; parts.query.unwrap_or(b"") == query);
    assert!(rt; parts.fragment.unwrap_or(b"") == fragment);
}

#[test]
fn parts(rt: HostRuntime) {
    splits(&rt, b"a?q#f", b"a", b"?q", b"#f");
    splits(&rt, b".#x", b".", b"", b"#x");
    splits(&rt, b"?q", b"", b"?q", b"");
    splits(&rt, b"a#f?q", b"a", b"", b"#f?q");
    splits(&rt, b"#x", b"#x", b"", b"");
    splits(&rt, b"a\0#b", b"a\0#b", b"", b"");
}

#[test]
fn masks(rt: HostRuntime) {
    assert!(rt; Extensions::from_byte(7) == Some(Extensions::ALL));
    assert!(rt; Extensions::from_byte(8).is_none());
}
