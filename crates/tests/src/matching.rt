// Patterns with a star, entries, targets that are filled, names, and copies of decoded bytes.
use json_string::{Decoder, copy_decoded};
use patterns::{TooLong, fill_target, match_pattern, names_specifier, without_dot_slash};
use std::process::Abort;
use text::{Bytes, Ended, Plain};

// The part that the star stands for, as it is filled in, by functions without a contract.
fn part(pattern: &[u8], text: &[u8], into: &mut [u8]) -> Option<usize> {
    let found = match_pattern(pattern, Ended::new(Plain::new(text)))?;
    fill_target(b"*", found, into).ok()
}

// The same of an entry, which stands in a manifest's text.
fn part_of_entry(pattern: &[u8], entry: &[u8], into: &mut [u8]) -> Option<usize> {
    let found = match_pattern(pattern, without_dot_slash(Ended::new(Decoder::new(entry))))?;
    fill_target(b"*", found, into).ok()
}

// How many bytes the part has that the star stands for.
fn part_len(pattern: &[u8], entry: &[u8]) -> Option<usize> {
    Some(match_pattern(pattern, without_dot_slash(Ended::new(Decoder::new(entry))))?.bytes_left())
}

// The path that a target leads to from a directory, filled with what the pattern matches of the entry.
fn leads_to(pattern: &[u8], target: &[u8], entry: &[u8], into: &mut [u8]) -> Option<usize> {
    let mut room = [0u8; 1024];
    let found = match_pattern(pattern, without_dot_slash(Ended::new(Decoder::new(entry))))?;
    let size = fill_target(target, found, &mut room).ok()?;
    let filled = room.get(..size)?;
    path::join(b"/p/d", filled, into).ok()?
}

fn fill(target: &[u8], matched: &[u8], into: &mut [u8]) -> Result<usize, TooLong> {
    fill_target(target, Plain::new(matched), into)
}

fn copy(text: &[u8], from: usize, count: usize, into: &mut [u8]) -> usize {
    copy_decoded(text, from, count, into)
}

fn names(name: &[u8], part: &[u8]) -> bool {
    names_specifier(name, part)
}

fn matches_by(rt: &impl Abort, pattern: &[u8], text: &[u8], matched: &[u8]) {
    let mut into = [0u8; 100];
    assert_eq!(rt; part(pattern, text, &mut into), Some(matched.len()));
    assert!(rt; into.starts_with(matched));
}

fn matches_not(rt: &impl Abort, pattern: &[u8], text: &[u8]) {
    let mut into = [0u8; 100];
    assert!(rt; part(pattern, text, &mut into).is_none());
}

fn entry_matches_by(rt: &impl Abort, pattern: &[u8], entry: &[u8], matched: &[u8]) {
    let mut into = [0u8; 100];
    assert_eq!(rt;
        part_of_entry(pattern, entry, &mut into),
        Some(matched.len())
    );
    assert!(rt; into.starts_with(matched));
}

#[test]
fn the_first_star_splits_a_pattern(rt: HostRuntime) {
    matches_by(&rt, b"a*b*", b"a1b*", b"1");
    matches_by(&rt, b"a\\u002ab*", b"a1b*", b"1");
    matches_not(&rt, b"a*b*", b"a1b2");
    let mut into = *b"....";
    assert!(rt; fill(b"*/*", b"1", &mut into) == Ok(3));
    assert!(rt; into.as_slice() == b"1/1.".as_slice());
}

#[test]
fn a_pattern_without_a_star_matches_itself(rt: HostRuntime) {
    matches_by(&rt, b"lib\\/a", b"lib/a", b"");
    matches_not(&rt, b"lib/a", b"lib/ab");
    matches_not(&rt, b"lib/a", b"lib/");
}

#[test]
fn prefix_and_suffix_do_not_overlap(rt: HostRuntime) {
    matches_by(&rt, b"ab*ba", b"abba", b"");
    matches_not(&rt, b"ab*ba", b"aba");
}

#[test]
fn one_dot_slash_is_taken_off_an_entry(rt: HostRuntime) {
    entry_matches_by(&rt, b"*", b"./index.js", b"index.js");
    entry_matches_by(&rt, b"*", b"\\u002e\\/index.js", b"index.js");
    entry_matches_by(&rt, b"*", b"././index.js", b"./index.js");
    entry_matches_by(&rt, b"*", b".index.js", b".index.js");
    entry_matches_by(&rt, b"*", b"../index.js", b"../index.js");
    entry_matches_by(&rt, b"*", b"./", b"");
}

#[test]
fn an_entry_of_ten_thousand_bytes_is_matched(rt: HostRuntime) {
    let entry = [b'a'; 10000];
    let mut into = [0u8; 1024];
    assert_eq!(rt; part_len(b"a*", &entry), Some(9999));
    assert_eq!(rt; leads_to(b"a*", b"x.d.ts", &entry, &mut into), Some(11));
    assert!(rt; into.starts_with(b"/p/d/x.d.ts"));
    assert_eq!(rt; part_len(b"b*", &entry), None);
    assert_eq!(rt; part_len(b"*a", &entry), Some(9999));
    assert_eq!(rt; part_len(b"*b", &entry), None);
    let mut pattern = [b'a'; 300];
    pattern[0] = b'*';
    assert_eq!(rt; part_len(&pattern, &entry), Some(9701));
    pattern[1] = b'b';
    assert_eq!(rt; part_len(&pattern, &entry), None);
    assert_eq!(rt; leads_to(b"*a", b"x", &entry, &mut into), Some(6));
    assert!(rt; into.starts_with(b"/p/d/x"));
}

#[test]
fn a_name_begins_a_specifier(rt: HostRuntime) {
    assert!(rt; names(b"m", b"m"));
    assert!(rt; names(b"\\u006d", b"m/a"));
    assert!(rt; names(b"m", b"m\\a"));
    assert!(rt; names(b"", b"\\a"));
    assert!(rt; names(b"@s/m", b"@s/m/a"));
    assert!(rt; !names(b"m", b"ma"));
    assert!(rt; !names(b"m/a", b"m"));
    assert!(rt; !names(b"", b"a"));
}

#[test]
fn a_filled_target_has_at_most_1024_bytes(rt: HostRuntime) {
    let matched = [b'a'; 1022];
    let mut into = [b'.'; 1030];
    assert!(rt; fill(b"b*cd", &matched, &mut into) == Err(TooLong));
    assert!(rt; into.iter().all(|byte| *byte == b'.'));
    assert!(rt; fill(b"b*c", &matched, &mut into) == Ok(1024));
    assert!(rt; into.starts_with(b"ba"));
    assert!(rt; into.ends_with(b"ac......"));
}

#[test]
fn a_filled_target_needs_room(rt: HostRuntime) {
    let mut into = *b"..";
    assert!(rt; fill(b"*/*", b"1", &mut into) == Err(TooLong));
    assert!(rt; into.as_slice() == b"..".as_slice());
}

#[test]
fn a_middle_part_is_copied(rt: HostRuntime) {
    // The decoded bytes are `a`, two of `é`, a line feed and `b`.
    let text = b"a\\u00e9\\nb";
    let mut into = *b"...";
    assert!(rt; copy(text, 2, 2, &mut into) == 2);
    assert!(rt; into.as_slice() == b"\xa9\n.".as_slice());
    let mut into = *b"..";
    assert!(rt; copy(text, 1, 4, &mut into) == 2);
    assert!(rt; into.as_slice() == b"\xc3\xa9".as_slice());
}
