//! What the program prints of a text: the place of its fault, or the fields that it has as a manifest.
use anyhow::Context;
use json_text::{chars_at, is_repeated, member_value};
use package_json::{
    Exports, Field, exports_field, first_pattern, first_target, next_pattern, next_target,
    string_field, version_range,
};
use std::alloc::Global;
use std::fmt::Write;

// A string stands at each place that is told, and a value behind each pattern's name, so that this error never comes; no
// contract of this program says so.
const NOT_THERE: &str = "nothing stands at a place that was told";

/// The lines of a text.
pub fn text(heap: Global, bytes: &[u8]) -> anyhow::Result<String> {
    match json_text::read_text(bytes) {
        Err(fault) => Ok(format!(in heap; "fault {}\n", fault.place)?),
        Ok(root) => fields(heap, bytes, root),
    }
}

// The lines of a manifest whose value stands at `root`.
fn fields(heap: Global, text: &[u8], root: usize) -> anyhow::Result<String> {
    let mut lines = String::from_str(heap, "manifest\n")?;
    for field in Field::ALL {
        if let Some(place) = string_field(text, root, field) {
            let word = word_at(heap, text, place)?;
            writeln!(lines, "  {} {word}", field.name())?;
        }
    }
    match exports_field(text, root) {
        None => {}
        Some(Exports::Plain(place)) => {
            writeln!(lines, "  exports plain {}", word_at(heap, text, place)?)?;
        }
        Some(Exports::Other) => lines.push_str("  exports other\n")?,
    }
    if let Some(range) = version_range(text, root) {
        add_patterns(&mut lines, heap, text, range)?;
    }
    Ok(lines)
}

fn add_patterns(lines: &mut String, heap: Global, text: &[u8], range: usize) -> anyhow::Result<()> {
    let mut next = first_pattern(text, range);
    while let Some(pattern) = next {
        if !is_repeated(text, range, pattern) {
            writeln!(lines, "  pattern {}", word_at(heap, text, pattern)?)?;
            add_targets(lines, heap, text, pattern)?;
        }
        next = next_pattern(text, pattern);
    }
    Ok(())
}

fn add_targets(
    lines: &mut String,
    heap: Global,
    text: &[u8],
    pattern: usize,
) -> anyhow::Result<()> {
    let value = member_value(text, pattern).context(NOT_THERE)?;
    let mut next = first_target(text, value);
    while let Some(target) = next {
        writeln!(lines, "    target {}", word_at(heap, text, target)?)?;
        next = next_target(text, value, target);
    }
    Ok(())
}

// The word of the string that stands at a place.
fn word_at(heap: Global, text: &[u8], place: usize) -> anyhow::Result<String> {
    let chars = chars_at(text, place).context(NOT_THERE)?;
    let mut bytes = vec![in heap; 0u8; json_string::decoded_len(chars)]?;
    let count = bytes.len();
    json_string::copy_decoded(chars, 0, count, bytes.as_mut_slice());
    Ok(words::write(heap, bytes.as_slice())?)
}
