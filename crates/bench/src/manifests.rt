//! How long a manifest is read, and how long the walks over its version paths take, at 4, 8 and 16 KB. Each text is made so that one walk
//! is as long as it can be.
use json_text::{is_repeated, member_value, read_text};
use package_json::{first_pattern, first_target, next_pattern, next_target, version_range};
use std::alloc::{AllocError, Global};
use std::time::Instant;

/// Measures each walk in a text of so many bytes, as often as is asked for, or once and without a time.
pub fn measure(rt: &HostRuntime, size: usize, rounds: Option<usize>) -> anyhow::Result<()> {
    let heap = rt.alloc();
    println!(rt; "manifest of {size} bytes")?;
    let fields = text_of_fields(heap, size)?;
    time(rt, "reading it", Walk::Reading, fields.as_str(), rounds)?;
    let targets = text_of_targets(heap, size)?;
    time(
        rt,
        "targets of one pattern, its name half of it",
        Walk::Targets,
        targets.as_str(),
        rounds,
    )?;
    let patterns = text_of_patterns(heap, size)?;
    time(rt, "patterns", Walk::Patterns, patterns.as_str(), rounds)?;
    time(
        rt,
        "patterns, each asked whether its name stood before",
        Walk::Counting,
        patterns.as_str(),
        rounds,
    )?;
    let repeated = text_of_repeated(heap, size)?;
    time(
        rt,
        "the range, half of it patterns of one name that does not count",
        Walk::Range,
        repeated.as_str(),
        rounds,
    )
}

// A walk over a text, which tells how many places it found.
#[derive(Clone, Copy)]
enum Walk {
    Reading,
    Targets,
    Patterns,
    Counting,
    Range,
}

impl Walk {
    fn go(self, text: &[u8]) -> usize {
        match self {
            Walk::Reading => usize::from(read_text(text).is_ok()),
            Walk::Targets => count_targets(text),
            Walk::Patterns => count_patterns(text, false),
            Walk::Counting => count_patterns(text, true),
            Walk::Range => usize::from(version_range(text, 0).is_some()),
        }
    }
}

fn time(
    rt: &HostRuntime,
    name: &str,
    walk: Walk,
    text: &str,
    rounds: Option<usize>,
) -> anyhow::Result<()> {
    let bytes = text.as_bytes();
    let count = rounds.unwrap_or(1);
    let start = Instant::now(rt)?;
    let mut found = 0usize;
    for _ in 0..count {
        found = walk.go(bytes);
    }
    let nanoseconds = start.elapsed(rt)?.as_nanos();
    println!(rt; "  {name}: {} bytes, {found} found", bytes.len())?;
    if rounds.is_some() {
        let each = nanoseconds.checked_div(count as u128).unwrap_or(0);
        println!(rt; "    {each} ns")?;
    }
    Ok(())
}

fn count_targets(text: &[u8]) -> usize {
    let mut count = 0usize;
    let pattern = version_range(text, 0).and_then(|range| first_pattern(text, range));
    let Some(value) = pattern.and_then(|place| member_value(text, place)) else {
        return count;
    };
    let mut next = first_target(text, value);
    for _ in text {
        let Some(target) = next else {
            break;
        };
        count = count.saturating_add(1);
        next = next_target(text, value, target);
    }
    count
}

// The patterns, or those whose name did not stand before.
fn count_patterns(text: &[u8], asked: bool) -> usize {
    let mut count = 0usize;
    let Some(range) = version_range(text, 0) else {
        return count;
    };
    let mut next = first_pattern(text, range);
    for _ in text {
        let Some(pattern) = next else {
            break;
        };
        if !(asked && is_repeated(text, range, pattern)) {
            count = count.saturating_add(1);
        }
        next = next_pattern(text, pattern);
    }
    count
}

// A manifest with fields of every kind, as long as it may be.
fn text_of_fields(heap: Global, size: usize) -> Result<String, AllocError> {
    let mut text = String::from_str(heap, "{")?;
    for number in 0..size {
        if text.len().saturating_add(200) > size {
            break;
        }
        let field = format!(in heap;
            "\n  \"field-{number}\": {{\n    \"types\": \"./dist/{number}.d.ts\",\n    \"files\": [\"a\", \"b\"],\n    \"size\": {number}.5e3,\n    \"open\": true,\n    \"none\": null\n  }},"
        )?;
        text.push_str(field.as_str())?;
    }
    text.push_str("\"last\":\"\"}")?;
    Ok(text)
}

// One pattern whose name is half of the text, and as many empty targets as fit.
fn text_of_targets(heap: Global, size: usize) -> Result<String, AllocError> {
    let mut text = String::from_str(heap, "{\"typesVersions\":{\"*\":{\"")?;
    for _ in 0..size / 2 {
        text.push_str("a")?;
    }
    text.push_str("\":[\"\"")?;
    for _ in 0..size {
        if text.len().saturating_add(7) > size {
            break;
        }
        text.push_str(",\"\"")?;
    }
    text.push_str("]}}}")?;
    Ok(text)
}

// As many patterns as fit, with different names.
fn text_of_patterns(heap: Global, size: usize) -> Result<String, AllocError> {
    let mut text = String::from_str(heap, "{\"typesVersions\":{\"*\":{\"\":[]")?;
    for number in 0..size {
        if text.len().saturating_add(13) > size {
            break;
        }
        let pattern = format!(in heap; ",\"{number:x}\":[]")?;
        text.push_str(pattern.as_str())?;
    }
    text.push_str("}}}")?;
    Ok(text)
}

// In the first half of the text other members and one that gives no pattern; behind them as many of its name as fit.
fn text_of_repeated(heap: Global, size: usize) -> Result<String, AllocError> {
    let mut text = String::from_str(heap, "{\"typesVersions\":{\"*\":{\"\":0")?;
    for number in 0..size {
        if text.len().saturating_add(10) > size / 2 {
            break;
        }
        let member = format!(in heap; ",\"{number:x}\":0")?;
        text.push_str(member.as_str())?;
    }
    text.push_str(",\"*\":0")?;
    for _ in 0..size {
        if text.len().saturating_add(10) > size {
            break;
        }
        text.push_str(",\"*\":[]")?;
    }
    text.push_str("}}}")?;
    Ok(text)
}
