// The parts of a specifier.
ghost use Rattle.std.specs.Prelude.{◌≡◌, ◌<◌, ◌≤◌, ◌&&◌, ◌++◌, length, drop, IfOk, MatchResult};
ghost use Rattle.std.specs.Option.{option_map};
ghost use Rattle.dts_resolver.specs.Specifier.{begins, unfragmented, up_to_query, present, raw_path, query_of, fragment_of, unescaped};

use list::{Full, List, after, front};

/// The path part as it stands, the query with its `?` and the fragment with its `#`, where there are any.
#[derive(Clone, Copy, PartialEq, Eq, Debug)]
pub struct Specifier<'a> {
    pub path: &'a [u8],
    pub query: Option<&'a [u8]>,
    pub fragment: Option<&'a [u8]>,
}

impl<'a> Specifier<'a> {
    /// The fragment starts at the first `#` that is neither the first byte nor after a zero byte; the query at the
    /// first `?` before it.
    pub fn parse(specifier: &'a [u8]) -> Specifier<'a>
        ensures path_before_query { result.path.now ≡ raw_path specifier.now }
        ensures query_before_fragment { option_map (λ x. x.now) result.query ≡ query_of specifier.now }
        ensures fragment_last { option_map (λ x. x.now) result.fragment ≡ fragment_of specifier.now }
    {
        let end = fragment_start(specifier);
        let rest = front(specifier, end);
        let start = query_start(rest);
        Specifier {
            path: front(rest, start),
            query: part(after(rest, start)),
            fragment: part(after(specifier, end)),
        }
    }
}

// Where the fragment starts, or the length where there is none.
fn fragment_start(text: &[u8]) -> usize
    ensures after_the_rest { result ≡ length (unfragmented text.now) }
{
    // Each byte but the first beside the one before it: the first starts no fragment.
    text.iter()
        .zip(after(text, 1))
        .position(|(before, b)| *b == b'#' && *before != 0)
        .map_or(text.len(), |at| at + 1)
}

// Where the query starts, or the length where there is none.
fn query_start(text: &[u8]) -> usize
    ensures after_the_path { result ≡ length (up_to_query text.now) }
{
    text.iter().position(|b| *b == b'?').unwrap_or(text.len())
}

// A part that is not empty.
fn part(bytes: &[u8]) -> Option<&[u8]>
    ensures unless_empty { option_map (λ x. x.now) result ≡ present bytes.now }
{
    (!bytes.is_empty()).then_some(bytes)
}

// Whether a text begins with a zero byte and a `#`.
fn is_escape(text: &[u8]) -> bool
    ensures zero_before_hash { result ≡ (begins 0 text.now && begins 35 (drop 1 text.now)) }
{
    matches!(text, [0, b'#', ..])
}

// Writes a path part without the zero bytes that stand right before a `#`, and tells how many bytes that are. Where they
// do not fit, any byte of `into` may have changed.
pub(crate) fn unescape(raw: &[u8], into: &mut [u8]) -> Result<usize, Full>
    ensures fits_or_not { MatchResult result (λ n. (n ≡ length (unescaped raw.now)) × (n ≤ length into.old)) (λ _. length into.old < length (unescaped raw.now)) }
    ensures written_before_the_rest { IfOk result (λ n. into.new ≡ unescaped raw.now ++ drop n into.old) }
{
    let mut text = List::new(into);
    for (i, b) in raw.iter().enumerate() {
        if is_escape(after(raw, i)) {
            continue;
        }
        text.push(*b)?;
    }
    Ok(text.len())
}
