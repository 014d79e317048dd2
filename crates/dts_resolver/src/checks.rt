// The checks of a lookup before its search, in their order.
ghost use Rattle.std.specs.Prelude.{◌≡◌, true, false, ◌&&◌, length, None, IfOk, MatchOption, nat_le};
ghost use Rattle.path.specs.Path.{normal};
ghost use Rattle.dts_resolver.specs.Checks.{is_text, part_checks, text_checks, given_checks, directory_of};
ghost use Rattle.dts_resolver.specs.Answer.{refusal_of};

use crate::lent::Lent;
use crate::{IMPORT_SIZE, WORK_SIZE};
use path::{is_normal, is_utf8, parent};
use search::{PATH_SIZE, Refusal};

// Checks the lent memory and the two texts, and tells the directory of the containing path.
pub(crate) fn check_given<'c>(
    containing: &'c [u8],
    specifier: &[u8],
    lent: &Lent<'_>,
) -> Result<&'c [u8], Refusal>
    ensures first_that_fails { refusal_of result ≡ given_checks (length lent.now.path.now) (length lent.now.work.now) containing.now specifier.now None }
    ensures containing_directory { IfOk result (λ d. d.now ≡ directory_of containing.now) }
{
    if !is_enough(lent) {
        return Err(Refusal::ShortMemory);
    }
    check_texts(containing, specifier)
}

// Whether the path buffer and the work area are large enough.
fn is_enough(lent: &Lent<'_>) -> bool
    ensures both_sizes { result ≡ (nat_le PATH_SIZE (length lent.now.path.now) && nat_le WORK_SIZE (length lent.now.work.now)) }
{
    lent.path.len() >= PATH_SIZE && lent.work.len() >= WORK_SIZE
}

// Checks the containing path and the specifier, and tells the directory of the first.
fn check_texts<'c>(containing: &'c [u8], specifier: &[u8]) -> Result<&'c [u8], Refusal>
    ensures first_that_fails { refusal_of result ≡ text_checks containing.now specifier.now None }
    ensures containing_directory { IfOk result (λ d. d.now ≡ directory_of containing.now) }
{
    let Some(directory) = directory_of(containing) else {
        return Err(Refusal::ContainingPath);
    };
    if !is_text(specifier) {
        return Err(Refusal::SpecifierText);
    }
    Ok(directory)
}

// The directory of a containing path, and `/` for `/`; none where that is no normal text.
fn directory_of(containing: &[u8]) -> Option<&[u8]>
    ensures of_a_normal_text { MatchOption result ((is_text containing.now && normal containing.now) ≡ false) (λ d. ((is_text containing.now && normal containing.now) ≡ true) × (d.now ≡ directory_of containing.now)) }
{
    if !is_text(containing) {
        return None;
    }
    if containing == b"/".as_slice() {
        return Some(containing);
    }
    parent(containing)
}

// Whether bytes are UTF-8, at most 512 of them.
fn is_text(bytes: &[u8]) -> bool
    ensures short_utf8 { result ≡ is_text bytes.now }
{
    is_utf8(bytes) && bytes.len() <= IMPORT_SIZE
}

// Checks the path part.
pub(crate) fn check_part(part: &[u8]) -> Result<(), Refusal>
    ensures first_that_fails { refusal_of result ≡ part_checks part.now }
{
    match part {
        [] => Err(Refusal::EmptySpecifier),
        [b'/', ..] if !is_normal(part) => Err(Refusal::AbsolutePath),
        [b'#', ..] => Err(Refusal::PackageImport),
        _ => Ok(()),
    }
}
