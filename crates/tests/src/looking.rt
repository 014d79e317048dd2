// Lookups by a function without a contract: the tests need no facts of what a lookup leaves.
use dts_resolver::{Extensions, Import, Lent, Refused, Resolution, lookup};
use file_system::FileSystem;

// Looks a specifier up under a mask of all.
pub(crate) fn look_up<'s, S: FileSystem>(
    store: &mut S,
    containing: &[u8],
    specifier: &'s [u8],
    lent: &mut Lent<'_>,
) -> Result<Resolution<'s>, Refused> {
    let import = Import {
        containing,
        specifier,
        mask: Extensions::ALL,
    };
    lookup(store, &import, lent)
}
