// The memory that a lookup is lent.
use search::Step;

/// What a lookup is lent; it writes nowhere else.
#[derive(Drop)]
pub struct Lent<'m> {
    /// The path buffer, at least 1,024 bytes; a chosen path fills its start.
    pub path: &'m mut [u8],
    /// The work area, at least 32,768 bytes, which are free afterwards.
    pub work: &'m mut [u8],
    /// The steps of the trail fill its start.
    pub steps: &'m mut [Step],
    /// The bytes of their paths fill its start.
    pub bytes: &'m mut [u8],
}
