//! One JSON string (RFC 8259, section 7): reading it, and its decoded bytes.

#![tactic(auto)]

mod decoded;
mod decoder;
mod laws;
mod piece;
mod reading;
mod state;

pub use decoded::{copy_decoded, decoded_len, is_decoded_as};
pub use decoder::Decoder;
pub use laws::{
    chars_are_utf8, chars_have_one_decoding, machine_breaks_where_no_string_goes_on,
    machine_reads_the_grammar,
};
pub use reading::{Fault, read_string};
