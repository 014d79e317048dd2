// JSON texts (RFC 8259): which bytes are one, and the place of the fault in any other.

#![tactic(auto)]

mod brackets;
mod classes;
mod cursor;
mod find;
mod laws;
mod names;
mod numbers;
mod plain_values;
mod strings;
mod texts;
mod token;
mod values;
mod walk;

pub use find::{Kind, find_member, is_repeated, kind_at};
pub use json_string::Fault;
pub use laws::{reading_tells_texts_and_faults, small_texts_are_read, text_has_one_value};
pub use texts::{DEPTH, TEXT_SIZE, read_text};
pub use walk::{chars_at, first_element, first_member, member_value, next_element, next_member};
