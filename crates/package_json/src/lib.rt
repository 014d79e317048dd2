// Manifests (package.json): the fields that a lookup needs, as places in a text that json_text::read_text accepts.
#![tactic(auto)]

mod fields;
mod laws;
mod plain;
mod versions;

pub use fields::{Exports, Field, exports_field, string_field};
pub use laws::{first_of_equal_patterns_counts, small_manifests_are_read};
pub use plain::is_plain;
pub use versions::{first_pattern, first_target, next_pattern, next_target, version_range};
