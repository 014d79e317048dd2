//! Texts that are given byte by byte, and can be gone through again.

#![tactic(auto)]

mod bytes;
mod comparing;
mod copying;
mod ended;
mod part;
mod plain;

pub use bytes::Bytes;
pub use comparing::same_bytes;
pub use copying::append;
pub use ended::Ended;
pub use part::Part;
pub use plain::Plain;
