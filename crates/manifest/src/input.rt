//! The one command: `text` and the bytes of a text, each by two hexadecimal digits.
use std::alloc::Global;
use thiserror::Error;

/// What is wrong with a line.
#[derive(Clone, Copy, Debug, Error)]
pub enum Fault {
    #[error("{0}")]
    Line(#[from] commands::Fault),
    #[error("{0}")]
    Digits(#[from] hex::FromHexError),
}

/// The bytes that a line gives.
pub fn text(heap: Global, line: &str) -> Result<Vec<u8>, Fault> {
    let (name, digits) = line.split_once(' ').unwrap_or((line, ""));
    if name != "text" {
        return Err(Fault::Line(commands::Fault::Unknown));
    }
    commands::check_word(digits)?;
    match digits {
        "-" => Ok(Vec::new(heap)),
        _ => Ok(hex::decode(heap, digits)?),
    }
}
