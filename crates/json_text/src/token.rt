// A place where a token of a text begins.

ghost use Rattle.std.specs.Prelude.{◌≡◌, false};
ghost use Rattle.json_text.specs.Cursors.{symbol};
ghost use Rattle.json_text.specs.Json.{is_ws};

use crate::classes::Whitespace;
use crate::cursor::Cursor;

// A place where no white space stands.
#[derive(Clone, Copy)]
pub(crate) struct Token<'a> {
    pub(crate) start: Cursor<'a>,
    ghost no_space: { is_ws (symbol start) ≡ false },
}

impl<'a> Token<'a> {
    ghost use Rattle.std.specs.Prelude.{◌≤◌, true, length, MatchOption, slice_index_or};

    // The token at a place that is no later than the end, and where no white space stands.
    pub(crate) fn new(text: &'a [u8], at: usize) -> Option<Token<'a>>
        ensures { MatchOption result (at ≤ length text.now → is_ws (slice_index_or text.now at 256) ≡ true) (λ token. (token.start.text.now ≡ text.now) × (token.start.at ≡ at)) }
    {
        let start = Cursor::new(text, at)?;
        match start.after_any::<Whitespace>() {
            Some(_) => None,
            None => Some(Token { start }),
        }
    }
}
