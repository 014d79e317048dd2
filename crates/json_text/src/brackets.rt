// The two kinds of brackets.

ghost use Rattle.std.specs.Prelude.{◌≡◌, ◌≢◌, MatchOption};
ghost use Rattle.json_text.specs.Cursors.{symbol};
ghost use Rattle.json_text.specs.Brackets.{opening, closing};

use crate::cursor::Cursor;

// The brackets of an array, and those of an object.
#[derive(Clone, Copy)]
pub(crate) enum Bracket {
    Square,
    Curly,
}

impl Bracket {
    pub(crate) fn opening(self) -> u8
        ensures { result ≡ opening self }
    {
        match self {
            Bracket::Square => b'[',
            Bracket::Curly => b'{',
        }
    }

    pub(crate) fn closing(self) -> u8
        ensures { result ≡ closing self }
    {
        match self {
            Bracket::Square => b']',
            Bracket::Curly => b'}',
        }
    }
}

impl<'a> Cursor<'a> {
    // The bracket that opens here.
    pub(crate) fn bracket(self) -> Option<Bracket>
        ensures { MatchOption result ((symbol self.entry ≢ 91) × (symbol self.entry ≢ 123)) (λ bracket. symbol self.entry ≡ opening bracket) }
    {
        match self.split_first()?.0 {
            b'[' => Some(Bracket::Square),
            b'{' => Some(Bracket::Curly),
            _ => None,
        }
    }
}
