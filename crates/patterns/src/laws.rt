// The laws of patterns, each the contract of a function.

ghost use Rattle.patterns.specs.Laws.{OneMatch, FirstStarSplits, MatchIsTold, ToldIsMatch};

/// A pattern matches in one way at most, and it is split at its first star.
pub fn patterns_split_at_the_first_star()
    ensures one_match { OneMatch }
    ensures first_star_splits { FirstStarSplits }
{}

/// What matching tells is what the relation says.
pub fn matches_are_told()
    ensures match_is_told { MatchIsTold }
    ensures told_is_match { ToldIsMatch }
{}
