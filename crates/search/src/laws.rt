// Laws over every search whatever, each on the contract of a function: a law is checked only where a contract names it.
ghost use Rattle.search.specs.Laws.{RunIsWhatItNeeds, FitByTotals, SameRepliesSameAnswer, AddedFilesAreHarmless};

/// From any trail, a search comes to what it comes to without limits and leaves just what it needs, each question once and
/// in order of first need; where those do not all find room it is refused with 8 after the longest beginning that does. They
/// all do exactly if the trail with them has no more steps and bytes than there may be.
pub fn run_is_what_it_needs()
    ensures run_is_what_it_needs { RunIsWhatItNeeds }
    ensures fit_by_totals { FitByTotals }
{}

/// From any trail and within equal limits, if every question on the trail that a search leaves has the same reply in another
/// tree, then the search comes to the same answer and trail there.
pub fn same_replies_same_answer()
    ensures same_replies_same_answer { SameRepliesSameAnswer }
{}

/// From any trail, if another tree differs only by added files, none of them called package.json, then a search comes to the
/// same outcome and trail there, or it chooses one of the added files.
pub fn added_files_are_harmless()
    ensures added_files_are_harmless { AddedFilesAreHarmless }
{}
