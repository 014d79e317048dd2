// Laws of a lookup, each on the contract of a function: a law is checked only where a contract names it.
ghost use Rattle.dts_resolver.specs.Laws.{EndsAsItsTrials, Utf8IsTheLibrarys};

/// In every tree, a lookup without limits comes to the outcome of the first of its trials that succeeds or stops.
pub fn lookups_end_as_their_trials()
    ensures ends_as_its_trials { EndsAsItsTrials }
{}

/// What the checks of a lookup take for UTF-8 is what the library does.
pub fn utf8_is_the_librarys()
    ensures utf8_is_the_librarys { Utf8IsTheLibrarys }
{}
