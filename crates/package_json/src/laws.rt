// The laws of version paths, each the contract of a function.
ghost use Rattle.package_json.specs.Laws.{KeptAreThePatterns};
ghost use Rattle.package_json.specs.Examples.{SmallManifests};

/// Of the patterns that stand in a range those whose name did not stand before are the patterns that it gives.
pub fn first_of_equal_patterns_counts()
    ensures kept_are_the_patterns { KeptAreThePatterns }
{}

/// What a manifest tells is found by computing.
pub fn small_manifests_are_read()
    ensures small_manifests { SmallManifests }
{}
