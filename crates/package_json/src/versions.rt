// The version paths of a manifest: the patterns of the first range of `typesVersions` that gives any, and their targets.
// Each is told by its place, so that a walk can go on in a text that was read again.
//
// Of equal names the first counts, and no room is lent in which names could be kept. To see whether the name of a member stood before, the
// members before it are gone through; so the walk over the patterns tells those as well whose name stood before, and leaves it to the caller to
// ask of the ones that it takes (`json_text::is_repeated`), which are few where most patterns do not match.
ghost use Rattle.std.specs.Prelude.{◌≡◌, ℕ, ◌<◌, ◌≤◌, Bool, List, [], ◌∷◌, length, not, is_some, Option, IfSome};
ghost use Rattle.std.specs.Bool.{then_some};
ghost use Rattle.json_text.specs.Json.{Json};
ghost use Rattle.json_text.specs.Standing.{Entry, ValueAt, MemberAt, ElementsFound, entries};
ghost use Rattle.package_json.specs.Manifest.{strings, targets_of, version_paths};
ghost use Rattle.package_json.specs.Walking.{FirstAnswer};
ghost use Rattle.package_json.specs.Standing.{Candidate, candidates, kept, CandidatesAt, CandidatesFound, Position, RangeFound, TargetsAt, TargetsFound, StringsFound};
ghost use Rattle.package_json.specs.Ranges.{MembersLeft, NextMember, RangeGives, gives};

use crate::fields::string_at;
use json_text::{
    Kind, find_member, first_element, first_member, is_repeated, kind_at, member_value,
    next_element, next_member,
};

/// The place of the object whose members are the version paths of the manifest whose value stands at `root`: the value of the first range of
/// `typesVersions` that gives any pattern. Where no value stands at `root`, any place inside the text that lies further on may be told.
pub fn version_range(text: &[u8], root: usize) -> Option<usize>
    ensures of_the_version_paths { (end : ℕ) (v : Json) → ValueAt text.now root end v → RangeFound text.now result (version_paths v) }
    ensures further { IfSome result (λ place. (root < place) × (place ≤ length text.now)) }
{
    let versions = find_member(text, root, b"typesVersions")?;
    let next = |range: usize| -> Option<usize>
        ensures { NextMember text.exit.now range result }
    { next_member(text, range) };
    let object_in = |range: usize| -> Option<usize>
        ensures of_the_range_there { (before : List Entry) (end : ℕ) (e : Entry) → Position text.exit.now versions range before → MemberAt text.exit.now range end e → RangeGives text.exit.now before e result }
        ensures further { IfSome result (λ place. (range < place) × (place ≤ length text.exit.now)) }
    { giving_object(text, versions, range) };
    first_answer(first_member(text, versions), next, object_in)
}

// The object of the range that stands at a place, if the range counts and its object gives any pattern.
fn giving_object(text: &[u8], versions: usize, range: usize) -> Option<usize>
    ensures of_the_range_there { (before : List Entry) (end : ℕ) (e : Entry) → Position text.now versions range before → MemberAt text.now range end e → RangeGives text.now before e result }
    ensures further { IfSome result (λ place. (range < place) × (place ≤ length text.now)) }
{
    let object = member_value(text, range)?;
    if !gives_any(text, object) {
        return None;
    }
    (!is_repeated(text, versions, range)).then_some(object)
}

// Whether the object that stands at a place gives any pattern: one whose name did not stand before.
fn gives_any(text: &[u8], object: usize) -> bool
    ensures { (end : ℕ) (v : Json) → ValueAt text.now object end v → result ≡ gives (kept (candidates [] (entries v))) }
{
    let counting = |pattern: usize| -> Option<usize>
        ensures { (c : Candidate) (cs : List Candidate) → CandidatesAt text.exit.now object pattern c cs → result ≡ then_some (not c.repeated) pattern }
    { (!is_repeated(text, object, pattern)).then_some(pattern) };
    let next = |pattern: usize| -> Option<usize>
        ensures of_those_left { (range : ℕ) (c : Candidate) (cs : List Candidate) → CandidatesAt text.exit.now range pattern c cs → CandidatesFound text.exit.now range result cs }
        ensures further { IfSome result (λ next. pattern < next) }
    { next_pattern(text, pattern) };
    first_answer(first_pattern(text, object), next, counting).is_some()
}

/// The place of the first pattern in the object of a range, whether its name stood before or not. Where none stands there, any place inside the
/// text that lies further on may be told.
pub fn first_pattern(text: &[u8], range: usize) -> Option<usize>
    ensures of_the_value_there { (end : ℕ) (v : Json) → ValueAt text.now range end v → CandidatesFound text.now range result (candidates [] (entries v)) }
    ensures further { IfSome result (λ place. (range < place) × (place ≤ length text.now)) }
{
    giving_from(text, first_member(text, range))
}

/// The place of the pattern behind the one that stands at a place, whether its name stood before or not.
pub fn next_pattern(text: &[u8], pattern: usize) -> Option<usize>
    ensures of_those_left { (range : ℕ) (c : Candidate) (cs : List Candidate) → CandidatesAt text.now range pattern c cs → CandidatesFound text.now range result cs }
    ensures further { IfSome result (λ next. (pattern < next) × (next ≤ length text.now)) }
{
    giving_from(text, next_member(text, pattern))
}

// The first of the members from a place on that gives a pattern: its value is a string or an array.
fn giving_from(text: &[u8], from: Option<usize>) -> Option<usize>
    ensures first_that_gives { (range : ℕ) (before es : List Entry) → MembersLeft text.now range before from es → CandidatesFound text.now range result (candidates before es) }
    ensures not_back { (low : ℕ) → IfSome from (λ at. (low < at) × (at ≤ length text.now)) → IfSome result (λ at. (low < at) × (at ≤ length text.now)) }
{
    // The member itself, if it gives a pattern.
    let giving = |member: usize| -> Option<usize>
        ensures of_the_member_there { (end : ℕ) (e : Entry) → MemberAt text.exit.now member end e → result ≡ then_some (is_some (targets_of e.value)) member }
        ensures itself { IfSome result (λ at. at ≡ member) }
    {
        let place = member_value(text, member)?;
        matches!(kind_at(text, place), Kind::String | Kind::Array).then_some(member)
    };
    let next = |member: usize| -> Option<usize>
        ensures { NextMember text.exit.now member result }
    { next_member(text, member) };
    first_answer(from, next, giving)
}

/// The place of the first target of the pattern whose value stands at `value` (`json_text::member_value` of the pattern's place). Where none
/// stands there, `value` itself or any place inside the text that lies further on may be told.
pub fn first_target(text: &[u8], value: usize) -> Option<usize>
    ensures of_the_value_there { (end : ℕ) (v : Json) (ts : List (List ℕ)) → ValueAt text.now value end v → targets_of v ≡ Some ts → TargetsFound text.now v result ts }
    ensures not_back { IfSome result (λ place. (value ≤ place) × (place ≤ length text.now)) }
{
    match kind_at(text, value) {
        Kind::String => Some(value),
        Kind::Array => string_from(text, first_element(text, value)),
        Kind::Object | Kind::Plain => None,
    }
}

/// The place of the target behind the one that stands at a place, both of the pattern whose value stands at `value`.
pub fn next_target(text: &[u8], value: usize, target: usize) -> Option<usize>
    ensures of_those_left { (end : ℕ) (v : Json) (s : List ℕ) (ss : List (List ℕ)) → ValueAt text.now value end v → TargetsAt text.now target v s ss → TargetsFound text.now v result ss }
    ensures further { IfSome result (λ next. (target < next) × (next ≤ length text.now)) }
{
    match kind_at(text, value) {
        Kind::Array => string_from(text, next_element(text, target)),
        _ => None,
    }
}

// The first of the elements from a place on that is a string.
fn string_from(text: &[u8], from: Option<usize>) -> Option<usize>
    ensures first_string { (vs : List Json) → ElementsFound text.now from vs → StringsFound text.now result (strings vs) }
    ensures not_back { (low : ℕ) → IfSome from (λ at. (low < at) × (at ≤ length text.now)) → IfSome result (λ at. (low < at) × (at ≤ length text.now)) }
{
    first_answer(
        from,
        |element| next_element(text, element),
        |element| string_at(text, element),
    )
}

// The first answer at a place from one on, each of which leads to the next, as `successors` and `find_map` give it;
// `successors` does not say that it ends.
fn first_answer<N, A>(from: Option<usize>, next: N, answer: A) -> Option<usize>
where
    N: Fn(usize) -> Option<usize>,
    A: Fn(usize) -> Option<usize>,
    requires may_go_on { N.IsAlwaysCallable next }
    requires may_ask { A.IsAlwaysCallable answer }
    requires further { (at : ℕ) (r : Option ℕ) → N.post next at r → IfSome r (λ n. at < n) }
    ensures { FirstAnswer (N.post next) (A.post answer) from result }
{
    let mut at = from;
    while let Some(place) = at {
        let found = answer(place);
        if found.is_some() {
            return found;
        }
        at = next(place);
    }
    None
}
