// Walking the elements of an array and the members of an object, from one place in the text to the next.
// These take a text and a place, and no cursor: a caller keeps a place while the text is read on, and may keep a wrong one.
// So what they tell at every place is said too: a place is told only where a bracket opens, a comma follows or a name stands.

ghost use Rattle.std.specs.Prelude.{◌≡◌, ℕ, ◌+◌, ◌<◌, ◌≤◌, true, false, List, ◌∷◌, length, IfSome, MatchOption, ◌==◌, slice_index_or};
ghost use Rattle.std.specs.List.{between};
ghost use Rattle.json_string.specs.String.{Chars};
ghost use Rattle.json_string.specs.Reading.{StringAt};
ghost use Rattle.json_text.specs.Json.{Json, string};
ghost use Rattle.json_text.specs.Brackets.{opening, closing, FirstFound};
ghost use Rattle.json_text.specs.Standing.{ValueAt, Space, Entry, ColonAt, MemberAt, CommaTo, OpensTo, ElementsAt, ElementsFound, MembersAt, MembersFound, elements, entries};

use crate::brackets::Bracket;
use crate::cursor::Cursor;
use crate::texts::DEPTH;
use crate::token::Token;
use json_string::read_string;

/// The place of the first element of the array that stands at a place. There is none in an empty array and in any other value.
pub fn first_element(text: &[u8], at: usize) -> Option<usize>
    ensures of_the_value_there { (end : ℕ) (v : Json) → ValueAt text.now at end v → ElementsFound text.now result (elements v) }
    ensures behind_the_bracket { MatchOption result ((place : ℕ) → OpensTo 91 93 text.now at place → ⊥) (λ place. OpensTo 91 93 text.now at place) }
{
    first_item(text, at, Bracket::Square)
}

/// The place of the element behind the one that stands at a place, where there is one.
pub fn next_element(text: &[u8], at: usize) -> Option<usize>
    ensures of_the_elements_there { (v : Json) (vs : List Json) → ElementsAt text.now at (v ∷ vs) → ElementsFound text.now result vs }
    ensures right_behind { (end next : ℕ) (v : Json) → ValueAt text.now at end v → CommaTo text.now end next → result ≡ Some next }
    ensures behind_a_value { IfSome result (λ next. (end : ℕ) × (v : Json) × ValueAt text.now at end v × CommaTo text.now end next) }
    ensures further { IfSome result (λ next. (at < next) × (next ≤ length text.now)) }
{
    behind_value(text, at)
}

/// The place of the first member of the object that stands at a place. There is none in an empty object and in any other value.
pub fn first_member(text: &[u8], at: usize) -> Option<usize>
    ensures of_the_value_there { (end : ℕ) (v : Json) → ValueAt text.now at end v → MembersFound text.now result (entries v) }
    ensures behind_the_bracket { MatchOption result ((place : ℕ) → OpensTo 123 125 text.now at place → ⊥) (λ place. OpensTo 123 125 text.now at place) }
{
    first_item(text, at, Bracket::Curly)
}

/// The place of the value of the member that stands at a place.
pub fn member_value(text: &[u8], at: usize) -> Option<usize>
    ensures of_the_member_there { (end : ℕ) (e : Entry) → MemberAt text.now at end e → MatchOption result ⊥ (λ place. ValueAt text.now place end e.value) }
    ensures behind_a_name { IfSome result (λ place. (k : List ℕ) × ColonAt text.now at place k) }
    ensures further { IfSome result (λ place. (at < place) × (place ≤ length text.now)) }
{
    let value = Token::new(text, at)?.name_and_colon().ok()?;
    Some(value.start.at)
}

/// The place of the member behind the one that stands at a place, where there is one.
pub fn next_member(text: &[u8], at: usize) -> Option<usize>
    ensures of_the_members_there { (e : Entry) (es : List Entry) → MembersAt text.now at (e ∷ es) → MembersFound text.now result es }
    ensures right_behind { (end next : ℕ) (e : Entry) → MemberAt text.now at end e → CommaTo text.now end next → result ≡ Some next }
    ensures behind_a_member { IfSome result (λ next. (end : ℕ) × (e : Entry) × MemberAt text.now at end e × CommaTo text.now end next) }
    ensures further { IfSome result (λ next. (at < next) × (next ≤ length text.now)) }
{
    let place = member_value(text, at)?;
    behind_value(text, place)
}

/// The undecoded chars of the string that stands at a place: a value, or the name of a member.
pub fn chars_at(text: &[u8], at: usize) -> Option<&[u8]>
    ensures of_the_value_there { (end : ℕ) (v : Json) → ValueAt text.now at end v → MatchOption result ((s : List ℕ) → v ≡ string s → ⊥) (λ chars. (s : List ℕ) × (v ≡ string s) × Chars chars.now s) }
    ensures of_the_member_there { (end : ℕ) (e : Entry) → MemberAt text.now at end e → MatchOption result ⊥ (λ chars. Chars chars.now e.name) }
    ensures of_a_string_there { MatchOption result ((end : ℕ) → slice_index_or text.now at 256 ≡ 34 → StringAt text.now (at + 1) end → ⊥) (λ chars. (end : ℕ) × (slice_index_or text.now at 256 ≡ 34) × StringAt text.now (at + 1) end × (chars.now ≡ between (at + 1) end text.now)) }
{
    let chars = Cursor::new(text, at)?.after(b'"')?;
    let end = read_string(text, chars.at).ok()?;
    Some(&text[chars.at..end])
}

// The place of the item behind the comma that follows the value at a place, where a comma follows it.
fn behind_value(text: &[u8], at: usize) -> Option<usize>
    ensures behind_a_value { IfSome result (λ next. (end : ℕ) × (v : Json) × ValueAt text.now at end v × CommaTo text.now end next) }
    ensures right_behind { (end next : ℕ) (v : Json) → ValueAt text.now at end v → CommaTo text.now end next → result ≡ Some next }
    ensures further { IfSome result (λ next. (at < next) × (next ≤ length text.now)) }
    ensures behind { (end place : ℕ) (v : Json) → ValueAt text.now at end v → Space text.now end place → slice_index_or text.now place 256 < 256 → MatchOption result ((slice_index_or text.now place 256 == 44) ≡ false) (λ next. Space text.now (place + 1) next × ((slice_index_or text.now place 256 == 44) ≡ true)) }
{
    let value = Token::new(text, at)?;
    let place = value.element(DEPTH).ok()?;
    let end = value.start.moved_to(place);
    let item = end.after(b',')?.skip_ws();
    Some(item.start.at)
}

// The place of the first item of the array or the object that stands at a place. There is none in an empty one and in any other value.
fn first_item(text: &[u8], at: usize, bracket: Bracket) -> Option<usize>
    ensures of_the_value_there { (end : ℕ) (v : Json) → ValueAt text.now at end v → FirstFound bracket text.now result v }
    ensures behind_the_bracket { MatchOption result ((place : ℕ) → OpensTo (opening bracket) (closing bracket) text.now at place → ⊥) (λ place. OpensTo (opening bracket) (closing bracket) text.now at place) }
{
    let first = Cursor::new(text, at)?.after(bracket.opening())?.skip_ws();
    match first.start.after(bracket.closing()) {
        Some(_) => None,
        None => Some(first.start.at),
    }
}
