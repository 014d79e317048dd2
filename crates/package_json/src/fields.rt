// The fields of a manifest that are strings, and `exports`.
ghost use Rattle.std.specs.Prelude.{◌≡◌, ℕ, ◌<◌, ◌≤◌, length, is_some, IfSome};
ghost use Rattle.std.specs.Bool.{then_some};
ghost use Rattle.json_text.specs.Json.{Json};
ghost use Rattle.json_text.specs.Standing.{ValueAt};
ghost use Rattle.package_json.specs.Manifest.{name_of, string_of, string_field, exports_field};
ghost use Rattle.package_json.specs.Standing.{StringFound, ExportsFound, ExportsInside};

use crate::plain::is_plain;
use json_text::{Kind, chars_at, find_member, kind_at};

/// The fields that are strings.
#[derive(Clone, Copy, PartialEq, Eq, Debug)]
pub enum Field {
    Name,
    Main,
    Types,
    Typings,
}

impl Field {
    /// Each of them, in a fixed order.
    pub const ALL: [Field; 4] = [Field::Name, Field::Main, Field::Types, Field::Typings];

    /// The name of the member.
    pub fn name(self) -> &'static str
        ensures of_the_member { result.now ≡ name_of self }
    {
        match self {
            Field::Name => "name",
            Field::Main => "main",
            Field::Types => "types",
            Field::Typings => "typings",
        }
    }
}

/// What a manifest has as `exports`: a plain target with its place, or any other value.
#[derive(Clone, Copy, PartialEq, Eq, Debug)]
pub enum Exports {
    Plain(usize),
    Other,
}

/// The place of a field of the manifest whose value stands at `root`, where it has the field and it is a string. Where no value stands at `root`,
/// any place inside the text that lies further on may be told.
pub fn string_field(text: &[u8], root: usize, field: Field) -> Option<usize>
    ensures first_of_the_name { (end : ℕ) (v : Json) → ValueAt text.now root end v → StringFound text.now result (string_field field v) }
    ensures further { IfSome result (λ place. (root < place) × (place ≤ length text.now)) }
{
    string_at(text, find_member(text, root, field.name().as_bytes())?)
}

// The place itself, if the value that stands there is a string.
pub(crate) fn string_at(text: &[u8], place: usize) -> Option<usize>
    ensures where_a_string_stands { (end : ℕ) (v : Json) → ValueAt text.now place end v → result ≡ then_some (is_some (string_of v)) place }
    ensures itself { IfSome result (λ at. at ≡ place) }
{
    matches!(kind_at(text, place), Kind::String).then_some(place)
}

/// The `exports` of the manifest whose value stands at `root`. Where no value stands there, any may be told, with a place inside the text that
/// lies further on.
pub fn exports_field(text: &[u8], root: usize) -> Option<Exports>
    ensures first_of_the_name { (end : ℕ) (v : Json) → ValueAt text.now root end v → ExportsFound text.now result (exports_field v) }
    ensures further { ExportsInside text.now root result }
{
    let place = find_member(text, root, b"exports")?;
    match chars_at(text, place) {
        Some(chars) if is_plain(chars) => Some(Exports::Plain(place)),
        _ => Some(Exports::Other),
    }
}
