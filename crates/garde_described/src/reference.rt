//! What a schema says of its own document: definitions, described members and items.
ghost use Rattle.std.specs.Prelude.{◌≡◌, ◌≤◌, length};
ghost use Rattle.garde_described.specs.Faults.{definition_of, described_items, first_named, has_anchor, has_name, is_anchor, is_described, member_of, names_schema};

use garde_schema::{Found, Tree, TreeMembers};

// The value of a name, where an object has it once.
pub(crate) fn member_of<'t, 'a>(tree: &Tree<'t, 'a>, name: &str) -> Option<Tree<'t, 'a>>
    ensures { result ≡ member_of name.now tree.now }
{
    match tree.find(name) {
        Found::Once(value) => Some(value),
        Found::Missing | Found::Repeated => None,
    }
}

// Whether a reference `#/$defs/NAME` has this name.
fn has_name(text: &str, name: &str) -> bool
    ensures { result ≡ has_name text.now name.now }
{
    if text.len() < 8 {
        return false;
    }
    let (front, rest) = text.as_bytes().split_at(8);
    front == b"#/$defs/".as_slice() && rest == name.as_bytes()
}

// Whether a reference `#NAME` has this name.
fn has_anchor(text: &str, anchor: Option<Tree<'_, '_>>) -> bool
    requires { 2 ≤ length text.now }
    ensures { result ≡ has_anchor text.now anchor.entry }
{
    let (_, rest) = text.as_bytes().split_at(1);
    match anchor {
        Some(anchor) => match anchor.as_str() {
            Some(name) => rest == name.as_bytes(),
            None => false,
        },
        None => false,
    }
}

// Whether a reference is one to an `$anchor`.
fn is_anchor(text: &str) -> bool
    ensures { result ≡ is_anchor text.now }
{
    text.len() >= 2 && text.as_bytes()[1] != b'/'
}

// Whether a reference names this schema, which has this name.
fn names_schema(text: &str, name: &str, schema: &Tree<'_, '_>) -> bool
    ensures { result ≡ names_schema text.now (name.now, schema.now) }
{
    has_name(text, name) || (is_anchor(text) && has_anchor(text, member_of(schema, "$anchor")))
}

// The first of these schemas that a reference names.
fn first_named<'t, 'a>(text: &str, schemas: TreeMembers<'t, 'a>) -> Option<Tree<'t, 'a>>
    ensures { result ≡ first_named text.now schemas.entry }
{
    let mut left = schemas;
    while let Some((name, schema)) = left.next() {
        if names_schema(text, name, &schema) {
            return Some(schema);
        }
    }
    None
}

// The schema that a reference other than `#` means.
pub(crate) fn definition<'t, 'a>(root: &Tree<'t, 'a>, text: &str) -> Option<Tree<'t, 'a>>
    ensures { result ≡ definition_of root.now text.now }
{
    first_named(text, member_of(root, "$defs")?.members()?)
}

// Whether the value of `properties` describes a member of this name.
pub(crate) fn is_described(described: &Option<Tree<'_, '_>>, name: &str) -> bool
    ensures { result ≡ is_described described.now name.now }
{
    match described {
        Some(members) => !matches!(members.find(name), Found::Missing),
        None => false,
    }
}

// How many items `prefixItems` describes.
pub(crate) fn described_items(schema: &Tree<'_, '_>) -> usize
    ensures { result ≡ described_items schema.now }
{
    match member_of(schema, "prefixItems") {
        Some(schemas) => match schemas.items() {
            Some(items) => items.count(),
            None => 0,
        },
        None => 0,
    }
}
