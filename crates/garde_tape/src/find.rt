//! Looking members and fields up by name.
ghost use Rattle.std.specs.Prelude.{◌≡◌, None};
ghost use Rattle.garde_tape.specs.Look.{get_in, answer_from};
ghost use Rattle.garde_tape.specs.Spot.{spot_found};
ghost use Rattle.garde_tape.specs.Texts.{field_list};

use crate::field::{FieldSpot, FieldValue};
use crate::found::Found;
use crate::source::Source;
use crate::tape_members::TapeMembers;
use crate::tree::Tree;

// Where the name stands among fields, by a loop of its own in each caller. The name of a field is
// copied first, since LLVM then compares it in place.
#[inline(always)]
fn field_spot_in<'f, 't, 'a>(
    fields: &'f [(&'a str, FieldValue<'t, 'a>)],
    name: &str,
) -> FieldSpot<'f, 't, 'a>
    ensures { spot_found result ≡ answer_from name.now None (field_list fields.now) }
{
    let mut first = None;
    for field in fields {
        let key = field.0;
        if key == name {
            if first.is_some() {
                return FieldSpot::Repeated;
            }
            first = Some(&field.1);
        }
    }
    match first {
        Some(value) => FieldSpot::Once(value),
        None => FieldSpot::Nowhere,
    }
}

// The same. Short names have loops of their own, as in a JSON text.
#[inline(never)]
fn field_spot<'f, 't, 'a>(
    fields: &'f [(&'a str, FieldValue<'t, 'a>)],
    name: &str,
) -> FieldSpot<'f, 't, 'a>
    ensures { spot_found result ≡ answer_from name.now None (field_list fields.now) }
{
    if name.len() < 8 {
        field_spot_in(fields, name)
    } else if name.len() <= 16 {
        field_spot_in(fields, name)
    } else {
        field_spot_of_long(fields, name)
    }
}

// The same out of line.
#[inline(never)]
fn field_spot_of_long<'f, 't, 'a>(
    fields: &'f [(&'a str, FieldValue<'t, 'a>)],
    name: &str,
) -> FieldSpot<'f, 't, 'a>
    ensures { spot_found result ≡ answer_from name.now None (field_list fields.now) }
{
    field_spot_in(fields, name)
}

// The member of that name among fields, if just one has it.
#[inline]
pub(crate) fn find_field<'t, 'a>(
    fields: &[(&'a str, FieldValue<'t, 'a>)],
    name: &str,
) -> Found<'t, 'a>
    ensures { result ≡ answer_from name.now None (field_list fields.now) }
{
    match field_spot(fields, name) {
        FieldSpot::Nowhere => Found::Missing,
        FieldSpot::Once(value) => Found::Once(value.tree()),
        FieldSpot::Repeated => Found::Repeated,
    }
}

// The value of the last of these fields with that name.
#[inline(never)]
pub(crate) fn get_field<'t, 'a>(
    fields: &[(&'a str, FieldValue<'t, 'a>)],
    name: &str,
) -> Option<Tree<'t, 'a>>
    ensures { result ≡ get_in name.now (field_list fields.now) }
{
    let mut last = None;
    for field in fields {
        if field.0 == name {
            last = Some(field.1.tree());
        }
    }
    last
}

// The same of the members of a JSON text.
pub(crate) fn get_member<'t, 'a>(all: TapeMembers<'t, 'a>, name: &str) -> Option<Tree<'t, 'a>>
    ensures { result ≡ get_in name.now all.entry }
{
    let mut members = all;
    let mut last = None;
    while let Some((key, tree)) = members.take_member() {
        if key == name {
            last = Some(Tree {
                source: Source::Tape(tree),
            });
        }
    }
    last
}
