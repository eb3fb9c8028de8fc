//! The members that the fields of a web form are.
ghost use Rattle.std.specs.Prelude.{◌≡◌, ℕ, List, IfOk, OnOk, map};
ghost use Rattle.std.specs.Borrow.{Bor};
ghost use Rattle.json.specs.Json.{object};
ghost use Rattle.garde_tape.specs.Texts.{field_members};
ghost use Rattle.garde_form.specs.Members.{IsFieldAdded, named, lists_of};
ghost use Rattle.garde_form.specs.WebForm.{field_texts, first_member, form_json, is_listed, value_of};

use crate::lists::{NamedTexts, list_under};
use crate::web_form::FormField;
use garde_tape::FieldValue;
use std::alloc::{AllocError, Global};

// Whether the text is one of the names.
fn is_among(names: &[&str], text: &str) -> bool
    ensures { result ≡ is_listed names.now text.now }
{
    for name in names {
        if text == *name {
            return true;
        }
    }
    false
}

// Adds the member that a field of this name is, if no member of the name was added. Of a listed name
// it is the list, and the name is then seen.
fn add_field<'t, 'a>(
    lists: &'t [NamedTexts<'_, 'a>],
    seen: &mut Vec<&'a str>,
    name: &'a str,
    text: &'a str,
    members: &mut Vec<(&'a str, FieldValue<'t, 'a>)>,
) -> Result<(), AllocError>
    ensures { OnOk result ((names : List (Bor (List ℕ))) → (all : List (List ℕ × List ℕ))
        → map named lists.now ≡ lists_of names all
        → IsFieldAdded (first_member names name.now (value_of names all name.now text.now))
        seen.old.items seen.new.items members.old.items members.new.items) }
{
    if is_among(seen.as_slice(), name) {
        return Ok(());
    }
    match list_under(lists, name) {
        Some(texts) => {
            seen.push(name)?;
            members.push((name, FieldValue::Texts(texts)))?;
            Ok(())
        }
        None => {
            members.push((name, FieldValue::Text(text)))?;
            Ok(())
        }
    }
}

// The members that the fields are, where those of a listed name are one, with its texts.
pub(crate) fn form_members<'t, 'a>(
    alloc: Global,
    fields: &'a [FormField<'_>],
    lists: &'t [NamedTexts<'_, 'a>],
) -> Result<Vec<(&'a str, FieldValue<'t, 'a>)>, AllocError>
    ensures { IfOk result (λ members. (names : List (Bor (List ℕ)))
        → map named lists.now ≡ lists_of names (field_texts fields.now)
        → object (field_members members.items) ≡ form_json names (field_texts fields.now)) }
{
    let mut seen = Vec::new(alloc);
    let mut members = Vec::with_capacity(alloc, fields.len())?;
    for field in fields {
        add_field(
            lists,
            &mut seen,
            field.0.as_str(),
            field.1.as_str(),
            &mut members,
        )?;
    }
    Ok(members)
}
