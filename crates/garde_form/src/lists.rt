//! The fields whose texts are one list.
ghost use Rattle.std.specs.Prelude.{◌≡◌, IfOk, map, option_map};
ghost use Rattle.garde_form.specs.Members.{named, list_under, lists_of};
ghost use Rattle.garde_form.specs.WebForm.{field_texts, texts_of};

use crate::web_form::FormField;
use std::alloc::{AllocError, Global};

// The texts of all fields of a name.
#[derive(Drop)]
pub(crate) struct NamedTexts<'n, 'a> {
    pub(crate) name: &'n str,
    pub(crate) texts: Vec<&'a str>,
}

// The texts of the fields of this name, in their order.
fn texts_of<'a>(
    alloc: Global,
    fields: &'a [FormField<'_>],
    name: &str,
) -> Result<Vec<&'a str>, AllocError>
    ensures { IfOk result (λ texts. map (λ s. s.now) texts.items ≡ texts_of name.now (field_texts fields.now)) }
{
    let mut texts = Vec::new(alloc);
    for field in fields {
        if field.0.as_str() == name {
            texts.push(field.1.as_str())?;
        }
    }
    Ok(texts)
}

// For each of these names the texts of its fields.
pub(crate) fn named_texts<'n, 'a>(
    alloc: Global,
    fields: &'a [FormField<'_>],
    names: &[&'n str],
) -> Result<Vec<NamedTexts<'n, 'a>>, AllocError>
    ensures { IfOk result (λ lists. map named lists.items ≡ lists_of names.now (field_texts fields.now)) }
{
    let mut lists = Vec::new(alloc);
    for name in names {
        let texts = texts_of(alloc, fields, *name)?;
        lists.push(NamedTexts { name: *name, texts })?;
    }
    Ok(lists)
}

// The texts that stand under this name.
pub(crate) fn list_under<'t, 'a>(
    lists: &'t [NamedTexts<'_, 'a>],
    name: &str,
) -> Option<&'t [&'a str]>
    ensures { option_map (λ texts. map (λ s. s.now) texts.now) result ≡ list_under name.now (map named lists.now) }
{
    for list in lists {
        if name == list.name {
            return Some(list.texts.as_slice());
        }
    }
    None
}
