//! The faults of each field of a form, and those of no field.
ghost use Rattle.std.specs.Prelude.{◌≡◌, ◌∷◌, [], ◌<◌, ◌^◌, IfOk, length, map};
ghost use Rattle.std.specs.Option.{option_map};
ghost use Rattle.garde_report.specs.Report.{messages_under};
ghost use Rattle.garde_html.specs.Fields.{field_named, field_of, other_faults, texts_of};

use garde_report::{Error, Path, Report, Select, select};
use std::alloc::{AllocError, Global};
use std::slice;

/// The messages of the faults at a field and under it, in the order of the report: those that stand
/// beside the field on a page. They are what `select` gives of its name.
pub fn field_faults<'a>(report: &'a Report, field: &'a &'a str) -> Select<'a>
    ensures faults { result ≡ messages_under (field.now.now ∷ []) report.now }
    ensures bound { length result < 2 ^ 64 }
{
    select(report, slice::from_ref(field))
}

/// The first of these fields whose name the text is.
fn field_named<'a>(text: &str, fields: &[&'a str]) -> Option<&'a str>
    ensures { option_map (λ field. field.now) result ≡ field_named (texts_of fields.now) text.now }
{
    for field in fields {
        if text == *field {
            return Some(field);
        }
    }
    None
}

/// The field at which or under which a path stands, or `None` where it stands at none of these. A path
/// of more than 8 components allocates.
pub fn field_of<'a>(
    alloc: Global,
    path: &Path,
    fields: &[&'a str],
) -> Result<Option<&'a str>, AllocError>
    ensures { IfOk result (λ found.
        option_map (λ field. field.now) found ≡ field_of (texts_of fields.now) path.now) }
{
    let mut components = path.iter(alloc)?;
    match components.next_back() {
        Some((_kind, text)) => Ok(field_named(text, fields)),
        None => Ok(None),
    }
}

/// The faults at none of these fields, in the order of the report: those that a page has no place for
/// but its summary.
pub fn other_faults<'a>(
    alloc: Global,
    report: &'a Report,
    fields: &[&str],
) -> Result<Vec<&'a (Path, Error)>, AllocError>
    ensures { IfOk result (λ faults.
        map (λ fault. fault.now) faults.items ≡ other_faults (texts_of fields.now) report.now) }
{
    let mut others = Vec::new(alloc);
    for fault in report.iter() {
        if field_of(alloc, &fault.0, fields)?.is_none() {
            others.push(fault)?;
        }
    }
    Ok(others)
}
