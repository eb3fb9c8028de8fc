//! Faults as one says them to who fills in a form.
ghost use Rattle.std.specs.Prelude.{◌≡◌, ◌++◌, ◌∷◌, [], IfOk, OnOk, codes, map, take};
ghost use Rattle.std.specs.Option.{option_map};
ghost use Rattle.garde_i18n.specs.Datum.{named, with_param};
ghost use Rattle.garde_html.specs.Summary.{first_text};
ghost use Rattle.garde_html.specs.Worded.{about, again_entries, is_again, left_said, said_of, worded, worded_entry, worded_field, worded_message};

use crate::controls::{Typed, is_faulty};
use crate::form::{Control, Field, field_at, typed_text};
use crate::summary::first_text;
use garde_i18n::{Code, I18n, Named, Value};
use garde_report::{Error, Path, Report, RuleError};
use std::alloc::{AllocError, Global};

/// How many faults of a report a page has. Nobody makes more but by the thousand.
const MOST: usize = 100;

/// A code whose parameter is the label of a field, and what it says in English where a handler does not
/// know it.
#[derive(Clone, Copy)]
struct Said {
    code: &'static str,
    english: &'static str,
}

const EMPTY: Said = Said {
    code: "field_empty",
    english: "fill this in",
};

const UNCHOSEN: Said = Said {
    code: "field_unchosen",
    english: "choose one of these",
};

const AGAIN: Said = Said {
    code: "field_again",
    english: "type this again",
};

// What is said of a field that was left empty. Each box may be left as it is.
fn left_said(field: &Field<'_>) -> Option<Said>
    ensures { option_map (λ said. said_of said) result ≡ left_said field.now.control }
{
    match field.control {
        Control::Line(_) | Control::Area | Control::Password => Some(EMPTY),
        Control::Radios(_) | Control::Select(_) => Some(UNCHOSEN),
        Control::Boxes(_) => None,
    }
}

// The message that says this of a field.
fn about<H: I18n>(alloc: Global, said: Said, field: &Field<'_>, h: &H) -> Result<Error, AllocError>
    ensures { IfOk result (λ error. error ≡ about (H.text h.now) (said_of said) field.now.label.now) }
{
    let code = Code {
        name: said.code,
        param: Some(("label", Value::Text(field.label))),
    };
    let english = said.english;
    match RuleError::of(alloc, h.named(alloc, Named { code, english })) {
        RuleError::Fault(error) => Ok(error),
        RuleError::Memory => Err(AllocError),
    }
}

// The message of a fault of a field.
fn worded_field<H: I18n>(
    alloc: Global,
    field: &Field<'_>,
    typed: Typed<'_>,
    error: &Error,
    h: &H,
) -> Result<Error, AllocError>
    ensures { IfOk result (λ message.
        message ≡ worded_field (H.text h.now) field.now typed.now error.now) }
{
    match left_said(field) {
        Some(said) if typed_text(typed, field.name).trim().is_empty() => about(
            alloc, said, field, h,
        ),
        _ => error.clone(),
    }
}

// The message of a fault under a path.
fn worded_message<H: I18n>(
    alloc: Global,
    fields: &[Field<'_>],
    typed: Typed<'_>,
    path: &Path,
    error: &Error,
    h: &H,
) -> Result<Error, AllocError>
    ensures { IfOk result (λ message. message
        ≡ worded_message (H.text h.now) fields.now typed.now (first_text path.now) error.now) }
{
    let Some(name) = first_text(alloc, path)? else {
        return error.clone();
    };
    match field_at(fields, name) {
        Some(field) => worded_field(alloc, field, typed, error, h),
        None => error.clone(),
    }
}

// Whether a password was typed and has no fault.
fn is_again(field: &Field<'_>, typed: Typed<'_>, report: &Report) -> bool
    ensures { result ≡ is_again field.now typed.now report.now }
{
    match field.control {
        Control::Password => !typed_text(typed, field.name).is_empty() && !is_faulty(report, field),
        _ => false,
    }
}

// Asks for the passwords that were typed and have no fault again.
fn put_again<H: I18n>(
    alloc: Global,
    fields: &[Field<'_>],
    typed: Typed<'_>,
    report: &Report,
    h: &H,
    told: &mut Report,
) -> Result<(), AllocError>
    ensures { OnOk result (told.new
        ≡ told.old ++ again_entries (H.text h.now) typed.now report.now fields.now) }
{
    for field in fields {
        if is_again(field, typed, report) {
            told.append(
                Path::new(alloc, field.name)?,
                about(alloc, AGAIN, field, h)?,
            )?;
        }
    }
    Ok(())
}

/// The report of a form as a page words it for who filled it in, by the texts of a handler: of a field
/// that was left empty each fault asks to fill it in, and a password that was right, which no page shows
/// again, is to be typed again. The messages name the field by its label. Faults beyond the first 100 are
/// left out.
pub fn worded_report<H: I18n>(
    alloc: Global,
    fields: &[Field<'_>],
    typed: &[(&str, &str)],
    report: &Report,
    h: &H,
) -> Result<Report, AllocError>
    ensures { IfOk result (λ told. told ≡ worded (H.text h.now) fields.now typed.now report.now) }
{
    let (mut told, mut first) = (Report::new(alloc), report.clone()?);
    first.truncate(MOST);
    for (path, error) in first.iter() {
        let message = worded_message(alloc, fields, typed, path, error, h)?;
        told.append(path.clone()?, message)?;
    }
    put_again(alloc, fields, typed, report, h, &mut told)?;
    Ok(told)
}
