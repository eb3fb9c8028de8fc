//! The list of all faults above a form.
ghost use Rattle.std.specs.Prelude.{◌≡◌, ◌++◌, IfOk, OnOk};
ghost use Rattle.std.specs.Option.{option_map};
ghost use Rattle.garde_html.specs.Form.{field_at};
ghost use Rattle.garde_html.specs.Summary.{entries_pieces, entry_pieces, first_text, has_part, label_pieces, named_pieces, summary_pieces};

use crate::form::{Field, Form, field_at};
use crate::page::Page;
use crate::page::Piece::{Markup, Text};
use garde_report::{Path, Report};
use std::alloc::{AllocError, Global};

const SUMMARY: &str = "<div class=\"summary\" role=\"alert\" tabindex=\"-1\" autofocus=\"\">\n<h2>";

const SUMMARY_LIST: &str = "</h2>\n<ul>\n";

const SUMMARY_END: &str = "</ul>\n</div>\n";

const LINK: &str = "<li><a href=\"#field-";

const LINK_TEXT: &str = "\">";

const LINK_END: &str = "</a></li>\n";

const NAMED: &str = "<li><bdi>";

const NAMED_SAYS: &str = "</bdi>: ";

const ITEM: &str = "<li>";

const SAYS: &str = ": ";

const ITEM_END: &str = "</li>\n";

/// The text of the first component of a path.
pub(crate) fn first_text(alloc: Global, path: &Path) -> Result<Option<&str>, AllocError>
    ensures { IfOk result (λ found. option_map (λ text. text.now) found ≡ first_text path.now) }
{
    let mut components = path.iter(alloc)?;
    match components.next_back() {
        Some((_kind, text)) => Ok(Some(text)),
        None => Ok(None),
    }
}

// Whether a text has another one as a part, byte by byte.
#[tactic(auto, using(crate::proofs::Parts::found))]
fn has_part(text: &[u8], part: &[u8]) -> bool
    ensures { result ≡ has_part part.now text.now }
{
    for at in 0..text.len() {
        if text[at..].starts_with(part) {
            return true;
        }
    }
    false
}

// The label before a message that does not name it.
fn put_label<'a>(page: &mut Page<'a>, label: &'a str, message: &str) -> Result<(), AllocError>
    ensures { OnOk result (page.new
        ≡ page.old ++ label_pieces (has_part label.now message.now) label.now) }
{
    if has_part(message.as_bytes(), label.as_bytes()) {
        return Ok(());
    }
    page.put(&[Text(label), Markup(SAYS)])
}

// A fault under this name: it leads to the field, if there is one.
fn put_named<'a>(
    page: &mut Page<'a>,
    fields: &'a [Field<'a>],
    name: &'a str,
    message: &'a str,
) -> Result<(), AllocError>
    ensures { OnOk result (page.new
        ≡ page.old ++ named_pieces (field_at fields.now name.now) name.now message.now) }
{
    match field_at(fields, name) {
        Some(field) => {
            page.put(&[Markup(LINK), Text(field.name), Markup(LINK_TEXT)])?;
            put_label(page, field.label, message)?;
            page.put(&[Text(message), Markup(LINK_END)])
        }
        None => page.put(&[
            Markup(NAMED),
            Text(name),
            Markup(NAMED_SAYS),
            Text(message),
            Markup(ITEM_END),
        ]),
    }
}

// A fault.
fn put_entry<'a>(
    alloc: Global,
    page: &mut Page<'a>,
    fields: &'a [Field<'a>],
    path: &'a Path,
    message: &'a str,
) -> Result<(), AllocError>
    ensures { OnOk result (page.new
        ≡ page.old ++ entry_pieces fields.now (first_text path.now) message.now) }
{
    match first_text(alloc, path)? {
        Some(name) => put_named(page, fields, name, message),
        None => page.put(&[Markup(ITEM), Text(message), Markup(ITEM_END)]),
    }
}

// All faults in the order of the report.
fn put_entries<'a>(
    alloc: Global,
    page: &mut Page<'a>,
    fields: &'a [Field<'a>],
    report: &'a Report,
) -> Result<(), AllocError>
    ensures { OnOk result (page.new ≡ page.old ++ entries_pieces fields.now report.now) }
{
    for (path, error) in report.iter() {
        put_entry(alloc, page, fields, path, error.message())?;
    }
    Ok(())
}

/// The list of all faults, if there is one.
pub(crate) fn put_summary<'a>(
    alloc: Global,
    page: &mut Page<'a>,
    form: &Form<'a>,
    report: &'a Report,
) -> Result<(), AllocError>
    ensures { OnOk result (page.new ≡ page.old ++ summary_pieces form.now report.now) }
{
    if report.is_empty() {
        return Ok(());
    }
    page.put(&[Markup(SUMMARY), Text(form.summary), Markup(SUMMARY_LIST)])?;
    put_entries(alloc, page, form.fields, report)?;
    page.put(&[Markup(SUMMARY_END)])
}
