//! What the fields of a form say besides their names and texts: by attributes, and by hints.
ghost use Rattle.std.specs.Prelude.{◌≡◌, ◌++◌, ◌∷◌, [], OnOk};
ghost use Rattle.garde_html.specs.Marks.{attribute_pieces, control_end, described_pieces, hint_pieces, mark, marks_pieces};

use crate::form::Field;
use crate::page::Page;
use crate::page::Piece::{Markup, Text};
use std::alloc::AllocError;

const HINT: &str = "<p class=\"hint\" id=\"hint-";

const HINT_TEXT: &str = "\">";

const HINT_END: &str = "</p>\n";

const AUTOCOMPLETE: &str = "\" autocomplete=\"";

const INPUT_MODE: &str = "\" inputmode=\"";

/// That a field has to be filled in. By `required` a browser takes an empty box for faulty at once.
pub(crate) const REQUIRED: &str = "\" aria-required=\"true";

const INVALID: &str = "\" aria-invalid=\"true";

const BY_HINT: &str = "\" aria-describedby=\"hint-";

const AND_FAULTS: &str = " faults-";

const BY_FAULTS: &str = "\" aria-describedby=\"faults-";

const CONTROL_END: &str = "\">";

/// This markup, or none.
pub(crate) fn mark(markup: &'static str, there: bool) -> &'static str
    ensures { result.now ≡ mark markup.now there }
{
    if there { markup } else { "" }
}

/// What is said beforehand of a field, if there is anything.
pub(crate) fn put_hint<'a>(page: &mut Page<'a>, field: &'a Field<'a>) -> Result<(), AllocError>
    ensures { OnOk result (page.new ≡ page.old ++ hint_pieces field.now.name.now field.now.hint) }
{
    match field.hint {
        Some(hint) => page.put(&[
            Markup(HINT),
            Text(field.name),
            Markup(HINT_TEXT),
            Text(hint),
            Markup(HINT_END),
        ]),
        None => Ok(()),
    }
}

// An attribute that begins so, if it has a value.
fn put_attribute<'a>(
    page: &mut Page<'a>,
    begin: &'static str,
    value: Option<&'a str>,
) -> Result<(), AllocError>
    ensures { OnOk result (page.new ≡ page.old ++ attribute_pieces begin.now value.entry) }
{
    match value {
        Some(value) => page.put(&[Markup(begin), Text(value)]),
        None => Ok(()),
    }
}

/// What a browser may know of a line besides its type.
pub(crate) fn put_marks<'a>(page: &mut Page<'a>, field: &'a Field<'a>) -> Result<(), AllocError>
    ensures { OnOk result (page.new ≡ page.old ++ marks_pieces field.now) }
{
    put_attribute(page, AUTOCOMPLETE, field.autocomplete)?;
    put_attribute(page, INPUT_MODE, field.inputmode)?;
    page.put(&[Markup(mark(REQUIRED, field.required))])
}

// Names what describes a field: its hint, and the faults beside it.
fn put_described<'a>(
    page: &mut Page<'a>,
    name: &'a str,
    hint: Option<&'a str>,
    faulty: bool,
) -> Result<(), AllocError>
    ensures { OnOk result (page.new ≡ page.old ++ described_pieces name.now hint.entry faulty) }
{
    match (hint, faulty) {
        (Some(_), true) => page.put(&[Markup(BY_HINT), Text(name), Markup(AND_FAULTS), Text(name)]),
        (Some(_), false) => page.put(&[Markup(BY_HINT), Text(name)]),
        (None, true) => page.put(&[Markup(BY_FAULTS), Text(name)]),
        (None, false) => Ok(()),
    }
}

/// Ends a control. It says whether the field has faults, and names what describes it.
pub(crate) fn put_end<'a>(
    page: &mut Page<'a>,
    field: &'a Field<'a>,
    faulty: bool,
) -> Result<(), AllocError>
    ensures { OnOk result (page.new ≡ page.old ++ control_end field.now faulty) }
{
    page.put(&[Markup(mark(INVALID, faulty))])?;
    put_described(page, field.name, field.hint, faulty)?;
    page.put(&[Markup(CONTROL_END)])
}
