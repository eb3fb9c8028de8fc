//! The fields of a form on a page.
ghost use Rattle.std.specs.Prelude.{◌≡◌, ◌++◌, ◌∷◌, [], OnOk};
ghost use Rattle.garde_report.specs.Report.{messages_under};
ghost use Rattle.garde_html.specs.Form.{typed_text};
ghost use Rattle.garde_html.specs.Controls.{area_pieces, begin_pieces, box_pieces, boxes_pieces, control_pieces, field_pieces, fields_pieces, group_pieces, is_faulty, label_pieces, line_pieces, list_pieces, messages_pieces, names_pieces, option_pieces, options_pieces, radio_pieces, radio_group_pieces, radios_pieces, rest_pieces, select_pieces, value_pieces};

use crate::faults::field_faults;
use crate::form::{Control, Field, is_checked, typed_text};
use crate::marks::{REQUIRED, mark, put_end, put_hint, put_marks};
use crate::page::Page;
use crate::page::Piece::{Markup, Text};
use garde_report::Report;
use std::alloc::AllocError;

/// What a visitor sent: each name with its text.
pub(crate) type Typed<'a> = &'a [(&'a str, &'a str)];

const FIELD: &str = "<div class=\"field\">\n";

const FIELD_END: &str = "\n</div>\n";

const LABEL: &str = "<label for=\"field-";

const LABEL_TEXT: &str = "\">";

const LABEL_END: &str = "</label>\n";

const INPUT: &str = "<input id=\"field-";

const AREA: &str = "<textarea id=\"field-";

const SELECT: &str = "<select id=\"field-";

const NAME: &str = "\" name=\"";

const TYPE: &str = "\" dir=\"auto\" type=\"";

const VALUE: &str = "\" value=\"";

const AREA_TYPE: &str = "\" dir=\"auto\" rows=\"5";

// The first line feed is no part of the text.
const AREA_TEXT: &str = "\n";

const AREA_END: &str = "</textarea>";

const OPTION: &str = "<option value=\"";

const SELECTED: &str = "\" selected=\"";

const OPTION_TEXT: &str = "\">";

const OPTION_END: &str = "</option>\n";

const SELECT_END: &str = "</select>";

const GROUP: &str = "<fieldset id=\"field-";

const LEGEND: &str = "\" tabindex=\"-1\"><legend>";

const LEGEND_END: &str = "</legend>\n";

const RADIO_GROUP: &str = "\" tabindex=\"-1\" role=\"radiogroup";

const RADIO_LEGEND: &str = "<legend>";

const RADIO: &str = "<label><input type=\"radio\" name=\"";

const RADIO_TEXT: &str = "\"> ";

const GROUP_END: &str = "</fieldset>";

const BOX: &str = "<label><input type=\"checkbox\" name=\"";

const CHECKED: &str = "\" checked=\"";

const BOX_TEXT: &str = " ";

const BOX_END: &str = "</label>\n";

const LIST: &str = "\n<ul class=\"faults\" id=\"faults-";

const LIST_ID: &str = "\">\n";

const LIST_END: &str = "</ul>";

const MESSAGE: &str = "<li>";

const MESSAGE_END: &str = "</li>\n";

/// Whether a field has a fault.
pub(crate) fn is_faulty(report: &Report, field: &Field<'_>) -> bool
    ensures { result ≡ is_faulty field.now report.now }
{
    field_faults(report, &field.name).next().is_some()
}

// The label of a line.
fn put_label<'a>(page: &mut Page<'a>, field: &'a Field<'a>) -> Result<(), AllocError>
    ensures { OnOk result (page.new ≡ page.old ++ label_pieces field.now) }
{
    page.put(&[
        Markup(LABEL),
        Text(field.name),
        Markup(LABEL_TEXT),
        Text(field.label),
        Markup(LABEL_END),
    ])
}

// The name of a control on the page and in what is sent.
fn put_names<'a>(page: &mut Page<'a>, tag: &'static str, name: &'a str) -> Result<(), AllocError>
    ensures { OnOk result (page.new ≡ page.old ++ names_pieces tag.now name.now) }
{
    page.put(&[Markup(tag), Text(name), Markup(NAME), Text(name)])
}

// The beginning of a control with this tag, up to its names.
fn put_begin<'a>(
    page: &mut Page<'a>,
    tag: &'static str,
    field: &'a Field<'a>,
) -> Result<(), AllocError>
    ensures { OnOk result (page.new ≡ page.old ++ begin_pieces tag.now field.now) }
{
    put_label(page, field)?;
    put_hint(page, field)?;
    put_names(page, tag, field.name)
}

// What a control says behind its names and its text.
fn put_rest<'a>(page: &mut Page<'a>, field: &'a Field<'a>, faulty: bool) -> Result<(), AllocError>
    ensures { OnOk result (page.new ≡ page.old ++ rest_pieces field.now faulty) }
{
    put_marks(page, field)?;
    put_end(page, field, faulty)
}

// The type and the text of a line.
fn put_value<'a>(page: &mut Page<'a>, kind: &'a str, text: &'a str) -> Result<(), AllocError>
    ensures { OnOk result (page.new ≡ page.old ++ value_pieces kind.now text.now) }
{
    page.put(&[Markup(TYPE), Text(kind), Markup(VALUE), Text(text)])
}

// A line with this text in it.
fn put_line<'a>(
    page: &mut Page<'a>,
    field: &'a Field<'a>,
    kind: &'a str,
    text: &'a str,
    faulty: bool,
) -> Result<(), AllocError>
    ensures { OnOk result (page.new ≡ page.old ++ line_pieces field.now kind.now text.now faulty) }
{
    put_begin(page, INPUT, field)?;
    put_value(page, kind, text)?;
    put_rest(page, field, faulty)
}

// A line with what was typed in it.
fn put_typed<'a>(
    page: &mut Page<'a>,
    field: &'a Field<'a>,
    kind: &'a str,
    typed: Typed<'a>,
    faulty: bool,
) -> Result<(), AllocError>
    ensures { OnOk result (page.new
        ≡ page.old ++ line_pieces field.now kind.now (typed_text field.now.name.now typed.now) faulty) }
{
    put_line(page, field, kind, typed_text(typed, field.name), faulty)
}

// A text of several lines, with this text in it.
fn put_area<'a>(
    page: &mut Page<'a>,
    field: &'a Field<'a>,
    text: &'a str,
    faulty: bool,
) -> Result<(), AllocError>
    ensures { OnOk result (page.new ≡ page.old ++ area_pieces field.now text.now faulty) }
{
    put_begin(page, AREA, field)?;
    page.put(&[Markup(AREA_TYPE)])?;
    put_rest(page, field, faulty)?;
    page.put(&[Markup(AREA_TEXT), Text(text), Markup(AREA_END)])
}

// The same, with what was typed.
fn put_typed_area<'a>(
    page: &mut Page<'a>,
    field: &'a Field<'a>,
    typed: Typed<'a>,
    faulty: bool,
) -> Result<(), AllocError>
    ensures { OnOk result (page.new
        ≡ page.old ++ area_pieces field.now (typed_text field.now.name.now typed.now) faulty) }
{
    put_area(page, field, typed_text(typed, field.name), faulty)
}

// A line of a list.
fn put_option<'a>(
    page: &mut Page<'a>,
    one: &'a (&'a str, &'a str),
    selected: bool,
) -> Result<(), AllocError>
    ensures { OnOk result (page.new ≡ page.old ++ option_pieces one.now selected) }
{
    page.put(&[
        Markup(OPTION),
        Text(one.0),
        Markup(mark(SELECTED, selected)),
        Markup(OPTION_TEXT),
        Text(one.1),
        Markup(OPTION_END),
    ])
}

// The lines of a list.
fn put_options<'a>(
    page: &mut Page<'a>,
    field: &'a Field<'a>,
    options: &'a [(&'a str, &'a str)],
    typed: Typed<'a>,
) -> Result<(), AllocError>
    ensures { OnOk result (page.new ≡ page.old ++ options_pieces field.now typed.now options.now) }
{
    for one in options {
        put_option(page, one, is_checked(typed, field.name, one.0))?;
    }
    Ok(())
}

// A list with its label.
fn put_select<'a>(
    page: &mut Page<'a>,
    field: &'a Field<'a>,
    options: &'a [(&'a str, &'a str)],
    typed: Typed<'a>,
    faulty: bool,
) -> Result<(), AllocError>
    ensures { OnOk result (page.new ≡ page.old ++ select_pieces field.now typed.now faulty options.now) }
{
    put_begin(page, SELECT, field)?;
    put_rest(page, field, faulty)?;
    put_options(page, field, options, typed)?;
    page.put(&[Markup(SELECT_END)])
}

// A button.
fn put_radio<'a>(
    page: &mut Page<'a>,
    field: &'a Field<'a>,
    one: &'a (&'a str, &'a str),
    pressed: bool,
) -> Result<(), AllocError>
    ensures { OnOk result (page.new ≡ page.old ++ radio_pieces field.now one.now pressed) }
{
    page.put(&[
        Markup(RADIO),
        Text(field.name),
        Markup(VALUE),
        Text(one.0),
        Markup(mark(CHECKED, pressed)),
        Markup(RADIO_TEXT),
        Text(one.1),
        Markup(BOX_END),
    ])
}

// The buttons of a field.
fn put_radios<'a>(
    page: &mut Page<'a>,
    field: &'a Field<'a>,
    buttons: &'a [(&'a str, &'a str)],
    typed: Typed<'a>,
) -> Result<(), AllocError>
    ensures { OnOk result (page.new ≡ page.old ++ radios_pieces field.now typed.now buttons.now) }
{
    for one in buttons {
        put_radio(page, field, one, is_checked(typed, field.name, one.0))?;
    }
    Ok(())
}

// The buttons of a field under its label. What is said of a field is said of them all.
fn put_radio_group<'a>(
    page: &mut Page<'a>,
    field: &'a Field<'a>,
    buttons: &'a [(&'a str, &'a str)],
    typed: Typed<'a>,
    faulty: bool,
) -> Result<(), AllocError>
    ensures { OnOk result (page.new
        ≡ page.old ++ radio_group_pieces field.now typed.now faulty buttons.now) }
{
    page.put(&[
        Markup(GROUP),
        Text(field.name),
        Markup(RADIO_GROUP),
        Markup(mark(REQUIRED, field.required)),
    ])?;
    put_end(page, field, faulty)?;
    page.put(&[Markup(RADIO_LEGEND), Text(field.label), Markup(LEGEND_END)])?;
    put_hint(page, field)?;
    put_radios(page, field, buttons, typed)?;
    page.put(&[Markup(GROUP_END)])
}

// A box to check.
fn put_box<'a>(
    page: &mut Page<'a>,
    field: &'a Field<'a>,
    one: &'a (&'a str, &'a str),
    checked: bool,
    faulty: bool,
) -> Result<(), AllocError>
    ensures { OnOk result (page.new ≡ page.old ++ box_pieces field.now one.now checked faulty) }
{
    page.put(&[
        Markup(BOX),
        Text(field.name),
        Markup(VALUE),
        Text(one.0),
        Markup(mark(CHECKED, checked)),
        Markup(mark(REQUIRED, field.required)),
    ])?;
    put_end(page, field, faulty)?;
    page.put(&[Markup(BOX_TEXT), Text(one.1), Markup(BOX_END)])
}

// The boxes of a field.
fn put_boxes<'a>(
    page: &mut Page<'a>,
    field: &'a Field<'a>,
    boxes: &'a [(&'a str, &'a str)],
    typed: Typed<'a>,
    faulty: bool,
) -> Result<(), AllocError>
    ensures { OnOk result (page.new
        ≡ page.old ++ boxes_pieces field.now typed.now faulty boxes.now) }
{
    for one in boxes {
        put_box(
            page,
            field,
            one,
            is_checked(typed, field.name, one.0),
            faulty,
        )?;
    }
    Ok(())
}

// The boxes of a field under its label.
fn put_group<'a>(
    page: &mut Page<'a>,
    field: &'a Field<'a>,
    boxes: &'a [(&'a str, &'a str)],
    typed: Typed<'a>,
    faulty: bool,
) -> Result<(), AllocError>
    ensures { OnOk result (page.new
        ≡ page.old ++ group_pieces field.now typed.now faulty boxes.now) }
{
    page.put(&[
        Markup(GROUP),
        Text(field.name),
        Markup(LEGEND),
        Text(field.label),
        Markup(LEGEND_END),
    ])?;
    put_hint(page, field)?;
    put_boxes(page, field, boxes, typed, faulty)?;
    page.put(&[Markup(GROUP_END)])
}

// What a visitor fills in, as it was filled in, but for a password.
fn put_control<'a>(
    page: &mut Page<'a>,
    field: &'a Field<'a>,
    typed: Typed<'a>,
    faulty: bool,
) -> Result<(), AllocError>
    ensures { OnOk result (page.new ≡ page.old ++ control_pieces field.now typed.now faulty) }
{
    match field.control {
        Control::Line(kind) => put_typed(page, field, kind, typed, faulty),
        Control::Area => put_typed_area(page, field, typed, faulty),
        Control::Password => put_line(page, field, "password", "", faulty),
        Control::Boxes(boxes) => put_group(page, field, boxes, typed, faulty),
        Control::Radios(buttons) => put_radio_group(page, field, buttons, typed, faulty),
        Control::Select(options) => put_select(page, field, options, typed, faulty),
    }
}

// The messages beside a field, one after the other.
fn put_messages<'a>(
    page: &mut Page<'a>,
    field: &'a Field<'a>,
    report: &'a Report,
) -> Result<(), AllocError>
    ensures { OnOk result (page.new
        ≡ page.old ++ messages_pieces (messages_under (field.now.name.now ∷ []) report.now)) }
{
    for error in field_faults(report, &field.name) {
        page.put(&[Markup(MESSAGE), Text(error.message()), Markup(MESSAGE_END)])?;
    }
    Ok(())
}

// The list of the messages beside a field, if there is one.
fn put_list<'a>(
    page: &mut Page<'a>,
    field: &'a Field<'a>,
    report: &'a Report,
    faulty: bool,
) -> Result<(), AllocError>
    ensures { OnOk result (page.new ≡ page.old ++ list_pieces field.now report.now faulty) }
{
    if !faulty {
        return Ok(());
    }
    page.put(&[Markup(LIST), Text(field.name), Markup(LIST_ID)])?;
    put_messages(page, field, report)?;
    page.put(&[Markup(LIST_END)])
}

// A field with its messages.
fn put_field<'a>(
    page: &mut Page<'a>,
    field: &'a Field<'a>,
    typed: Typed<'a>,
    report: &'a Report,
) -> Result<(), AllocError>
    ensures { OnOk result (page.new ≡ page.old ++ field_pieces field.now typed.now report.now) }
{
    let faulty = is_faulty(report, field);
    page.put(&[Markup(FIELD)])?;
    put_control(page, field, typed, faulty)?;
    put_list(page, field, report, faulty)?;
    page.put(&[Markup(FIELD_END)])
}

/// All fields in their order.
pub(crate) fn put_fields<'a>(
    page: &mut Page<'a>,
    fields: &'a [Field<'a>],
    typed: Typed<'a>,
    report: &'a Report,
) -> Result<(), AllocError>
    ensures { OnOk result (page.new ≡ page.old ++ fields_pieces typed.now report.now fields.now) }
{
    for field in fields {
        put_field(page, field, typed, report)?;
    }
    Ok(())
}
