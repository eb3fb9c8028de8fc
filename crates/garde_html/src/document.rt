//! A form as a page.
ghost use Rattle.std.specs.Prelude.{◌≡◌, ◌++◌, IfOk, OnOk};
ghost use Rattle.garde_html.specs.Document.{begin_pieces, form_pieces, head_pieces, heading_pieces, title_of};

use crate::controls::put_fields;
use crate::form::Form;
use crate::page::Page;
use crate::page::Piece::{Markup, Text};
use crate::style::STYLE;
use crate::summary::put_summary;
use garde_report::Report;
use std::alloc::{AllocError, Global};

const BEGIN: &str = "<!DOCTYPE html>\n<html lang=\"";

const DIRECTION: &str = "\" dir=\"";

const TITLE: &str =
    "\">\n<head>\n<meta charset=\"utf-8\">\n<meta name=\"viewport\" content=\"width=device-width, initial-scale=1\">\n<title>";

const STYLE_BEGIN: &str = "</title>\n<style>";

const STYLE_END: &str = "</style>\n</head>\n<body>\n<main>\n<h1>";

const HEADING_END: &str = "</h1>\n";

const FORM: &str = "<form method=\"post\" action=\"";

const FORM_END: &str = "\" novalidate>\n";

const SEND: &str = "<button>";

const END: &str = "</button>\n</form>\n</main>\n</body>\n</html>\n";

// The title of a page.
fn title_of<'a>(form: &Form<'a>, report: &Report) -> &'a str
    ensures { result.now ≡ title_of form.now report.now }
{
    if report.is_empty() {
        form.title
    } else {
        form.faulty_title
    }
}

// The beginning of a page, up to its title.
fn put_begin<'a>(page: &mut Page<'a>, form: &Form<'a>, title: &'a str) -> Result<(), AllocError>
    ensures { OnOk result (page.new ≡ page.old ++ begin_pieces form.now title.now) }
{
    page.put(&[
        Markup(BEGIN),
        Text(form.language),
        Markup(DIRECTION),
        Text(form.direction),
        Markup(TITLE),
        Text(title),
    ])
}

// How a page looks, and its heading.
fn put_heading<'a>(page: &mut Page<'a>, heading: &'a str) -> Result<(), AllocError>
    ensures { OnOk result (page.new ≡ page.old ++ heading_pieces heading.now) }
{
    page.put(&[
        Markup(STYLE_BEGIN),
        Markup(STYLE),
        Markup(STYLE_END),
        Text(heading),
        Markup(HEADING_END),
    ])
}

// What stands before the faults.
fn put_head<'a>(page: &mut Page<'a>, form: &Form<'a>, title: &'a str) -> Result<(), AllocError>
    ensures { OnOk result (page.new ≡ page.old ++ head_pieces form.now title.now) }
{
    put_begin(page, form, title)?;
    put_heading(page, form.title)
}

/// The page of a form: above it each fault of the report once, in order, with a link to its field if it
/// has one; each field with what was typed, but for passwords, and with the faults at it and under it.
/// The title says that there are faults, if there are any. A fault at more than 8 components allocates.
pub fn form_page<'a>(
    alloc: Global,
    form: &Form<'a>,
    typed: &'a [(&'a str, &'a str)],
    report: &'a Report,
) -> Result<Page<'a>, AllocError>
    ensures { IfOk result (λ page. page ≡ form_pieces form.now typed.now report.now) }
{
    let mut page = Page::new(alloc);
    put_head(&mut page, form, title_of(form, report))?;
    put_summary(alloc, &mut page, form, report)?;
    page.put(&[Markup(FORM), Text(form.action), Markup(FORM_END)])?;
    put_fields(&mut page, form.fields, typed, report)?;
    page.put(&[Markup(SEND), Text(form.send), Markup(END)])?;
    Ok(page)
}
