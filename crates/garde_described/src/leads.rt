//! Where references lead.
ghost use Rattle.std.specs.Prelude.{◌≡◌, false, not, option_map, unwrap_or};
ghost use Rattle.std.specs.List.{list_any};
ghost use Rattle.garde.specs.Fields.{asks_as, is};
ghost use Rattle.garde.specs.Visits.{Visited};
ghost use Rattle.garde_described.specs.Faults.{target_of};
ghost use Rattle.garde_described.specs.Keywords.{keyword_of};
ghost use Rattle.garde_described.specs.Links.{leads_far, reference_links, step_leads, target_links};

use crate::keyword::Keyword;
use crate::reference::definition;
use garde::fields::{AsksAs, Is, Rules};
use garde::{I18n, Report, Trail};
use garde_schema::{Tree, TreeItems, TreeMembers};
use std::alloc::AllocError;

// How many schemas references and `allOf` may lead through.
const LONGEST: usize = 16;

// Whether references and `allOf` lead from a schema through more than `left` others.
#[cycle(leads)]
fn leads_far<'s, 'a>(root: &Tree<'s, 'a>, left: usize, schema: &Tree<'s, 'a>) -> bool
    ensures { result ≡ leads_far root.now left schema.now }
{
    if left == 0 {
        return true;
    }
    match schema.members() {
        Some(keywords) => any_leads(root, left - 1, keywords),
        None => false,
    }
}

// Whether one of these keywords leads through more than `left` schemas.
#[cycle(leads)]
fn any_leads<'s, 'a>(root: &Tree<'s, 'a>, left: usize, keywords: TreeMembers<'s, 'a>) -> bool
    ensures { result ≡ list_any (λ m. step_leads (leads_far root.now left) root.now (keyword_of m.0) m.1) keywords.entry }
{
    let mut rest = keywords;
    while let Some((name, value)) = rest.next() {
        if keyword_leads(root, left, Keyword::of(name), &value) {
            return true;
        }
    }
    false
}

// Whether a keyword leads through more than `left` schemas.
#[cycle(leads)]
fn keyword_leads<'s, 'a>(
    root: &Tree<'s, 'a>,
    left: usize,
    keyword: Keyword,
    value: &Tree<'s, 'a>,
) -> bool
    ensures { result ≡ step_leads (leads_far root.now left) root.now keyword value.now }
{
    match keyword {
        Keyword::Ref => match value.as_str() {
            Some(text) => target_leads(root, left, text),
            None => false,
        },
        Keyword::AllOf => match value.items() {
            Some(schemas) => item_leads(root, left, schemas),
            None => false,
        },
        _ => false,
    }
}

// Whether the schema that a reference means leads through more than `left` others.
#[cycle(leads)]
fn target_leads<'s, 'a>(root: &Tree<'s, 'a>, left: usize, text: &str) -> bool
    ensures { result ≡ unwrap_or (option_map (leads_far root.now left) (target_of root.now text.now)) false }
{
    if text == "#" {
        return leads_far(root, left, root);
    }
    match definition(root, text) {
        Some(schema) => leads_far(root, left, &schema),
        None => false,
    }
}

// Whether one of these schemas leads through more than `left` others.
#[cycle(leads)]
fn item_leads<'s, 'a>(root: &Tree<'s, 'a>, left: usize, schemas: TreeItems<'s, 'a>) -> bool
    ensures { result ≡ list_any (leads_far root.now left) schemas.entry }
{
    let mut rest = schemas;
    while let Some(schema) = rest.next() {
        if leads_far(root, left, &schema) {
            return true;
        }
    }
    false
}

// Asks that a schema is there, and that references lead from it to an end.
fn check_end<'a, H: I18n>(
    is_endless: bool,
    trail: &mut Trail<'a>,
    report: &mut Report,
    h: &H,
) -> Result<(), AllocError>
    ensures { Visited (is (asks_as "reference_endless" "leads back to itself, or through more than 16 schemas" (not is_endless)))
        (H.text h.now) trail.old trail.new report.old report.new result }
{
    let english = "leads back to itself, or through more than 16 schemas";
    Is(AsksAs("reference_endless", english, !is_endless)).ask(&(), trail, report, h)
}

// Asks that a reference means a schema from which references lead to an end.
fn check_target<'s, 'a, H: I18n>(
    root: &Tree<'s, 'a>,
    text: &str,
    trail: &mut Trail<'a>,
    report: &mut Report,
    h: &H,
) -> Result<(), AllocError>
    ensures { Visited (target_links root.now (target_of root.now text.now)) (H.text h.now)
        trail.old trail.new report.old report.new result }
{
    if text == "#" {
        return check_end(leads_far(root, LONGEST, root), trail, report, h);
    }
    match definition(root, text) {
        Some(schema) => check_end(leads_far(root, LONGEST, &schema), trail, report, h),
        None => {
            let rule = AsksAs("reference_unknown", "no schema has this name here", false);
            Is(rule).ask(&(), trail, report, h)
        }
    }
}

// Asks that the value of `$ref` means a schema from which references lead to an end.
pub(crate) fn check_reference<'s, 'a, H: I18n>(
    root: &Tree<'s, 'a>,
    value: &Tree<'s, 'a>,
    trail: &mut Trail<'a>,
    report: &mut Report,
    h: &H,
) -> Result<(), AllocError>
    ensures { Visited (reference_links root.now value.now) (H.text h.now)
        trail.old trail.new report.old report.new result }
{
    match value.as_str() {
        Some(text) => check_target(root, text, trail, report, h),
        None => Ok(()),
    }
}
