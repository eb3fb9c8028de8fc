//! What is asked of a schema beside its form: that its references lead somewhere and to an end, and
//! that its bounds are read and can be met.
ghost use Rattle.std.specs.Prelude.{◌<◌, ◌^◌, false, length};
ghost use Rattle.garde_report.specs.Part.{part_of};
ghost use Rattle.garde.specs.Visits.{Visited, under};
ghost use Rattle.garde_described.specs.Faults.{in_turn, numbered};
ghost use Rattle.garde_described.specs.Keywords.{keyword_of, listed, membered, of};
ghost use Rattle.garde_described.specs.Links.{item_links, keyword_links, links, member_links, one_link};

use crate::bounds::{check_count, check_maximum, check_most, check_number, check_type_name};
use crate::keyword::Keyword;
use crate::leads::check_reference;
use crate::put::put_unless;
use garde::{Component, I18n, Report, Trail};
use garde_schema::{FormFault, FormI18n, Tree, TreeItems, TreeMembers};
use std::alloc::AllocError;

/// Appends to the report each fault of a schema of the document, and of those in it.
#[cycle(links)]
pub(crate) fn check_links<'s, 'a, H: I18n + FormI18n>(
    root: &Tree<'s, 'a>,
    left: usize,
    is_whole: bool,
    schema: &Tree<'s, 'a>,
    trail: &mut Trail<'a>,
    report: &mut Report,
    h: &H,
) -> Result<(), AllocError>
    ensures { Visited (links (H.form_text h.now) root.now left is_whole schema.now) (H.text h.now)
        trail.old trail.new report.old report.new result }
{
    if left == 0 {
        return Ok(());
    }
    match schema.members() {
        Some(keywords) => {
            let left = left - 1;
            check_keywords(root, left, is_whole, schema, keywords, trail, report, h)
        }
        None => Ok(()),
    }
}

// Asks each of these keywords in turn, under its name.
#[cycle(links)]
fn check_keywords<'s, 'a, H: I18n + FormI18n>(
    root: &Tree<'s, 'a>,
    left: usize,
    is_whole: bool,
    schema: &Tree<'s, 'a>,
    keywords: TreeMembers<'s, 'a>,
    trail: &mut Trail<'a>,
    report: &mut Report,
    h: &H,
) -> Result<(), AllocError>
    ensures { Visited (in_turn (one_link (links (H.form_text h.now) root.now left false) (H.form_text h.now)
        root.now is_whole schema.now) keywords.entry) (H.text h.now)
        trail.old trail.new report.old report.new result }
{
    let mut rest = keywords;
    while let Some((name, value)) = rest.next() {
        check_named(root, left, is_whole, schema, name, &value, trail, report, h)?;
    }
    Ok(())
}

// Asks the keyword of this name, under it.
#[cycle(links)]
fn check_named<'s, 'a, H: I18n + FormI18n>(
    root: &Tree<'s, 'a>,
    left: usize,
    is_whole: bool,
    schema: &Tree<'s, 'a>,
    name: &'a str,
    value: &Tree<'s, 'a>,
    trail: &mut Trail<'a>,
    report: &mut Report,
    h: &H,
) -> Result<(), AllocError>
    ensures { Visited (one_link (links (H.form_text h.now) root.now left false) (H.form_text h.now)
        root.now is_whole schema.now (name.now, value.now)) (H.text h.now)
        trail.old trail.new report.old report.new result }
{
    let keyword = Keyword::of(name);
    trail.push(Component::key(name))?;
    let told = check_keyword(
        root, left, is_whole, schema, keyword, value, trail, report, h,
    );
    trail.pop();
    told
}

// Asks a keyword.
#[cycle(links)]
fn check_keyword<'s, 'a, H: I18n + FormI18n>(
    root: &Tree<'s, 'a>,
    left: usize,
    is_whole: bool,
    schema: &Tree<'s, 'a>,
    keyword: Keyword,
    value: &Tree<'s, 'a>,
    trail: &mut Trail<'a>,
    report: &mut Report,
    h: &H,
) -> Result<(), AllocError>
    ensures { Visited (keyword_links (links (H.form_text h.now) root.now left false) (H.form_text h.now)
        root.now is_whole schema.now keyword value.now) (H.text h.now)
        trail.old trail.new report.old report.new result }
{
    match keyword {
        Keyword::OfType => check_type_name(value, trail, report, h),
        Keyword::MinLength | Keyword::MinItems | Keyword::MinProperties => {
            check_count(value, trail, report, h)
        }
        Keyword::MaxLength => check_most("minLength", schema, value, trail, report, h),
        Keyword::MaxItems => check_most("minItems", schema, value, trail, report, h),
        Keyword::MaxProperties => check_most("minProperties", schema, value, trail, report, h),
        Keyword::Minimum | Keyword::ExclusiveMinimum | Keyword::ExclusiveMaximum => {
            check_number(value, trail, report, h)
        }
        Keyword::Maximum => check_maximum(schema, value, trail, report, h),
        Keyword::Ref => check_reference(root, value, trail, report, h),
        Keyword::Id => put_unless(is_whole, FormFault::Unknown, trail, report, h),
        Keyword::Items | Keyword::AdditionalProperties => {
            check_links(root, left, false, value, trail, report, h)
        }
        Keyword::Properties | Keyword::Definitions => {
            check_members(root, left, value, trail, report, h)
        }
        Keyword::PrefixItems | Keyword::AllOf => check_items(root, left, value, trail, report, h),
        Keyword::Enum | Keyword::Const | Keyword::Required | Keyword::Annotation => Ok(()),
    }
}

// Asks the schemas that the members of an object are.
#[cycle(links)]
fn check_members<'s, 'a, H: I18n + FormI18n>(
    root: &Tree<'s, 'a>,
    left: usize,
    value: &Tree<'s, 'a>,
    trail: &mut Trail<'a>,
    report: &mut Report,
    h: &H,
) -> Result<(), AllocError>
    ensures { Visited (of (in_turn (member_links (links (H.form_text h.now) root.now left false)))
        (membered value.now)) (H.text h.now) trail.old trail.new report.old report.new result }
{
    match value.members() {
        Some(schemas) => check_each(root, left, schemas, trail, report, h),
        None => Ok(()),
    }
}

// Asks each of these schemas, under its name.
#[cycle(links)]
fn check_each<'s, 'a, H: I18n + FormI18n>(
    root: &Tree<'s, 'a>,
    left: usize,
    schemas: TreeMembers<'s, 'a>,
    trail: &mut Trail<'a>,
    report: &mut Report,
    h: &H,
) -> Result<(), AllocError>
    ensures { Visited (in_turn (member_links (links (H.form_text h.now) root.now left false))
        schemas.entry) (H.text h.now) trail.old trail.new report.old report.new result }
{
    let mut rest = schemas;
    while let Some((name, schema)) = rest.next() {
        check_under(root, left, Component::key(name), &schema, trail, report, h)?;
    }
    Ok(())
}

// Asks the schemas that the items of a list are.
#[cycle(links)]
fn check_items<'s, 'a, H: I18n + FormI18n>(
    root: &Tree<'s, 'a>,
    left: usize,
    value: &Tree<'s, 'a>,
    trail: &mut Trail<'a>,
    report: &mut Report,
    h: &H,
) -> Result<(), AllocError>
    ensures { Visited (of (numbered (item_links (links (H.form_text h.now) root.now left false)) 0)
        (listed value.now)) (H.text h.now) trail.old trail.new report.old report.new result }
{
    match value.items() {
        Some(schemas) => check_places(root, left, schemas, trail, report, h),
        None => Ok(()),
    }
}

// Asks each of these schemas, under its index.
#[cycle(links)]
fn check_places<'s, 'a, H: I18n + FormI18n>(
    root: &Tree<'s, 'a>,
    left: usize,
    schemas: TreeItems<'s, 'a>,
    trail: &mut Trail<'a>,
    report: &mut Report,
    h: &H,
) -> Result<(), AllocError>
    requires { length schemas < 2 ^ 64 }
    ensures { Visited (numbered (item_links (links (H.form_text h.now) root.now left false)) 0
        schemas.entry) (H.text h.now) trail.old trail.new report.old report.new result }
{
    let mut rest = schemas;
    let mut index = 0;
    while let Some(schema) = rest.next() {
        let place = Component::index(index);
        check_under(root, left, place, &schema, trail, report, h)?;
        index += 1;
    }
    Ok(())
}

// Asks a schema under a component.
#[cycle(links)]
fn check_under<'s, 'a, H: I18n + FormI18n>(
    root: &Tree<'s, 'a>,
    left: usize,
    component: Component<'a>,
    schema: &Tree<'s, 'a>,
    trail: &mut Trail<'a>,
    report: &mut Report,
    h: &H,
) -> Result<(), AllocError>
    ensures { Visited (under (part_of component.entry)
        (links (H.form_text h.now) root.now left false schema.now)) (H.text h.now)
        trail.old trail.new report.old report.new result }
{
    trail.push(component)?;
    let told = check_links(root, left, false, schema, trail, report, h);
    trail.pop();
    told
}
