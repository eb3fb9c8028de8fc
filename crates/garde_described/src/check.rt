//! The check of a value by a schema.
ghost use Rattle.std.specs.Prelude.{◌<◌, ◌^◌, codes, length, not};
ghost use Rattle.json.specs.Find.{as_str};
ghost use Rattle.garde_report.specs.Part.{key_part, part_of};
ghost use Rattle.garde.specs.Visits.{Visited, under, when};
ghost use Rattle.garde_described.specs.Keywords.{keyword_of, of, listed, membered};
ghost use Rattle.garde_described.specs.Faults.{asks, by_place, described_items, faults, in_turn, is_described, item_asks, member_asks, member_of, numbered, other_asks, properties_asks, target_of};

use crate::keyword::Keyword;
use crate::lengths::{
    at_least, at_most, check_chars, check_items as check_item_count,
    check_members as check_member_count,
};
use crate::numbers::{check_above, check_below, check_least, check_most};
use crate::put::{put_under, put_unless};
use crate::reference::{definition, described_items, is_described, member_of};
use crate::required::check_required;
use crate::same::{check_const, check_enum};
use crate::types::check_type;
use garde::fields::{AsksAs, Is, Rules};
use garde::{Component, I18n, Report, Trail};
use garde_schema::{FormFault, FormI18n, Found, Tree, TreeItems, TreeMembers};
use std::alloc::AllocError;

/// Appends to the report each fault of a value by a schema of the document, at its path. At most
/// `left` schemas are asked, one in the other.
#[cycle(check)]
pub(crate) fn check<'s, 't, 'a, H: I18n + FormI18n>(
    root: &Tree<'s, 'a>,
    left: usize,
    schema: &Tree<'s, 'a>,
    tree: &Tree<'t, 'a>,
    trail: &mut Trail<'a>,
    report: &mut Report,
    h: &H,
) -> Result<(), AllocError>
    ensures { Visited (faults (H.form_text h.now) root.now left schema.now tree.now) (H.text h.now)
        trail.old trail.new report.old report.new result }
{
    if left == 0 {
        let english = "more schemas in each other than are followed";
        return Is(AsksAs("schema_too_deep", english, false)).ask(&(), trail, report, h);
    }
    match schema.members() {
        Some(keywords) => check_keywords(root, left - 1, schema, keywords, tree, trail, report, h),
        None => {
            let holds = schema.as_bool().unwrap_or(true);
            put_unless(holds, FormFault::Unknown, trail, report, h)
        }
    }
}

// Asks each of these keywords in turn.
#[cycle(check)]
fn check_keywords<'s, 't, 'a, H: I18n + FormI18n>(
    root: &Tree<'s, 'a>,
    left: usize,
    schema: &Tree<'s, 'a>,
    keywords: TreeMembers<'s, 'a>,
    tree: &Tree<'t, 'a>,
    trail: &mut Trail<'a>,
    report: &mut Report,
    h: &H,
) -> Result<(), AllocError>
    ensures { Visited (in_turn (λ m. asks (faults (H.form_text h.now) root.now left) (H.form_text h.now)
        root.now schema.now (keyword_of m.0) m.1 tree.now) keywords.entry) (H.text h.now)
        trail.old trail.new report.old report.new result }
{
    let mut rest = keywords;
    while let Some((name, value)) = rest.next() {
        let keyword = Keyword::of(name);
        check_keyword(root, left, schema, keyword, &value, tree, trail, report, h)?;
    }
    Ok(())
}

// Asks a keyword.
#[cycle(check)]
fn check_keyword<'s, 't, 'a, H: I18n + FormI18n>(
    root: &Tree<'s, 'a>,
    left: usize,
    schema: &Tree<'s, 'a>,
    keyword: Keyword,
    value: &Tree<'s, 'a>,
    tree: &Tree<'t, 'a>,
    trail: &mut Trail<'a>,
    report: &mut Report,
    h: &H,
) -> Result<(), AllocError>
    ensures { Visited (asks (faults (H.form_text h.now) root.now left) (H.form_text h.now)
        root.now schema.now keyword value.now tree.now) (H.text h.now)
        trail.old trail.new report.old report.new result }
{
    match keyword {
        Keyword::OfType => check_type(value, tree, trail, report, h),
        Keyword::Enum => check_enum(value, tree, trail, report, h),
        Keyword::Const => check_const(value, tree, trail, report, h),
        Keyword::MinLength => check_chars(at_least(value), tree, trail, report, h),
        Keyword::MaxLength => check_chars(at_most(value), tree, trail, report, h),
        Keyword::Minimum => check_least(value, tree, trail, report, h),
        Keyword::Maximum => check_most(value, tree, trail, report, h),
        Keyword::ExclusiveMinimum => check_above(value, tree, trail, report, h),
        Keyword::ExclusiveMaximum => check_below(value, tree, trail, report, h),
        Keyword::MinItems => check_item_count(at_least(value), tree, trail, report, h),
        Keyword::MaxItems => check_item_count(at_most(value), tree, trail, report, h),
        Keyword::MinProperties => check_member_count(at_least(value), tree, trail, report, h),
        Keyword::MaxProperties => check_member_count(at_most(value), tree, trail, report, h),
        Keyword::Required => check_required(value, tree, trail, report, h),
        Keyword::Items => check_items(root, left, schema, value, tree, trail, report, h),
        Keyword::PrefixItems => check_prefix(root, left, value, tree, trail, report, h),
        Keyword::Properties => check_properties(root, left, value, tree, trail, report, h),
        Keyword::AdditionalProperties => {
            check_others(root, left, schema, value, tree, trail, report, h)
        }
        Keyword::AllOf => check_all(root, left, value, tree, trail, report, h),
        Keyword::Ref => check_reference(root, left, value, tree, trail, report, h),
        Keyword::Definitions | Keyword::Id | Keyword::Annotation => Ok(()),
    }
}

// Asks the schema that the value of `$ref` means.
#[cycle(check)]
fn check_reference<'s, 't, 'a, H: I18n + FormI18n>(
    root: &Tree<'s, 'a>,
    left: usize,
    value: &Tree<'s, 'a>,
    tree: &Tree<'t, 'a>,
    trail: &mut Trail<'a>,
    report: &mut Report,
    h: &H,
) -> Result<(), AllocError>
    ensures { Visited (of (λ text. of (λ x. faults (H.form_text h.now) root.now left x tree.now)
        (target_of root.now text)) (as_str value.now)) (H.text h.now)
        trail.old trail.new report.old report.new result }
{
    match value.as_str() {
        Some(text) => check_target(root, left, text, tree, trail, report, h),
        None => Ok(()),
    }
}

// Asks the schema that a reference means.
#[cycle(check)]
fn check_target<'s, 't, 'a, H: I18n + FormI18n>(
    root: &Tree<'s, 'a>,
    left: usize,
    text: &'a str,
    tree: &Tree<'t, 'a>,
    trail: &mut Trail<'a>,
    report: &mut Report,
    h: &H,
) -> Result<(), AllocError>
    ensures { Visited (of (λ x. faults (H.form_text h.now) root.now left x tree.now)
        (target_of root.now text.now)) (H.text h.now)
        trail.old trail.new report.old report.new result }
{
    if text == "#" {
        return check(root, left, root, tree, trail, report, h);
    }
    match definition(root, text) {
        Some(schema) => check(root, left, &schema, tree, trail, report, h),
        None => Ok(()),
    }
}

// Asks each of the schemas of `allOf`.
#[cycle(check)]
fn check_all<'s, 't, 'a, H: I18n + FormI18n>(
    root: &Tree<'s, 'a>,
    left: usize,
    value: &Tree<'s, 'a>,
    tree: &Tree<'t, 'a>,
    trail: &mut Trail<'a>,
    report: &mut Report,
    h: &H,
) -> Result<(), AllocError>
    ensures { Visited (of (λ ss. in_turn (λ x. faults (H.form_text h.now) root.now left x tree.now) ss)
        (listed value.now)) (H.text h.now) trail.old trail.new report.old report.new result }
{
    match value.items() {
        Some(schemas) => check_each(root, left, schemas, tree, trail, report, h),
        None => Ok(()),
    }
}

// Asks each of these schemas of a value.
#[cycle(check)]
fn check_each<'s, 't, 'a, H: I18n + FormI18n>(
    root: &Tree<'s, 'a>,
    left: usize,
    schemas: TreeItems<'s, 'a>,
    tree: &Tree<'t, 'a>,
    trail: &mut Trail<'a>,
    report: &mut Report,
    h: &H,
) -> Result<(), AllocError>
    ensures { Visited (in_turn (λ x. faults (H.form_text h.now) root.now left x tree.now) schemas.entry)
        (H.text h.now) trail.old trail.new report.old report.new result }
{
    let mut rest = schemas;
    while let Some(schema) = rest.next() {
        check(root, left, &schema, tree, trail, report, h)?;
    }
    Ok(())
}

// Asks a schema of a value under a component.
#[cycle(check)]
fn check_under<'s, 't, 'a, H: I18n + FormI18n>(
    root: &Tree<'s, 'a>,
    left: usize,
    component: Component<'a>,
    schema: &Tree<'s, 'a>,
    tree: &Tree<'t, 'a>,
    trail: &mut Trail<'a>,
    report: &mut Report,
    h: &H,
) -> Result<(), AllocError>
    ensures { Visited (under (part_of component.entry)
        (faults (H.form_text h.now) root.now left schema.now tree.now)) (H.text h.now)
        trail.old trail.new report.old report.new result }
{
    trail.push(component)?;
    let told = check(root, left, schema, tree, trail, report, h);
    trail.pop();
    told
}

// Asks the schemas of `properties` of the members of an object.
#[cycle(check)]
fn check_properties<'s, 't, 'a, H: I18n + FormI18n>(
    root: &Tree<'s, 'a>,
    left: usize,
    value: &Tree<'s, 'a>,
    tree: &Tree<'t, 'a>,
    trail: &mut Trail<'a>,
    report: &mut Report,
    h: &H,
) -> Result<(), AllocError>
    ensures { Visited (of (λ ms. in_turn (properties_asks (faults (H.form_text h.now) root.now left)
        (H.form_text h.now) tree.now) ms) (membered value.now)) (H.text h.now)
        trail.old trail.new report.old report.new result }
{
    match value.members() {
        Some(schemas) => check_described(root, left, schemas, tree, trail, report, h),
        None => Ok(()),
    }
}

// Asks each of these schemas of the member of its name.
#[cycle(check)]
fn check_described<'s, 't, 'a, H: I18n + FormI18n>(
    root: &Tree<'s, 'a>,
    left: usize,
    schemas: TreeMembers<'s, 'a>,
    tree: &Tree<'t, 'a>,
    trail: &mut Trail<'a>,
    report: &mut Report,
    h: &H,
) -> Result<(), AllocError>
    ensures { Visited (in_turn (properties_asks (faults (H.form_text h.now) root.now left)
        (H.form_text h.now) tree.now) schemas.entry) (H.text h.now)
        trail.old trail.new report.old report.new result }
{
    let mut rest = schemas;
    while let Some((name, schema)) = rest.next() {
        check_member(root, left, name, &schema, tree.find(name), trail, report, h)?;
    }
    Ok(())
}

// Asks a schema of what was found of a name.
#[cycle(check)]
fn check_member<'s, 't, 'a, H: I18n + FormI18n>(
    root: &Tree<'s, 'a>,
    left: usize,
    name: &'a str,
    schema: &Tree<'s, 'a>,
    found: Found<'t, 'a>,
    trail: &mut Trail<'a>,
    report: &mut Report,
    h: &H,
) -> Result<(), AllocError>
    ensures { Visited (member_asks (H.form_text h.now) (key_part name.now)
        (faults (H.form_text h.now) root.now left schema.now) found.entry) (H.text h.now)
        trail.old trail.new report.old report.new result }
{
    match found {
        Found::Missing => Ok(()),
        Found::Once(value) => {
            let place = Component::key(name);
            check_under(root, left, place, schema, &value, trail, report, h)
        }
        Found::Repeated => put_under(name, FormFault::Repeated, trail, report, h),
    }
}

// Asks the schema of `additionalProperties` of the members that `properties` does not describe.
#[cycle(check)]
fn check_others<'s, 't, 'a, H: I18n + FormI18n>(
    root: &Tree<'s, 'a>,
    left: usize,
    schema: &Tree<'s, 'a>,
    value: &Tree<'s, 'a>,
    tree: &Tree<'t, 'a>,
    trail: &mut Trail<'a>,
    report: &mut Report,
    h: &H,
) -> Result<(), AllocError>
    ensures { Visited (of (λ ms. in_turn (other_asks (faults (H.form_text h.now) root.now left)
        (member_of (codes "properties") schema.now) value.now) ms) (membered tree.now)) (H.text h.now)
        trail.old trail.new report.old report.new result }
{
    match tree.members() {
        Some(members) => {
            let known = member_of(schema, "properties");
            check_undescribed(root, left, &known, value, members, trail, report, h)
        }
        None => Ok(()),
    }
}

// Asks a schema of each of these members that `properties` does not describe.
#[cycle(check)]
fn check_undescribed<'s, 't, 'a, H: I18n + FormI18n>(
    root: &Tree<'s, 'a>,
    left: usize,
    known: &Option<Tree<'s, 'a>>,
    value: &Tree<'s, 'a>,
    members: TreeMembers<'t, 'a>,
    trail: &mut Trail<'a>,
    report: &mut Report,
    h: &H,
) -> Result<(), AllocError>
    ensures { Visited (in_turn (other_asks (faults (H.form_text h.now) root.now left)
        known.now value.now) members.entry) (H.text h.now)
        trail.old trail.new report.old report.new result }
{
    let mut rest = members;
    while let Some((name, member)) = rest.next() {
        check_other(root, left, known, value, name, &member, trail, report, h)?;
    }
    Ok(())
}

// Asks a schema of a member that `properties` does not describe.
#[cycle(check)]
fn check_other<'s, 't, 'a, H: I18n + FormI18n>(
    root: &Tree<'s, 'a>,
    left: usize,
    known: &Option<Tree<'s, 'a>>,
    value: &Tree<'s, 'a>,
    name: &'a str,
    member: &Tree<'t, 'a>,
    trail: &mut Trail<'a>,
    report: &mut Report,
    h: &H,
) -> Result<(), AllocError>
    ensures { Visited (when (not (is_described known.now name.now)) (under (key_part name.now)
        (faults (H.form_text h.now) root.now left value.now member.now))) (H.text h.now)
        trail.old trail.new report.old report.new result }
{
    if is_described(known, name) {
        return Ok(());
    }
    let place = Component::key(name);
    check_under(root, left, place, value, member, trail, report, h)
}

// Asks the schema of `items` of the items that `prefixItems` does not describe.
#[cycle(check)]
fn check_items<'s, 't, 'a, H: I18n + FormI18n>(
    root: &Tree<'s, 'a>,
    left: usize,
    schema: &Tree<'s, 'a>,
    value: &Tree<'s, 'a>,
    tree: &Tree<'t, 'a>,
    trail: &mut Trail<'a>,
    report: &mut Report,
    h: &H,
) -> Result<(), AllocError>
    ensures { Visited (of (λ js. numbered (item_asks (faults (H.form_text h.now) root.now left)
        value.now (described_items schema.now)) 0 js) (listed tree.now)) (H.text h.now)
        trail.old trail.new report.old report.new result }
{
    match tree.items() {
        Some(items) => {
            let first = described_items(schema);
            check_rest(root, left, value, first, items, trail, report, h)
        }
        None => Ok(()),
    }
}

// Asks a schema of each of these items from an index on.
#[cycle(check)]
fn check_rest<'s, 't, 'a, H: I18n + FormI18n>(
    root: &Tree<'s, 'a>,
    left: usize,
    value: &Tree<'s, 'a>,
    first: usize,
    items: TreeItems<'t, 'a>,
    trail: &mut Trail<'a>,
    report: &mut Report,
    h: &H,
) -> Result<(), AllocError>
    requires { length items < 2 ^ 64 }
    ensures { Visited (numbered (item_asks (faults (H.form_text h.now) root.now left)
        value.now first) 0 items.entry) (H.text h.now)
        trail.old trail.new report.old report.new result }
{
    let mut rest = items;
    let mut index = 0;
    while let Some(item) = rest.next() {
        check_item(root, left, value, first, index, &item, trail, report, h)?;
        index += 1;
    }
    Ok(())
}

// Asks a schema of an item, where its index is this or a later one.
#[cycle(check)]
fn check_item<'s, 't, 'a, H: I18n + FormI18n>(
    root: &Tree<'s, 'a>,
    left: usize,
    value: &Tree<'s, 'a>,
    first: usize,
    index: usize,
    item: &Tree<'t, 'a>,
    trail: &mut Trail<'a>,
    report: &mut Report,
    h: &H,
) -> Result<(), AllocError>
    ensures { Visited (item_asks (faults (H.form_text h.now) root.now left) value.now first index item.now)
        (H.text h.now) trail.old trail.new report.old report.new result }
{
    if first <= index {
        let place = Component::index(index);
        return check_under(root, left, place, value, item, trail, report, h);
    }
    Ok(())
}

// Asks the schemas of `prefixItems` of the items at their places.
#[cycle(check)]
fn check_prefix<'s, 't, 'a, H: I18n + FormI18n>(
    root: &Tree<'s, 'a>,
    left: usize,
    value: &Tree<'s, 'a>,
    tree: &Tree<'t, 'a>,
    trail: &mut Trail<'a>,
    report: &mut Report,
    h: &H,
) -> Result<(), AllocError>
    ensures { Visited (of (λ ss. of (λ js. by_place (faults (H.form_text h.now) root.now left) 0 ss js)
        (listed tree.now)) (listed value.now)) (H.text h.now)
        trail.old trail.new report.old report.new result }
{
    match value.items() {
        Some(schemas) => match tree.items() {
            Some(items) => check_places(root, left, schemas, items, trail, report, h),
            None => Ok(()),
        },
        None => Ok(()),
    }
}

// Asks each of these schemas of the item at its place.
#[cycle(check)]
fn check_places<'s, 't, 'a, H: I18n + FormI18n>(
    root: &Tree<'s, 'a>,
    left: usize,
    schemas: TreeItems<'s, 'a>,
    items: TreeItems<'t, 'a>,
    trail: &mut Trail<'a>,
    report: &mut Report,
    h: &H,
) -> Result<(), AllocError>
    requires { length items < 2 ^ 64 }
    ensures { Visited (by_place (faults (H.form_text h.now) root.now left) 0 schemas.entry items.entry)
        (H.text h.now) trail.old trail.new report.old report.new result }
{
    let (mut schemas, mut items) = (schemas, items);
    let mut index = 0;
    while let Some(schema) = schemas.next() {
        let Some(item) = items.next() else {
            return Ok(());
        };
        let place = Component::index(index);
        check_under(root, left, place, &schema, &item, trail, report, h)?;
        index += 1;
    }
    Ok(())
}
