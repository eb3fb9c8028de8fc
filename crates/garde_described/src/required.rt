//! `required`.
ghost use Rattle.garde.specs.Visits.{Visited};
ghost use Rattle.garde_described.specs.Keywords.{listed, membered, of};
ghost use Rattle.garde_described.specs.Faults.{in_turn, required_asks};

use crate::put::put_under;
use garde::{I18n, Report, Trail};
use garde_schema::{FormFault, FormI18n, Found, Tree, TreeItems};
use std::alloc::AllocError;

// Asks that an object has a member of the name that an item of `required` is.
fn check_item<'s, 't, 'a, H: I18n + FormI18n>(
    item: &Tree<'s, 'a>,
    tree: &Tree<'t, 'a>,
    trail: &mut Trail<'a>,
    report: &mut Report,
    h: &H,
) -> Result<(), AllocError>
    ensures { Visited (required_asks (H.form_text h.now) tree.now item.now)
        (H.text h.now) trail.old trail.new report.old report.new result }
{
    match item.as_str() {
        Some(name) => match tree.find(name) {
            Found::Missing => put_under(name, FormFault::Missing, trail, report, h),
            Found::Once(_) | Found::Repeated => Ok(()),
        },
        None => Ok(()),
    }
}

// Asks that an object has a member of each of these names.
fn check_names<'s, 't, 'a, H: I18n + FormI18n>(
    names: TreeItems<'s, 'a>,
    tree: &Tree<'t, 'a>,
    trail: &mut Trail<'a>,
    report: &mut Report,
    h: &H,
) -> Result<(), AllocError>
    ensures { Visited (in_turn (required_asks (H.form_text h.now) tree.now) names.entry)
        (H.text h.now) trail.old trail.new report.old report.new result }
{
    let mut left = names;
    while let Some(name) = left.next() {
        check_item(&name, tree, trail, report, h)?;
    }
    Ok(())
}

// Asks that an object has a member of each name of `required`. Of another value nothing is asked.
pub(crate) fn check_required<'s, 't, 'a, H: I18n + FormI18n>(
    value: &Tree<'s, 'a>,
    tree: &Tree<'t, 'a>,
    trail: &mut Trail<'a>,
    report: &mut Report,
    h: &H,
) -> Result<(), AllocError>
    ensures { Visited (of (λ names. of (λ _. in_turn (required_asks (H.form_text h.now) tree.now) names)
        (membered tree.now)) (listed value.now)) (H.text h.now)
        trail.old trail.new report.old report.new result }
{
    match value.items() {
        Some(names) => match tree.members() {
            Some(_) => check_names(names, tree, trail, report, h),
            None => Ok(()),
        },
        None => Ok(()),
    }
}
