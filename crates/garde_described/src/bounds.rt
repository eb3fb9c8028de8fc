//! What is asked of the value of one keyword of a schema.
ghost use Rattle.std.specs.Prelude.{◌≡◌, codes, is_some, not, option_and_then};
ghost use Rattle.garde.specs.Fields.{asks_as, is};
ghost use Rattle.garde.specs.Visits.{Visited, when};
ghost use Rattle.garde_decimal.specs.Value.{decimal_of};
ghost use Rattle.garde_tape.specs.Look.{kind_of};
ghost use Rattle.garde_schema.specs.Forms.{refused};
ghost use Rattle.garde_schema.specs.declared.fault.FormFault.TheVariants.{NotOneOf, Wrong};
ghost use Rattle.garde_schema.specs.declared.fault.Wanted.TheVariants as wanted;
ghost use Rattle.garde_described.specs.Faults.{member_of};
ghost use Rattle.garde_described.specs.Keywords.{bound_of, type_of};
ghost use Rattle.garde_described.specs.Links.{count_links, counts_crossed, id_links, maximum_links, most_links, not_crossed, number_links, number_of, numbers_crossed, type_links};

use crate::lengths::bound_of;
use crate::put::put_unless;
use crate::reference::member_of;
use crate::types::JsonType;
use garde::fields::{AsksAs, Is, Rules};
use garde::{I18n, Report, Trail};
use garde_schema::{Decimal, FormFault, FormI18n, Tree, Wanted};
use std::alloc::AllocError;

// Asks that a text is the name of a type.
pub(crate) fn check_type_name<'s, 'a, H: I18n + FormI18n>(
    value: &Tree<'s, 'a>,
    trail: &mut Trail<'a>,
    report: &mut Report,
    h: &H,
) -> Result<(), AllocError>
    ensures { Visited (type_links (H.form_text h.now) value.now) (H.text h.now)
        trail.old trail.new report.old report.new result }
{
    match value.as_str() {
        Some(name) => {
            let is_known = JsonType::of(name).is_some();
            put_unless(is_known, FormFault::NotOneOf, trail, report, h)
        }
        None => Ok(()),
    }
}

// Asks that a number is a bound that is read.
pub(crate) fn check_count<'s, 'a, H: I18n + FormI18n>(
    value: &Tree<'s, 'a>,
    trail: &mut Trail<'a>,
    report: &mut Report,
    h: &H,
) -> Result<(), AllocError>
    ensures { Visited (count_links (H.form_text h.now) value.now) (H.text h.now)
        trail.old trail.new report.old report.new result }
{
    match value.as_number() {
        Some(_) => {
            let fault = FormFault::Wrong(Wanted::Whole, value.kind());
            put_unless(bound_of(value).is_some(), fault, trail, report, h)
        }
        None => Ok(()),
    }
}

// Asks that a number has an exponent that is read.
pub(crate) fn check_number<'s, 'a, H: I18n>(
    value: &Tree<'s, 'a>,
    trail: &mut Trail<'a>,
    report: &mut Report,
    h: &H,
) -> Result<(), AllocError>
    ensures { Visited (number_links value.now) (H.text h.now)
        trail.old trail.new report.old report.new result }
{
    match value.as_number() {
        Some(text) => {
            let is_read = Decimal::read(text).is_some();
            Is(AsksAs("not_a_number", "not a number", is_read)).ask(&(), trail, report, h)
        }
        None => Ok(()),
    }
}

fn counts_crossed(least: Option<usize>, most: Option<usize>) -> bool
    ensures { result ≡ counts_crossed least most }
{
    match (least, most) {
        (Some(least), Some(most)) => most < least,
        _ => false,
    }
}

fn numbers_crossed(least: Option<Decimal<'_>>, most: Option<Decimal<'_>>) -> bool
    ensures { result ≡ numbers_crossed least.entry most.entry }
{
    match (least, most) {
        (Some(least), Some(most)) => most.compare(&least).is_lt(),
        _ => false,
    }
}

// Asks that a greatest value is not below the least one.
fn check_crossed<'a, H: I18n>(
    crossed: bool,
    trail: &mut Trail<'a>,
    report: &mut Report,
    h: &H,
) -> Result<(), AllocError>
    ensures { Visited (not_crossed crossed) (H.text h.now)
        trail.old trail.new report.old report.new result }
{
    Is(AsksAs("bounds_crossed", "less than the least", !crossed)).ask(&(), trail, report, h)
}

// The bound under a name.
fn count_under(schema: &Tree<'_, '_>, name: &str) -> Option<usize>
    ensures { result ≡ option_and_then bound_of (member_of name.now schema.now) }
{
    bound_of(&member_of(schema, name)?)
}

// Whether a greatest count is below the least one of this name.
fn counts_cross(schema: &Tree<'_, '_>, least: &str, most: &Tree<'_, '_>) -> bool
    ensures { result ≡ counts_crossed (option_and_then bound_of (member_of least.now schema.now)) (bound_of most.now) }
{
    counts_crossed(count_under(schema, least), bound_of(most))
}

// The number that a value is.
fn number_of<'a>(value: &Tree<'_, 'a>) -> Option<Decimal<'a>>
    ensures { result ≡ number_of value.now }
{
    Decimal::read(value.as_number()?)
}

// The number of `minimum`.
fn minimum_of<'a>(schema: &Tree<'_, 'a>) -> Option<Decimal<'a>>
    ensures { result ≡ option_and_then number_of (member_of (codes "minimum") schema.now) }
{
    number_of(&member_of(schema, "minimum")?)
}

// Whether a greatest number is below `minimum`.
fn numbers_cross(schema: &Tree<'_, '_>, most: &Tree<'_, '_>) -> bool
    ensures { result ≡ numbers_crossed (option_and_then number_of (member_of (codes "minimum") schema.now)) (number_of most.now) }
{
    numbers_crossed(minimum_of(schema), number_of(most))
}

// Asks that a greatest count is read, and not below the least one of this name.
pub(crate) fn check_most<'s, 'a, H: I18n + FormI18n>(
    least: &str,
    schema: &Tree<'s, 'a>,
    value: &Tree<'s, 'a>,
    trail: &mut Trail<'a>,
    report: &mut Report,
    h: &H,
) -> Result<(), AllocError>
    ensures { Visited (most_links (H.form_text h.now) (member_of least.now schema.now) value.now)
        (H.text h.now) trail.old trail.new report.old report.new result }
{
    let crossed = counts_cross(schema, least, value);
    check_count(value, trail, report, h)?;
    check_crossed(crossed, trail, report, h)
}

// Asks that a greatest number is read, and not below the least one.
pub(crate) fn check_maximum<'s, 'a, H: I18n>(
    schema: &Tree<'s, 'a>,
    value: &Tree<'s, 'a>,
    trail: &mut Trail<'a>,
    report: &mut Report,
    h: &H,
) -> Result<(), AllocError>
    ensures { Visited (maximum_links (member_of (codes "minimum") schema.now) value.now)
        (H.text h.now) trail.old trail.new report.old report.new result }
{
    let crossed = numbers_cross(schema, value);
    check_number(value, trail, report, h)?;
    check_crossed(crossed, trail, report, h)
}
