//! `minLength` and the like: how many characters a text has, items a list, members an object.
ghost use Rattle.std.specs.Prelude.{◌≡◌};
ghost use Rattle.garde.specs.Fields.{between, chars, count, is};
ghost use Rattle.garde.specs.Visits.{Visited};
ghost use Rattle.garde_described.specs.Keywords.{at_least, at_most, bound_of, chars_asks, count_of, counted, listed, membered, of};

use fast_float::Numeral;
use garde::fields::{CharLength, Is, Length, Rules};
use garde::rules::length::HasSimpleLength;
use garde::{I18n, Report, Trail};
use garde_schema::Tree;
use std::alloc::AllocError;

/// The least and the most.
#[derive(Clone, Copy, Debug, Drop)]
pub struct Bounds {
    /// The least.
    pub min: usize,
    /// The most.
    pub max: usize,
}

// How many items a list has, or members an object.
#[derive(Clone, Copy, Drop)]
struct Count(usize);

impl HasSimpleLength for Count {
    ghost simple_len = { λ count. count.0 };

    fn length(&self) -> usize {
        self.0
    }
}

// The whole number that a text writes, where it has no sign and fits 64 bits.
fn count_of(text: &str) -> Option<u64>
    ensures { result ≡ count_of text.now }
{
    let numeral = Numeral::scan(text.as_bytes());
    if !numeral.has_digits() {
        return None;
    }
    match numeral.whole_u64() {
        Some(number) => Some(number),
        None => None,
    }
}

// The number of a bound.
pub(crate) fn bound_of(value: &Tree<'_, '_>) -> Option<usize>
    ensures { result ≡ bound_of value.now }
{
    Some(count_of(value.as_number()?)? as usize)
}

// At least as much as this number says.
pub(crate) fn at_least(value: &Tree<'_, '_>) -> Option<Bounds>
    ensures { result ≡ at_least value.now }
{
    Some(Bounds {
        min: bound_of(value)?,
        max: usize::MAX,
    })
}

// At most as much as this number says.
pub(crate) fn at_most(value: &Tree<'_, '_>) -> Option<Bounds>
    ensures { result ≡ at_most value.now }
{
    Some(Bounds {
        min: 0,
        max: bound_of(value)?,
    })
}

// Asks how many characters this text has.
fn check_text<'a, H: I18n>(
    bounds: Option<Bounds>,
    text: &'a str,
    trail: &mut Trail<'a>,
    report: &mut Report,
    h: &H,
) -> Result<(), AllocError>
    ensures { Visited (of (λ b. is (chars (between b.min b.max) text.now)) bounds) (H.text h.now)
        trail.old trail.new report.old report.new result }
{
    match bounds {
        Some(Bounds { min, max }) => Is(CharLength { min, max }).ask(&text, trail, report, h),
        None => Ok(()),
    }
}

// Asks how many characters a text has.
pub(crate) fn check_chars<'t, 'a, H: I18n>(
    bounds: Option<Bounds>,
    tree: &Tree<'t, 'a>,
    trail: &mut Trail<'a>,
    report: &mut Report,
    h: &H,
) -> Result<(), AllocError>
    ensures { Visited (chars_asks bounds tree.now) (H.text h.now)
        trail.old trail.new report.old report.new result }
{
    match tree.as_str() {
        Some(text) => check_text(bounds, text, trail, report, h),
        None => Ok(()),
    }
}

// Asks how many there are.
fn check_count<'a, H: I18n>(
    bounds: Option<Bounds>,
    number: Count,
    trail: &mut Trail<'a>,
    report: &mut Report,
    h: &H,
) -> Result<(), AllocError>
    ensures { Visited (of (λ b. is (count (between b.min b.max) number.0)) bounds) (H.text h.now)
        trail.old trail.new report.old report.new result }
{
    match bounds {
        Some(Bounds { min, max }) => Is(Length { min, max }).ask(&number, trail, report, h),
        None => Ok(()),
    }
}

// Asks how many items a list has.
pub(crate) fn check_items<'t, 'a, H: I18n>(
    bounds: Option<Bounds>,
    tree: &Tree<'t, 'a>,
    trail: &mut Trail<'a>,
    report: &mut Report,
    h: &H,
) -> Result<(), AllocError>
    ensures { Visited (counted (listed tree.now) bounds) (H.text h.now)
        trail.old trail.new report.old report.new result }
{
    match tree.items() {
        Some(items) => check_count(bounds, Count(items.count()), trail, report, h),
        None => Ok(()),
    }
}

// Asks how many members an object has.
pub(crate) fn check_members<'t, 'a, H: I18n>(
    bounds: Option<Bounds>,
    tree: &Tree<'t, 'a>,
    trail: &mut Trail<'a>,
    report: &mut Report,
    h: &H,
) -> Result<(), AllocError>
    ensures { Visited (counted (membered tree.now) bounds) (H.text h.now)
        trail.old trail.new report.old report.new result }
{
    match tree.members() {
        Some(members) => check_count(bounds, Count(members.count()), trail, report, h),
        None => Ok(()),
    }
}
