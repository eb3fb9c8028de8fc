//! `minimum` and the like: numbers are compared exactly.
ghost use Rattle.std.specs.Prelude.{◌≡◌, ◌++◌, codes, IfOk, IfSome, Some};
ghost use Rattle.garde_i18n.specs.Datum.{named, with_param};
ghost use Rattle.std.specs.Cow.{cow_str_bytes};
ghost use Rattle.garde.specs.Fields.{is};
ghost use Rattle.garde.specs.Visits.{Visited};
ghost use Rattle.garde_schema.specs.Decimals.{is_beyond};
ghost use Rattle.garde_decimal.specs.Value.{decimal_of};
ghost use Rattle.std.specs.Ordering.{is_gt, is_lt};
ghost use Rattle.garde_described.specs.Whole.{IsWhole, ordered, whole};
ghost use Rattle.garde_described.specs.Keywords.{above_found, below_found, bound_asks, least_found, most_found, on_number};

use fast_float::Numeral;
use garde::fields::{AsksAs, Is, Rule, Rules};
use garde::{I18n, Report, RuleError, Trail};
use garde_i18n::{Code, Named, Value};
use garde_schema::{Decimal, Tree, decimal_range};
use std::alloc::{AllocError, Global};
use std::borrow::CowStr;

// The number that a text of digits alone writes, with no zero before others. It is read far faster
// than a decimal.
#[inline]
pub(crate) fn whole(text: &str) -> Option<u64>
    ensures { IfSome result (λ n. decimal_of text.now ≡ Some (whole n)) }
{
    let bytes = text.as_bytes();
    let numeral = Numeral::scan(bytes);
    let number = numeral.to_u64()?;
    if numeral.whole().len() != bytes.len() || bytes[0] == b'-' {
        return None;
    }
    if bytes.len() == 1 || numeral.whole()[0] != b'0' {
        Some(number)
    } else {
        None
    }
}

// The number that a value is, where such a text writes it.
fn whole_of(tree: &Tree<'_, '_>) -> Option<u64>
    ensures { IfSome result (λ n. IsWhole tree.now n) }
{
    whole(tree.as_number()?)
}

// Whether both are there, and the first is not above the other.
fn ordered(least: Option<u64>, most: Option<u64>) -> bool
    ensures { result ≡ ordered least most }
{
    match (least, most) {
        (Some(least), Some(most)) => least <= most,
        _ => false,
    }
}

// The handler's text of a number that is not on the side of a bound that these words name.
fn text_of<H: I18n>(
    alloc: Global,
    name: &'static str,
    words: &str,
    bound: &str,
    h: &H,
) -> Result<CowStr<'static>, AllocError>
    ensures { IfOk result (λ s. cow_str_bytes s
        ≡ H.text h.now (named (with_param name.now (codes "bound") bound.now) (words.now ++ bound.now))) }
{
    let english = format!(in alloc; "{words}{bound}")?;
    let code = Code {
        name,
        param: Some(("bound", Value::Text(bound))),
    };
    let fault = Named {
        code,
        english: english.as_str(),
    };
    h.named(alloc, fault)
}

// Whether a number is greater than the one that a text writes.
fn is_above(bound: &str, number: &Decimal<'_>) -> bool
    ensures { result ≡ is_beyond is_gt (decimal_of bound.now) number.now }
{
    match Decimal::read(bound) {
        Some(bound) => number.compare(&bound).is_gt(),
        None => true,
    }
}

// Whether a number is less than the one that a text writes.
fn is_below(bound: &str, number: &Decimal<'_>) -> bool
    ensures { result ≡ is_beyond is_lt (decimal_of bound.now) number.now }
{
    match Decimal::read(bound) {
        Some(bound) => number.compare(&bound).is_lt(),
        None => true,
    }
}

// The rule that a number is greater than the one that this text writes.
#[derive(Clone, Copy)]
struct Above<'b>(&'b str);

impl<'a> Rule<Decimal<'a>> for Above<'_> {
    ghost finds = { λ rule v. above_found rule.0.now v };

    #[tactic(auto, unfolding(crate::specs::Keywords::not_greater))]
    fn find<H: I18n>(&self, alloc: Global, value: &Decimal<'a>, h: &H) -> Result<(), RuleError> {
        if is_above(self.0, value) {
            Ok(())
        } else {
            let (name, words) = ("range_not_greater", "not greater than ");
            Err(RuleError::of(alloc, text_of(alloc, name, words, self.0, h)))
        }
    }
}

// The rule that a number is less than the one that this text writes.
#[derive(Clone, Copy)]
struct Below<'b>(&'b str);

impl<'a> Rule<Decimal<'a>> for Below<'_> {
    ghost finds = { λ rule v. below_found rule.0.now v };

    #[tactic(auto, unfolding(crate::specs::Keywords::not_less))]
    fn find<H: I18n>(&self, alloc: Global, value: &Decimal<'a>, h: &H) -> Result<(), RuleError> {
        if is_below(self.0, value) {
            Ok(())
        } else {
            let (name, words) = ("range_not_less", "not less than ");
            Err(RuleError::of(alloc, text_of(alloc, name, words, self.0, h)))
        }
    }
}

// Asks a rule of a number. One whose exponent's digits do not fit 64 bits is none.
fn check_number<'t, 'a, R: Rule<Decimal<'a>> + Drop, H: I18n>(
    rule: R,
    tree: &Tree<'t, 'a>,
    trail: &mut Trail<'a>,
    report: &mut Report,
    h: &H,
) -> Result<(), AllocError>
    ensures { Visited (on_number (λ n. is (R.finds rule n)) tree.now) (H.text h.now)
        trail.old trail.new report.old report.new result }
{
    match tree.as_number() {
        Some(text) => match Decimal::read(text) {
            Some(number) => Is(rule).ask(&number, trail, report, h),
            None => Is(AsksAs("not_a_number", "not a number", false)).ask(&(), trail, report, h),
        },
        None => Ok(()),
    }
}

// Asks that a number is at least the one of a keyword's value.
pub(crate) fn check_least<'s, 't, 'a, H: I18n>(
    value: &Tree<'s, 'a>,
    tree: &Tree<'t, 'a>,
    trail: &mut Trail<'a>,
    report: &mut Report,
    h: &H,
) -> Result<(), AllocError>
    ensures { Visited (bound_asks least_found value.now tree.now) (H.text h.now)
        trail.old trail.new report.old report.new result }
{
    match value.as_number() {
        Some(bound) => {
            if ordered(whole(bound), whole_of(tree)) {
                return Ok(());
            }
            check_number(decimal_range!(min = bound), tree, trail, report, h)
        }
        None => Ok(()),
    }
}

// Asks that a number is at most the one of a keyword's value.
pub(crate) fn check_most<'s, 't, 'a, H: I18n>(
    value: &Tree<'s, 'a>,
    tree: &Tree<'t, 'a>,
    trail: &mut Trail<'a>,
    report: &mut Report,
    h: &H,
) -> Result<(), AllocError>
    ensures { Visited (bound_asks most_found value.now tree.now) (H.text h.now)
        trail.old trail.new report.old report.new result }
{
    match value.as_number() {
        Some(bound) => {
            if ordered(whole_of(tree), whole(bound)) {
                return Ok(());
            }
            check_number(decimal_range!(max = bound), tree, trail, report, h)
        }
        None => Ok(()),
    }
}

// Asks that a number is greater than the one of a keyword's value.
pub(crate) fn check_above<'s, 't, 'a, H: I18n>(
    value: &Tree<'s, 'a>,
    tree: &Tree<'t, 'a>,
    trail: &mut Trail<'a>,
    report: &mut Report,
    h: &H,
) -> Result<(), AllocError>
    ensures { Visited (bound_asks above_found value.now tree.now) (H.text h.now)
        trail.old trail.new report.old report.new result }
{
    match value.as_number() {
        Some(bound) => check_number(Above(bound), tree, trail, report, h),
        None => Ok(()),
    }
}

// Asks that a number is less than the one of a keyword's value.
pub(crate) fn check_below<'s, 't, 'a, H: I18n>(
    value: &Tree<'s, 'a>,
    tree: &Tree<'t, 'a>,
    trail: &mut Trail<'a>,
    report: &mut Report,
    h: &H,
) -> Result<(), AllocError>
    ensures { Visited (bound_asks below_found value.now tree.now) (H.text h.now)
        trail.old trail.new report.old report.new result }
{
    match value.as_number() {
        Some(bound) => check_number(Below(bound), tree, trail, report, h),
        None => Ok(()),
    }
}
