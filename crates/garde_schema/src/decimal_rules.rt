//! Rules on numbers with a fraction, compared exactly.
ghost use Rattle.std.specs.Prelude.{◌≡◌, IfOk, option_map};
ghost use Rattle.std.specs.Cow.{cow_str_bytes};
ghost use Rattle.garde_rules.specs.Range.{no_multiple};
ghost use Rattle.garde_schema.specs.Decimals.{bounds_found, is_above, is_below, is_multiple_of, multiple_found};
ghost use Rattle.garde_decimal.specs.Value.{decimal_of};

use garde::fields::Rule;
use garde::{I18n, RuleError};
use garde_decimal::Decimal;
use garde_i18n::{Code, Named, Value};
use std::alloc::{AllocError, Global};
use std::borrow::CowStr;
use std::cmp::Ordering;

/// The rule as a value: the number is at least `min` and at most `max`, where they are given. Each is
/// the text of a number. `decimal_range!(min = "0.5", max = "99.95")` writes one. No number keeps a
/// bound whose text is no number.
#[derive(Clone, Copy, Debug)]
pub struct DecimalRange<'b> {
    /// The text of the lower bound, if there is one.
    pub min: Option<&'b str>,
    /// The text of the upper bound, if there is one.
    pub max: Option<&'b str>,
}

/// The range of numbers with a fraction as a value: `decimal_range!(min = "0.5")`,
/// `decimal_range!(max = "99.95")`, `decimal_range!(min = "0.5", max = "99.95")` or
/// `decimal_range!(equal = "5")`.
#[macro_export]
macro_rules! decimal_range {
    (min = $min:expr) => {
        $crate::DecimalRange {
            min: Some($min),
            max: None,
        }
    };
    (max = $max:expr) => {
        $crate::DecimalRange {
            min: None,
            max: Some($max),
        }
    };
    (min = $min:expr, max = $max:expr) => {
        $crate::DecimalRange {
            min: Some($min),
            max: Some($max),
        }
    };
    (equal = $value:expr) => {
        $crate::DecimalRange {
            min: Some($value),
            max: Some($value),
        }
    };
    ($($bounds:tt)*) => {
        compile_error!("a range is written `min = \"0.5\"`, `max = \"9\"`, both, or `equal = \"5\"`")
    };
}

// Whether a number is below the one that a text writes.
fn is_below(bound: &str, number: &Decimal<'_>) -> bool
    ensures { result ≡ is_below bound.now number.now }
{
    match Decimal::read(bound) {
        Some(bound) => number.compare(&bound).is_lt(),
        None => true,
    }
}

// Whether a number is above the one that a text writes.
fn is_above(bound: &str, number: &Decimal<'_>) -> bool
    ensures { result ≡ is_above bound.now number.now }
{
    match Decimal::read(bound) {
        Some(bound) => number.compare(&bound).is_gt(),
        None => true,
    }
}

impl<'a> Rule<Decimal<'a>> for DecimalRange<'_> {
    ghost finds = { λ rule v. bounds_found (option_map (λ s. s.now) rule.min)
        (option_map (λ s. s.now) rule.max) v };

    fn find<H: I18n>(&self, alloc: Global, value: &Decimal<'a>, h: &H) -> Result<(), RuleError> {
        if let Some(min) = self.min {
            if is_below(min, value) {
                return Err(RuleError::of(alloc, h.range_lower_than(alloc, min)));
            }
        }
        if let Some(max) = self.max {
            if is_above(max, value) {
                return Err(RuleError::of(alloc, h.range_greater_than(alloc, max)));
            }
        }
        Ok(())
    }
}

/// The rule as a value: the number is a multiple of the one that this text writes, which is not 0:
/// `DecimalMultiple("0.01")`. No number is a multiple where the text is no number above 0, or where its
/// digits do not fit 64 bits.
#[derive(Clone, Copy, Debug)]
pub struct DecimalMultiple<'b>(pub &'b str);

// Whether a number is a multiple of the one that a text writes.
fn is_multiple_of(divisor: &str, number: &Decimal<'_>) -> bool
    ensures { result ≡ is_multiple_of (decimal_of divisor.now) number.now }
{
    match Decimal::read(divisor) {
        Some(divisor) => number.is_multiple_of(&divisor) == Some(true),
        None => false,
    }
}

// The handler's text of a number that is no multiple of the one of this text.
#[tactic(auto, unfolding(garde_rules::specs::Range::no_multiple))]
fn text_of<H: I18n>(alloc: Global, value: &str, h: &H) -> Result<CowStr<'static>, AllocError>
    ensures { IfOk result (λ s. cow_str_bytes s ≡ H.text h.now (no_multiple value.now)) }
{
    let english = format!(in alloc; "not a multiple of {value}")?;
    let code = Code {
        name: "multiple_of_mismatch",
        param: Some(("divisor", Value::Text(value))),
    };
    let fault = Named {
        code,
        english: english.as_str(),
    };
    h.named(alloc, fault)
}

impl<'a> Rule<Decimal<'a>> for DecimalMultiple<'_> {
    ghost finds = { λ rule v. multiple_found rule.0.now v };

    fn find<H: I18n>(&self, alloc: Global, value: &Decimal<'a>, h: &H) -> Result<(), RuleError> {
        if is_multiple_of(self.0, value) {
            Ok(())
        } else {
            Err(RuleError::of(alloc, text_of(alloc, self.0, h)))
        }
    }
}
