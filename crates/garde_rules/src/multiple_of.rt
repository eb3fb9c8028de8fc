//! Multiples of a whole number. The Rust crate has no such rule.
ghost use Rattle.std.specs.Prelude.{◌≡◌, Bool, IfOk};
ghost use Rattle.std.specs.Cow.{cow_str_bytes};
ghost use Rattle.garde_engines.specs.Applies.{Applies};
ghost use Rattle.garde_rules.specs.Holds.{passes_option};
ghost use Rattle.garde_rules.specs.Range.{int_is_multiple, is_multiple, multiple_fault, no_multiple};
ghost use Rattle.garde_rules.specs.Redaction.{FindsOnly, one_fault};
ghost use Rattle.garde_rules.specs.RedactionLaws.{unless_among};

use crate::named::named_text;
use crate::range::Bounds;
use crate::redaction::Discreet;
use garde_engines::Rule;
use garde_i18n::I18n;
use garde_report::RuleError;
use std::alloc::{AllocError, Global};
use std::borrow::CowStr;

/// A value that may be a multiple of a number: a whole number, and an option of one.
pub trait Divisible: Bounds {
    /// Whether the value is a multiple of a divisor.
    ghost passes: { Self.Size → Self → Bool };

    /// Whether the value is a multiple of `divisor`: `divisor` times a whole number. So only 0 is a
    /// multiple of 0, and signs do not matter. An option without a value passes.
    fn validate_multiple_of(&self, divisor: Self::Size) -> bool
        ensures { result ≡ passes divisor self.now };
}

impl<T: Divisible> Divisible for Option<T> {
    ghost passes = { λ divisor. passes_option (T.passes divisor) };

    fn validate_multiple_of(&self, divisor: T::Size) -> bool {
        match self {
            None => true,
            Some(v) => v.validate_multiple_of(divisor),
        }
    }
}

// The handler's text of a value that is no multiple of the number of this text.
#[tactic(auto, unfolding(crate::specs::Range::no_multiple))]
fn text_of<H: I18n>(alloc: Global, divisor: &str, h: &H) -> Result<CowStr<'static>, AllocError>
    ensures { IfOk result (λ s. cow_str_bytes s ≡ H.text h.now (no_multiple divisor.now)) }
{
    let (name, param) = ("multiple_of_mismatch", "divisor");
    named_text(alloc, name, param, "not a multiple of ", divisor, h)
}

/// Returns Ok where the value is a multiple of the number in `args`, and else the fault with the
/// handler's text. The handler is asked for the text of the code `multiple_of_mismatch`, whose
/// parameter `divisor` is the number.
///
/// `RuleError::Memory` is returned only where the rule does not hold.
pub fn apply<T: Divisible, H: I18n>(
    alloc: Global,
    v: &T,
    args: (T::Size,),
    h: &H,
) -> Result<(), RuleError>
    ensures { Applies (multiple_fault (T.text args.0) (T.passes args.0 v.now)) (H.text h.now) result }
{
    if v.validate_multiple_of(args.0) {
        return Ok(());
    }
    let divisor = T::bound_text(alloc, args.0)?;
    Err(RuleError::of(alloc, text_of(alloc, divisor.as_str(), h)))
}

/// The rule as a value: the value is a multiple of this number.
#[derive(Clone, Copy, Debug, PartialEq, Eq)]
pub struct MultipleOf<S>(pub S);

impl<T: Divisible> Rule<T> for MultipleOf<T::Size> {
    ghost finds = { λ rule v. multiple_fault (T.text rule.0) (T.passes rule.0 v) };

    #[inline]
    fn holds(&self, value: &T) -> bool {
        value.validate_multiple_of(self.0)
    }

    fn find<H: I18n>(&self, alloc: Global, value: &T, h: &H) -> Result<(), RuleError> {
        apply(alloc, value, (self.0,), h)
    }
}

impl<T: Divisible> Discreet<T> for MultipleOf<T::Size> {
    ghost may_find = { λ rule. one_fault (no_multiple (T.text rule.0)) };

    ghost discreet = { λ rule v. unless_among (no_multiple (T.text rule.0)) (T.passes rule.0 v) };
}

// Whether a number is a multiple of another one.
#[inline]
fn is_multiple(n: u128, divisor: u128) -> bool
    ensures { result ≡ is_multiple divisor n }
{
    if divisor == 0 {
        n == 0
    } else {
        n % divisor == 0
    }
}

impl Divisible for u8 {
    ghost passes = { is_multiple };

    #[inline]
    fn validate_multiple_of(&self, divisor: u8) -> bool {
        is_multiple(*self as u128, divisor as u128)
    }
}

impl Divisible for u16 {
    ghost passes = { is_multiple };

    #[inline]
    fn validate_multiple_of(&self, divisor: u16) -> bool {
        is_multiple(*self as u128, divisor as u128)
    }
}

impl Divisible for u32 {
    ghost passes = { is_multiple };

    #[inline]
    fn validate_multiple_of(&self, divisor: u32) -> bool {
        is_multiple(*self as u128, divisor as u128)
    }
}

impl Divisible for u64 {
    ghost passes = { is_multiple };

    #[inline]
    fn validate_multiple_of(&self, divisor: u64) -> bool {
        is_multiple(*self as u128, divisor as u128)
    }
}

impl Divisible for u128 {
    ghost passes = { is_multiple };

    #[inline]
    fn validate_multiple_of(&self, divisor: u128) -> bool {
        is_multiple(*self, divisor)
    }
}

impl Divisible for usize {
    ghost passes = { is_multiple };

    #[inline]
    fn validate_multiple_of(&self, divisor: usize) -> bool {
        is_multiple(*self as u128, divisor as u128)
    }
}

impl Divisible for i8 {
    ghost passes = { int_is_multiple };

    #[inline]
    fn validate_multiple_of(&self, divisor: i8) -> bool {
        is_multiple(self.unsigned_abs() as u128, divisor.unsigned_abs() as u128)
    }
}

impl Divisible for i16 {
    ghost passes = { int_is_multiple };

    #[inline]
    fn validate_multiple_of(&self, divisor: i16) -> bool {
        is_multiple(self.unsigned_abs() as u128, divisor.unsigned_abs() as u128)
    }
}

impl Divisible for i32 {
    ghost passes = { int_is_multiple };

    #[inline]
    fn validate_multiple_of(&self, divisor: i32) -> bool {
        is_multiple(self.unsigned_abs() as u128, divisor.unsigned_abs() as u128)
    }
}

impl Divisible for i64 {
    ghost passes = { int_is_multiple };

    #[inline]
    fn validate_multiple_of(&self, divisor: i64) -> bool {
        is_multiple(self.unsigned_abs() as u128, divisor.unsigned_abs() as u128)
    }
}

impl Divisible for i128 {
    ghost passes = { int_is_multiple };

    #[inline]
    fn validate_multiple_of(&self, divisor: i128) -> bool {
        is_multiple(self.unsigned_abs(), divisor.unsigned_abs())
    }
}

impl Divisible for isize {
    ghost passes = { int_is_multiple };

    #[inline]
    fn validate_multiple_of(&self, divisor: isize) -> bool {
        is_multiple(self.unsigned_abs() as u128, divisor.unsigned_abs() as u128)
    }
}
