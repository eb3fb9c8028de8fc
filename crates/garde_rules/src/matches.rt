//! Values that equal another, as a password that is given twice.
ghost use Rattle.std.specs.Prelude.{◌≡◌, Bool};
ghost use Rattle.garde_i18n.specs.Datum as datum;
ghost use Rattle.garde_engines.specs.Applies.{Applies};
ghost use Rattle.garde_rules.specs.Holds.{unless};

use garde_i18n::I18n;
use garde_report::RuleError;
use std::alloc::Global;

/// A value that may match another. A value with an equality matches its equals, and so does an
/// option: one without a value matches only another without one.
pub trait Matches<O> {
    /// Whether the value matches the other.
    ghost passes: { Self → O → Bool };

    /// Whether the value matches the other.
    fn validate_matches(&self, other: &O) -> bool
        ensures { result ≡ passes self.now other.now };
}

impl<T: PartialEq> Matches<T> for T {
    ghost passes = { T.eq };

    fn validate_matches(&self, other: &T) -> bool {
        self == other
    }
}

/// Returns Ok where the value matches the second of `args`, and else the fault with the handler's
/// text of the first, which is the name of the field that the other value comes from.
///
/// `RuleError::Memory` is returned only where the rule does not hold.
pub fn apply<T: Matches<O>, O, H: I18n>(
    alloc: Global,
    v: &T,
    args: (&str, &O),
    h: &H,
) -> Result<(), RuleError>
    ensures { let field = args.entry.0.now in let other = args.entry.1.now in
        Applies (unless (T.passes v.now other) (datum.matches field)) (H.text h.now) result }
{
    let (field, other) = args;
    if v.validate_matches(other) {
        Ok(())
    } else {
        Err(RuleError::of(alloc, h.matches_field_mismatch(alloc, field)))
    }
}
