//! Texts that end with a pattern.
ghost use Rattle.std.specs.Prelude.{◌≡◌, Bool, ℕ, List};
ghost use Rattle.garde_i18n.specs.Datum as datum;
ghost use Rattle.garde_engines.specs.Applies.{Applies};
ghost use Rattle.garde_rules.specs.Holds.{unless, passes_option};
ghost use Rattle.garde_rules.specs.Text.{has_suffix};

use crate::as_str::AsStr;
use garde_i18n::I18n;
use garde_report::RuleError;
use std::alloc::Global;

/// A value that may end with a text. Every text may, and an option of one.
pub trait Suffix {
    /// Whether the value passes with this pattern.
    ghost passes: { List ℕ → Self → Bool };

    /// Whether the text ends with the pattern. Every text ends with the empty pattern. An option
    /// without a value passes.
    fn validate_suffix(&self, pattern: &str) -> bool
        ensures { result ≡ passes pattern.now self.now };
}

impl<T: AsStr> Suffix for T {
    ghost passes = { λ pattern v. has_suffix pattern (T.text v) };

    #[tactic(auto, using(std::proofs::lemmas::Str::Pattern::ends_text))]
    fn validate_suffix(&self, pattern: &str) -> bool {
        self.as_str().ends_with(pattern)
    }
}

impl<T: Suffix> Suffix for Option<T> {
    ghost passes = { λ pattern. passes_option (T.passes pattern) };

    fn validate_suffix(&self, pattern: &str) -> bool {
        match self {
            None => true,
            Some(v) => v.validate_suffix(pattern),
        }
    }
}

/// Returns Ok where the text ends with the pattern, and else the fault with the handler's text.
///
/// `RuleError::Memory` is returned only where the rule does not hold.
pub fn apply<T: Suffix, H: I18n>(
    alloc: Global,
    v: &T,
    args: (&str,),
    h: &H,
) -> Result<(), RuleError>
    ensures { let pattern = args.entry.0.now in
        Applies (unless (T.passes pattern v.now) (datum.suffix pattern)) (H.text h.now) result }
{
    let (pattern,) = args;
    if v.validate_suffix(pattern) {
        Ok(())
    } else {
        Err(RuleError::of(alloc, h.suffix_missing(alloc, pattern)))
    }
}
