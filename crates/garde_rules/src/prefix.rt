//! Texts that begin with a pattern.
ghost use Rattle.std.specs.Prelude.{◌≡◌, Bool, ℕ, List};
ghost use Rattle.garde_i18n.specs.Datum as datum;
ghost use Rattle.garde_engines.specs.Applies.{Applies};
ghost use Rattle.garde_rules.specs.Holds.{unless, passes_option};
ghost use Rattle.garde_rules.specs.Text.{has_prefix};

use crate::as_str::AsStr;
use garde_i18n::I18n;
use garde_report::RuleError;
use std::alloc::Global;

/// A value that may begin with a text. Every text may, and an option of one.
pub trait Prefix {
    /// Whether the value passes with this pattern.
    ghost passes: { List ℕ → Self → Bool };

    /// Whether the text begins with the pattern. Every text begins with the empty pattern. An
    /// option without a value passes.
    fn validate_prefix(&self, pattern: &str) -> bool
        ensures { result ≡ passes pattern.now self.now };
}

impl<T: AsStr> Prefix for T {
    ghost passes = { λ pattern v. has_prefix pattern (T.text v) };

    #[tactic(auto, using(std::proofs::lemmas::Str::Pattern::starts_text))]
    fn validate_prefix(&self, pattern: &str) -> bool {
        self.as_str().starts_with(pattern)
    }
}

impl<T: Prefix> Prefix for Option<T> {
    ghost passes = { λ pattern. passes_option (T.passes pattern) };

    fn validate_prefix(&self, pattern: &str) -> bool {
        match self {
            None => true,
            Some(v) => v.validate_prefix(pattern),
        }
    }
}

/// Returns Ok where the text begins with the pattern, and else the fault with the handler's text.
///
/// `RuleError::Memory` is returned only where the rule does not hold.
pub fn apply<T: Prefix, H: I18n>(
    alloc: Global,
    v: &T,
    args: (&str,),
    h: &H,
) -> Result<(), RuleError>
    ensures { let pattern = args.entry.0.now in
        Applies (unless (T.passes pattern v.now) (datum.prefix pattern)) (H.text h.now) result }
{
    let (pattern,) = args;
    if v.validate_prefix(pattern) {
        Ok(())
    } else {
        Err(RuleError::of(alloc, h.prefix_missing(alloc, pattern)))
    }
}
