//! Texts that have a pattern as a part.
ghost use Rattle.std.specs.Prelude.{◌≡◌, ◌↔◌, Bool, IsTrue, ℕ, List};
ghost use Rattle.std.specs.Str.Iter.{HasSubslice};
ghost use Rattle.garde_i18n.specs.Datum as datum;
ghost use Rattle.garde_engines.specs.Applies.{Applies};
ghost use Rattle.garde_rules.specs.Holds.{unless, passes_option};
ghost use Rattle.garde_rules.specs.Text.{has_part};

use crate::as_str::AsStr;
use garde_i18n::I18n;
use garde_report::RuleError;
use memchr::{memchr, memmem};
use std::alloc::Global;

// In a text of so many bytes the preparation of a search by blocks of bytes pays.
const LONG: usize = 512;

// Whether the text has the pattern as a part. A pattern of one byte, as `@`, is searched as a byte.
#[inline(always)]
#[tactic(auto, using(crate::proofs::TextLemmas::part_is))]
pub(crate) fn has_pattern(text: &str, pattern: &str) -> bool
    ensures { result ≡ has_part pattern.now text.now }
{
    match pattern.as_bytes() {
        [byte] => memchr(*byte, text.as_bytes()).is_some(),
        _ if text.len() >= LONG => memmem::find(text.as_bytes(), pattern.as_bytes()).is_some(),
        _ => text.contains(pattern),
    }
}

/// A value that may have a text as a part. Every text may, and an option of one.
pub trait Contains {
    /// Whether the value passes with this pattern.
    ghost passes: { List ℕ → Self → Bool };

    /// Whether the text has the pattern as a part. The empty pattern is a part of every text. An
    /// option without a value passes.
    fn validate_contains(&self, pattern: &str) -> bool
        ensures { result ≡ passes pattern.now self.now };
}

impl<T: AsStr> Contains for T {
    ghost passes = { λ pattern v. has_part pattern (T.text v) };

    #[inline(always)]
    #[tactic(auto, using(crate::proofs::TextLemmas::part_iff))]
    fn validate_contains(&self, pattern: &str) -> bool
        ensures value { result ≡ has_part pattern.now (T.text self.now) }
        ensures part { IsTrue result ↔ HasSubslice (T.text self.now) pattern.now }
    {
        has_pattern(self.as_str(), pattern)
    }
}

impl<T: Contains> Contains for Option<T> {
    ghost passes = { λ pattern. passes_option (T.passes pattern) };

    fn validate_contains(&self, pattern: &str) -> bool {
        match self {
            None => true,
            Some(v) => v.validate_contains(pattern),
        }
    }
}

/// Returns Ok where the text has the pattern as a part, and else the fault with the handler's text.
///
/// `RuleError::Memory` is returned only where the rule does not hold.
pub fn apply<T: Contains, H: I18n>(
    alloc: Global,
    v: &T,
    args: (&str,),
    h: &H,
) -> Result<(), RuleError>
    ensures { let pattern = args.entry.0.now in
        Applies (unless (T.passes pattern v.now) (datum.contains pattern)) (H.text h.now) result }
{
    let (pattern,) = args;
    if v.validate_contains(pattern) {
        Ok(())
    } else {
        Err(RuleError::of(alloc, h.contains_missing(alloc, pattern)))
    }
}
