//! Texts that match a pattern.
ghost use Rattle.std.specs.Prelude.{◌≡◌, ℕ, List, Bool, true, false, IfOk, IsOk, Ok};
ghost use Rattle.garde_i18n.specs.Datum as datum;
ghost use Rattle.garde_rules.specs.Holds.{is_exempt_option, unless, passes_option};
ghost use Rattle.garde_rules.specs.Memory.{AppliesInMemory};

pub mod regex;

use crate::as_str::AsStr;
use garde_i18n::I18n;
use garde_report::RuleError;
use std::alloc::{AllocError, Global};

/// A pattern, which lends the text that it is written as.
pub trait Matcher: AsStr {
    /// Whether the pattern matches anywhere in a text.
    ghost matches: { Self → List ℕ → Bool };

    /// Whether the pattern matches anywhere in the text. `AllocError` says nothing of the text.
    fn is_match(&self, alloc: Global, text: &str) -> Result<bool, AllocError>
        ensures { IfOk result (λ found. found ≡ matches self.now text.now) };
}

/// A value that may match a pattern. Every text may, and an option of one.
pub trait Pattern {
    /// Whether the value passes with a matcher that matches these texts.
    ghost passes: { (List ℕ → Bool) → Self → Bool };

    /// Whether the value passes with no search, as an option without a value does.
    ghost is_exempt: { Self → Bool } = { λ _. false };

    /// Whether the matcher says that its pattern matches anywhere in the text. An option without a
    /// value passes, whatever memory there is.
    ///
    /// Else `AllocError` says nothing of the value.
    fn validate_pattern<M: Matcher>(&self, alloc: Global, matcher: &M) -> Result<bool, AllocError>
        ensures value { IfOk result (λ matched. matched ≡ passes (M.matches matcher.now) self.now) }
        ensures exempt { is_exempt self.now ≡ true → result ≡ Ok true };
}

impl<T: AsStr> Pattern for T {
    ghost passes = { λ matches v. matches (T.text v) };

    fn validate_pattern<M: Matcher>(&self, alloc: Global, matcher: &M) -> Result<bool, AllocError> {
        matcher.is_match(alloc, self.as_str())
    }
}

impl<T: Pattern> Pattern for Option<T> {
    ghost passes = { λ matches. passes_option (T.passes matches) };

    ghost is_exempt = { is_exempt_option T.is_exempt };

    fn validate_pattern<M: Matcher>(&self, alloc: Global, matcher: &M) -> Result<bool, AllocError> {
        match self {
            None => Ok(true),
            Some(v) => v.validate_pattern(alloc, matcher),
        }
    }
}

/// Returns Ok where the matcher's pattern matches anywhere in the text, and else the fault with the
/// handler's text of the pattern.
///
/// An option without a value passes, whatever memory there is. Else `RuleError::Memory` is returned
/// where there is no memory for the search or the fault; it says nothing of the value.
pub fn apply<T: Pattern, M: Matcher, H: I18n>(
    alloc: Global,
    v: &T,
    args: (&M,),
    h: &H,
) -> Result<(), RuleError>
    ensures answer { let matcher = args.entry.0.now in
        AppliesInMemory
        (unless (T.passes (M.matches matcher) v.now) (datum.pattern (M.text matcher)))
        (H.text h.now) result }
    ensures exempt { T.is_exempt v.now ≡ true → IsOk result }
{
    let (matcher,) = args;
    match v.validate_pattern(alloc, matcher) {
        Ok(true) => Ok(()),
        Ok(false) => Err(RuleError::of(alloc, h.pattern_no_match(alloc, matcher.as_str()))),
        Err(AllocError) => Err(RuleError::Memory),
    }
}
