//! Handlers that only the tests have.
ghost use Rattle.std.specs.Prelude.{◌≡◌, ◌++◌, IfOk, if◌then◌else◌};
ghost use Rattle.std.specs.Cow.{cow_str_bytes};
ghost use Rattle.std.specs.Fmt.{decimal};
ghost use Rattle.garde_i18n.specs.Datum as datum;

use garde::i18n::{Datum, Texts};
use std::alloc::{AllocError, Global};
use std::borrow::CowStr;

/// A handler that gives a label, which it borrows, and behind it the bound of a length, where it
/// prints bounds.
#[derive(Drop)]
pub struct Labelled<'l> {
    pub label: &'l str,
    pub tells_bounds: bool,
}

/// The handler whose texts are all empty.
pub const SILENT: Labelled<'static> = Labelled {
    label: "",
    tells_bounds: false,
};

impl Labelled<'_> {
    // The label.
    fn label(&self, alloc: Global) -> Result<CowStr<'static>, AllocError>
        ensures { IfOk result (λ s. cow_str_bytes s ≡ self.now.label.now) }
    {
        Ok(CowStr::Owned(String::from_str(alloc, self.label)?))
    }

    // The label, and behind it the bound, where it prints bounds.
    fn bound(&self, alloc: Global, bound: usize) -> Result<CowStr<'static>, AllocError>
        ensures { IfOk result (λ s. cow_str_bytes s ≡
            (if self.now.tells_bounds then self.now.label.now ++ decimal bound else self.now.label.now)) }
    {
        if !self.tells_bounds {
            return self.label(alloc);
        }
        let label = self.label;
        Ok(CowStr::Owned(format!(in alloc; "{label}{bound}")?))
    }
}

impl Texts for Labelled<'_> {
    ghost texts = { λ labelled asked. elim asked [
      | datum.length_lower min ↦ if labelled.tells_bounds then labelled.label.now ++ decimal min else labelled.label.now
      | datum.length_greater max ↦ if labelled.tells_bounds then labelled.label.now ++ decimal max else labelled.label.now
      | datum.range_lower _ ↦ labelled.label.now
      | datum.range_greater _ ↦ labelled.label.now
      | datum.card _ ↦ labelled.label.now
      | datum.pattern _ ↦ labelled.label.now
      | datum.contains _ ↦ labelled.label.now
      | datum.url _ ↦ labelled.label.now
      | datum.prefix _ ↦ labelled.label.now
      | datum.suffix _ ↦ labelled.label.now
      | datum.phone _ ↦ labelled.label.now
      | datum.ip _ ↦ labelled.label.now
      | datum.matches _ ↦ labelled.label.now
      | datum.not_ascii ↦ labelled.label.now
      | datum.not_alphanumeric ↦ labelled.label.now
      | datum.not_set ↦ labelled.label.now
      | datum.named _ _ ↦ labelled.label.now
    ] };

    fn text_of(&self, alloc: Global, datum: Datum<'_>) -> Result<CowStr<'static>, AllocError> {
        match datum {
            Datum::LengthLowerThan(bound) => self.bound(alloc, bound),
            Datum::LengthGreaterThan(bound) => self.bound(alloc, bound),
            Datum::RangeLowerThan(_)
            | Datum::RangeGreaterThan(_)
            | Datum::CreditCardInvalid(_)
            | Datum::PatternNoMatch(_)
            | Datum::ContainsMissing(_)
            | Datum::UrlInvalid(_)
            | Datum::PrefixMissing(_)
            | Datum::SuffixMissing(_)
            | Datum::PhoneNumberInvalid(_)
            | Datum::IpInvalid(_)
            | Datum::MatchesFieldMismatch(_)
            | Datum::AsciiInvalid
            | Datum::AlphanumericInvalid
            | Datum::RequiredNotSet
            | Datum::Named(_) => self.label(alloc),
        }
    }
}
