//! A handler by one method.
ghost use Rattle.std.specs.Prelude.{◌≡◌, ℕ, List, IfOk, IsOk, IsTrue, false};
ghost use Rattle.std.specs.Cow.{cow_str_bytes};
ghost use Rattle.garde_i18n.specs.Datum as datum;
ghost use Rattle.garde_i18n.specs.DatumOf.{datum_of};

use crate::datum::{Datum, Named};
use crate::handler::I18n;
use crate::reasons::{InvalidCreditCard, InvalidPhoneNumber, InvalidUrl, IpKind};
use std::alloc::{AllocError, Global};
use std::borrow::CowStr;

/// The texts of a handler, by one method. Each type with this trait is a handler: it has `I18n`.
pub trait Texts {
    /// The text of a datum, as bytes of UTF-8.
    ghost texts: { Self → datum.Datum → List ℕ };

    /// Whether the text of a datum is borrowed, so that it is always given. That of none is, where
    /// this is left out.
    ghost borrowed: { Self → datum.Datum → Type 0 } = { λ _ _. IsTrue false };

    /// The text of a datum.
    fn text_of(&self, alloc: Global, datum: Datum<'_>) -> Result<CowStr<'static>, AllocError>
        ensures text { IfOk result (λ s. cow_str_bytes s ≡ texts self.now (datum_of datum.entry)) }
        ensures given { borrowed self.now (datum_of datum.entry) → IsOk result };
}

/// A reference to a handler gives the texts of that handler.
impl<T: I18n> Texts for &T {
    ghost texts = { λ handler datum. T.text handler.now datum };

    fn text_of(&self, alloc: Global, datum: Datum<'_>) -> Result<CowStr<'static>, AllocError> {
        let handler = *self;
        match datum {
            Datum::LengthLowerThan(min) => handler.length_lower_than(alloc, min),
            Datum::LengthGreaterThan(max) => handler.length_greater_than(alloc, max),
            Datum::RangeLowerThan(min) => handler.range_lower_than(alloc, min),
            Datum::RangeGreaterThan(max) => handler.range_greater_than(alloc, max),
            Datum::CreditCardInvalid(reason) => handler.credit_card_invalid(alloc, reason),
            Datum::PatternNoMatch(pattern) => handler.pattern_no_match(alloc, pattern),
            Datum::ContainsMissing(pattern) => handler.contains_missing(alloc, pattern),
            Datum::UrlInvalid(reason) => handler.url_invalid(alloc, reason),
            Datum::PrefixMissing(pattern) => handler.prefix_missing(alloc, pattern),
            Datum::SuffixMissing(pattern) => handler.suffix_missing(alloc, pattern),
            Datum::PhoneNumberInvalid(reason) => handler.phone_number_invalid(alloc, reason),
            Datum::IpInvalid(kind) => handler.ip_invalid(alloc, kind),
            Datum::MatchesFieldMismatch(field) => handler.matches_field_mismatch(alloc, field),
            Datum::AsciiInvalid => handler.ascii_invalid(alloc),
            Datum::AlphanumericInvalid => handler.alphanumeric_invalid(alloc),
            Datum::RequiredNotSet => handler.required_not_set(alloc),
            Datum::Named(fault) => handler.named(alloc, fault),
        }
    }
}

impl<T: Texts> I18n for T {
    ghost text = { λ handler datum. T.texts handler datum };

    fn length_lower_than(&self, alloc: Global, min: usize) -> Result<CowStr<'static>, AllocError> {
        self.text_of(alloc, Datum::LengthLowerThan(min))
    }

    fn length_greater_than(
        &self,
        alloc: Global,
        max: usize,
    ) -> Result<CowStr<'static>, AllocError> {
        self.text_of(alloc, Datum::LengthGreaterThan(max))
    }

    fn range_lower_than(&self, alloc: Global, min: &str) -> Result<CowStr<'static>, AllocError> {
        self.text_of(alloc, Datum::RangeLowerThan(min))
    }

    fn range_greater_than(&self, alloc: Global, max: &str) -> Result<CowStr<'static>, AllocError> {
        self.text_of(alloc, Datum::RangeGreaterThan(max))
    }

    fn credit_card_invalid(
        &self,
        alloc: Global,
        reason: InvalidCreditCard,
    ) -> Result<CowStr<'static>, AllocError> {
        self.text_of(alloc, Datum::CreditCardInvalid(reason))
    }

    fn pattern_no_match(
        &self,
        alloc: Global,
        pattern: &str,
    ) -> Result<CowStr<'static>, AllocError> {
        self.text_of(alloc, Datum::PatternNoMatch(pattern))
    }

    fn contains_missing(
        &self,
        alloc: Global,
        pattern: &str,
    ) -> Result<CowStr<'static>, AllocError> {
        self.text_of(alloc, Datum::ContainsMissing(pattern))
    }

    fn url_invalid(
        &self,
        alloc: Global,
        reason: InvalidUrl,
    ) -> Result<CowStr<'static>, AllocError> {
        self.text_of(alloc, Datum::UrlInvalid(reason))
    }

    fn prefix_missing(&self, alloc: Global, pattern: &str) -> Result<CowStr<'static>, AllocError> {
        self.text_of(alloc, Datum::PrefixMissing(pattern))
    }

    fn suffix_missing(&self, alloc: Global, pattern: &str) -> Result<CowStr<'static>, AllocError> {
        self.text_of(alloc, Datum::SuffixMissing(pattern))
    }

    fn phone_number_invalid(
        &self,
        alloc: Global,
        reason: InvalidPhoneNumber,
    ) -> Result<CowStr<'static>, AllocError>
        ensures text { IfOk result (λ s. cow_str_bytes s ≡ T.texts self.now (datum.phone reason)) }
        ensures given { T.borrowed self.now (datum.phone reason) → IsOk result }
    {
        self.text_of(alloc, Datum::PhoneNumberInvalid(reason))
    }

    fn ip_invalid(&self, alloc: Global, kind: IpKind) -> Result<CowStr<'static>, AllocError> {
        self.text_of(alloc, Datum::IpInvalid(kind))
    }

    fn matches_field_mismatch(
        &self,
        alloc: Global,
        field: &str,
    ) -> Result<CowStr<'static>, AllocError> {
        self.text_of(alloc, Datum::MatchesFieldMismatch(field))
    }

    fn ascii_invalid(&self, alloc: Global) -> Result<CowStr<'static>, AllocError>
        ensures text { IfOk result (λ s. cow_str_bytes s ≡ T.texts self.now datum.not_ascii) }
        ensures given { T.borrowed self.now datum.not_ascii → IsOk result }
    {
        self.text_of(alloc, Datum::AsciiInvalid)
    }

    fn alphanumeric_invalid(&self, alloc: Global) -> Result<CowStr<'static>, AllocError>
        ensures text { IfOk result (λ s. cow_str_bytes s ≡ T.texts self.now datum.not_alphanumeric) }
        ensures given { T.borrowed self.now datum.not_alphanumeric → IsOk result }
    {
        self.text_of(alloc, Datum::AlphanumericInvalid)
    }

    fn required_not_set(&self, alloc: Global) -> Result<CowStr<'static>, AllocError>
        ensures text { IfOk result (λ s. cow_str_bytes s ≡ T.texts self.now datum.not_set) }
        ensures given { T.borrowed self.now datum.not_set → IsOk result }
    {
        self.text_of(alloc, Datum::RequiredNotSet)
    }

    fn named(&self, alloc: Global, fault: Named<'_>) -> Result<CowStr<'static>, AllocError> {
        self.text_of(alloc, Datum::Named(fault))
    }
}
