//! The rules as values, each named as the attribute of the Rust crate's derive that asks for it.
//!
//! A rule whose trait has the same name stands here, since a module has each name once. The others
//! stand beside their traits.
ghost use Rattle.std.specs.Prelude.{option_map};
ghost use Rattle.garde_i18n.specs.Datum as datum;
ghost use Rattle.garde_rules.specs.Holds.{unless};
ghost use Rattle.garde_rules.specs.Memory.{AppliesInMemory, AppliesIfKnown};
ghost use Rattle.garde_rules.specs.Reasons.{card_fault, phone_fault, url_fault, read_answer};

use crate::ip::IpKind;
pub use crate::memory_rule::MemoryRule;
pub use crate::multiple_of::MultipleOf;
use crate::pattern::Matcher;
pub use crate::range::Range;
pub use crate::view::{Adapt, View};
pub use crate::with_message::WithMessage;
use crate::{
    alphanumeric, ascii, contains, credit_card, ip, matches, pattern, phone_number, prefix,
    required, suffix, url,
};
use garde_engines::Rule;
pub use garde_engines::length::bytes::ByteLength;
pub use garde_engines::length::chars::CharLength;
pub use garde_engines::length::graphemes::GraphemeLength;
pub use garde_engines::length::simple::Length;
pub use garde_engines::length::utf16::Utf16Length;
use garde_i18n::I18n;
use garde_report::RuleError;
use std::alloc::Global;

/// The rule as a value: every byte is below 128.
#[derive(Clone, Copy, Debug, Default, PartialEq, Eq)]
pub struct Ascii;

impl<T: ascii::Ascii> Rule<T> for Ascii {
    ghost finds = { λ _ v. unless (T.passes v) datum.not_ascii };

    #[inline]
    fn holds(&self, value: &T) -> bool {
        value.validate_ascii()
    }

    fn find<H: I18n>(&self, alloc: Global, value: &T, h: &H) -> Result<(), RuleError> {
        ascii::apply(alloc, value, (), h)
    }
}

/// The rule as a value: every character is a letter or a number.
#[derive(Clone, Copy, Debug, Default, PartialEq, Eq)]
pub struct Alphanumeric;

impl<T: alphanumeric::Alphanumeric> Rule<T> for Alphanumeric {
    ghost finds = { λ _ v. unless (T.passes v) datum.not_alphanumeric };

    #[inline]
    fn holds(&self, value: &T) -> bool {
        value.validate_alphanumeric()
    }

    fn find<H: I18n>(&self, alloc: Global, value: &T, h: &H) -> Result<(), RuleError> {
        alphanumeric::apply(alloc, value, (), h)
    }
}

/// The rule as a value: the text has this pattern as a part.
#[derive(Clone, Copy, Debug)]
pub struct Contains<'a>(pub &'a str);

impl<T: contains::Contains> Rule<T> for Contains<'_> {
    ghost finds = { λ rule v. unless (T.passes rule.0.now v) (datum.contains rule.0.now) };

    #[inline]
    fn holds(&self, value: &T) -> bool {
        value.validate_contains(self.0)
    }

    fn find<H: I18n>(&self, alloc: Global, value: &T, h: &H) -> Result<(), RuleError> {
        contains::apply(alloc, value, (self.0,), h)
    }
}

/// The rule as a value: the text begins with this pattern.
#[derive(Clone, Copy, Debug)]
pub struct Prefix<'a>(pub &'a str);

impl<T: prefix::Prefix> Rule<T> for Prefix<'_> {
    ghost finds = { λ rule v. unless (T.passes rule.0.now v) (datum.prefix rule.0.now) };

    #[inline]
    fn holds(&self, value: &T) -> bool {
        value.validate_prefix(self.0)
    }

    fn find<H: I18n>(&self, alloc: Global, value: &T, h: &H) -> Result<(), RuleError> {
        prefix::apply(alloc, value, (self.0,), h)
    }
}

/// The rule as a value: the text ends with this pattern.
#[derive(Clone, Copy, Debug)]
pub struct Suffix<'a>(pub &'a str);

impl<T: suffix::Suffix> Rule<T> for Suffix<'_> {
    ghost finds = { λ rule v. unless (T.passes rule.0.now v) (datum.suffix rule.0.now) };

    #[inline]
    fn holds(&self, value: &T) -> bool {
        value.validate_suffix(self.0)
    }

    fn find<H: I18n>(&self, alloc: Global, value: &T, h: &H) -> Result<(), RuleError> {
        suffix::apply(alloc, value, (self.0,), h)
    }
}

/// The rule as a value: the value matches that of another field.
#[derive(Debug)]
#[derive_where(Clone, Copy)]
pub struct Matches<'a, O> {
    /// The name of the other field.
    pub field: &'a str,
    /// The value of the other field.
    pub other: &'a O,
}

impl<T: matches::Matches<O>, O> Rule<T> for Matches<'_, O> {
    ghost finds = { λ rule v. unless (T.passes v rule.other.now) (datum.matches rule.field.now) };

    #[inline]
    fn holds(&self, value: &T) -> bool {
        value.validate_matches(self.other)
    }

    fn find<H: I18n>(&self, alloc: Global, value: &T, h: &H) -> Result<(), RuleError> {
        matches::apply(alloc, value, (self.field, self.other), h)
    }
}

/// The rule as a value: the value is there.
#[derive(Clone, Copy, Debug, Default, PartialEq, Eq)]
pub struct Required;

impl<T: required::Required> Rule<T> for Required {
    ghost finds = { λ _ v. unless (T.set v) datum.not_set };

    #[inline]
    fn holds(&self, value: &T) -> bool {
        value.is_set()
    }

    fn find<H: I18n>(&self, alloc: Global, value: &T, h: &H) -> Result<(), RuleError> {
        required::apply(alloc, value, (), h)
    }
}

/// The rule as a value: the value is an IP address of this kind.
#[derive(Clone, Copy, Debug)]
pub struct Ip(pub IpKind);

impl<T: ip::Ip> Rule<T> for Ip {
    ghost finds = { λ rule v. unless (T.passes rule.0 v) (datum.ip rule.0) };

    #[inline]
    fn holds(&self, value: &T) -> bool {
        value.validate_ip(self.0).is_ok()
    }

    fn find<H: I18n>(&self, alloc: Global, value: &T, h: &H) -> Result<(), RuleError> {
        ip::apply(alloc, value, (self.0,), h)
    }
}

/// The rule as a value: the value is a credit card number.
#[derive(Clone, Copy, Debug, Default, PartialEq, Eq)]
pub struct CreditCard;

impl<T: credit_card::CreditCard> Rule<T> for CreditCard {
    ghost finds = { λ _ v. card_fault (T.answer v) };

    #[inline]
    fn holds(&self, value: &T) -> bool {
        value.validate_credit_card().is_ok()
    }

    fn find<H: I18n>(&self, alloc: Global, value: &T, h: &H) -> Result<(), RuleError> {
        credit_card::apply(alloc, value, (), h)
    }
}

/// The rule as a value: the value is a phone number.
#[derive(Clone, Copy, Debug, Default, PartialEq, Eq)]
pub struct PhoneNumber;

impl<T: phone_number::PhoneNumber> Rule<T> for PhoneNumber {
    ghost finds = { λ _ v. phone_fault (T.answer v) };

    #[inline]
    fn holds(&self, value: &T) -> bool {
        value.validate_phone_number().is_ok()
    }

    fn find<H: I18n>(&self, alloc: Global, value: &T, h: &H) -> Result<(), RuleError> {
        phone_number::apply(alloc, value, (), h)
    }
}

/// The rule as a value: the matcher's pattern matches anywhere in the text.
#[derive(Debug)]
#[derive_where(Clone, Copy)]
pub struct Pattern<'a, M>(pub &'a M);

impl<T: pattern::Pattern, M: Matcher> MemoryRule<T> for Pattern<'_, M> {
    ghost finds = { λ rule v. unless (T.passes (M.matches rule.0.now) v) (datum.pattern (M.text rule.0.now)) };

    fn find_in_memory<H: I18n>(&self, alloc: Global, value: &T, h: &H) -> Result<(), RuleError> {
        pattern::apply(alloc, value, (self.0,), h)
    }
}

/// The rule as a value: the text is an absolute URL.
#[derive(Clone, Copy, Debug, Default, PartialEq, Eq)]
pub struct Url;

impl<T: url::Url> MemoryRule<T> for Url {
    ghost finds = { λ _ v. url_fault (read_answer (T.answer v)) };

    fn find_in_memory<H: I18n>(&self, alloc: Global, value: &T, h: &H) -> Result<(), RuleError>
        ensures fault { AppliesInMemory (url_fault (read_answer (T.answer value.now))) (H.text h.now) result }
        ensures known { AppliesIfKnown (option_map url_fault (T.answer value.now)) (H.text h.now) result }
    {
        url::apply(alloc, value, (), h)
    }
}
