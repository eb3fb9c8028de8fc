//! Rules whose messages do not depend on the value that they are asked of.
ghost use Rattle.std.specs.Prelude.{List};
ghost use Rattle.garde_i18n.specs.Datum as datum;
ghost use Rattle.garde_engines.specs.Applies.{Fault};
ghost use Rattle.garde_rules.specs.Reasons.{read_answer};
ghost use Rattle.garde_rules.specs.Redaction.{FindsOnly, one_fault, own_fault, length_faults, card_faults, phone_faults, url_faults};
ghost use Rattle.garde_rules.specs.RedactionLaws.{unless_among, message_among, length_among, card_among, phone_among, url_among};

use crate::memory_rule::MemoryRule;
use crate::pattern::Matcher;
use crate::values::{
    Adapt, Alphanumeric, Ascii, ByteLength, CharLength, Contains, CreditCard, GraphemeLength, Ip,
    Length, Matches, Pattern, PhoneNumber, Prefix, Required, Suffix, Url, Utf16Length, View,
    WithMessage,
};
use crate::{
    alphanumeric, ascii, contains, credit_card, ip, matches, pattern, phone_number, prefix,
    required, suffix, url,
};
use garde_engines::Rule;
use garde_engines::length::{bytes, chars, graphemes, simple, utf16};

/// A rule that says by itself which faults it may find. The value only decides which of them, or
/// none. So a message of it depends on the rule's arguments, and not on the value that it is asked
/// of. An argument that is taken from another field is reported.
pub trait Discreet<T>: Rule<T> {
    /// The faults that the rule may find, whatever the value is.
    ghost may_find: { Self → List Fault };

    /// What the rule finds of any value is one of these.
    ghost discreet: { FindsOnly may_find Self.finds };
}

/// The same of a rule that may allocate for its answer.
pub trait DiscreetInMemory<T>: MemoryRule<T> {
    /// The faults that the rule may find, whatever the value is.
    ghost may_find: { Self → List Fault };

    /// What the rule finds of any value is one of these.
    ghost discreet: { FindsOnly may_find Self.finds };
}

impl<T: simple::Simple> Discreet<T> for Length {
    ghost may_find = { λ rule. length_faults rule.min rule.max };

    ghost discreet = { λ rule v. length_among rule.min rule.max (T.answer rule.min rule.max v) };
}

impl<T: bytes::Bytes> Discreet<T> for ByteLength {
    ghost may_find = { λ rule. length_faults rule.min rule.max };

    ghost discreet = { λ rule v. length_among rule.min rule.max (T.answer rule.min rule.max v) };
}

impl<T: chars::Chars> Discreet<T> for CharLength {
    ghost may_find = { λ rule. length_faults rule.min rule.max };

    ghost discreet = { λ rule v. length_among rule.min rule.max (T.answer rule.min rule.max v) };
}

impl<T: graphemes::Graphemes> Discreet<T> for GraphemeLength {
    ghost may_find = { λ rule. length_faults rule.min rule.max };

    ghost discreet = { λ rule v. length_among rule.min rule.max (T.answer rule.min rule.max v) };
}

impl<T: utf16::Utf16CodeUnits> Discreet<T> for Utf16Length {
    ghost may_find = { λ rule. length_faults rule.min rule.max };

    ghost discreet = { λ rule v. length_among rule.min rule.max (T.answer rule.min rule.max v) };
}

impl<T: ascii::Ascii> Discreet<T> for Ascii {
    ghost may_find = { λ _. one_fault datum.not_ascii };

    ghost discreet = { λ _ v. unless_among datum.not_ascii (T.passes v) };
}

impl<T: alphanumeric::Alphanumeric> Discreet<T> for Alphanumeric {
    ghost may_find = { λ _. one_fault datum.not_alphanumeric };

    ghost discreet = { λ _ v. unless_among datum.not_alphanumeric (T.passes v) };
}

impl<T: contains::Contains> Discreet<T> for Contains<'_> {
    ghost may_find = { λ rule. one_fault (datum.contains rule.0.now) };

    ghost discreet = { λ rule v. unless_among (datum.contains rule.0.now) (T.passes rule.0.now v) };
}

impl<T: prefix::Prefix> Discreet<T> for Prefix<'_> {
    ghost may_find = { λ rule. one_fault (datum.prefix rule.0.now) };

    ghost discreet = { λ rule v. unless_among (datum.prefix rule.0.now) (T.passes rule.0.now v) };
}

impl<T: suffix::Suffix> Discreet<T> for Suffix<'_> {
    ghost may_find = { λ rule. one_fault (datum.suffix rule.0.now) };

    ghost discreet = { λ rule v. unless_among (datum.suffix rule.0.now) (T.passes rule.0.now v) };
}

impl<T: matches::Matches<O>, O> Discreet<T> for Matches<'_, O> {
    ghost may_find = { λ rule. one_fault (datum.matches rule.field.now) };

    ghost discreet = { λ rule v. unless_among (datum.matches rule.field.now) (T.passes v rule.other.now) };
}

impl<T: required::Required> Discreet<T> for Required {
    ghost may_find = { λ _. one_fault datum.not_set };

    ghost discreet = { λ _ v. unless_among datum.not_set (T.set v) };
}

impl<T: ip::Ip> Discreet<T> for Ip {
    ghost may_find = { λ rule. one_fault (datum.ip rule.0) };

    ghost discreet = { λ rule v. unless_among (datum.ip rule.0) (T.passes rule.0 v) };
}

impl<T: credit_card::CreditCard> Discreet<T> for CreditCard {
    ghost may_find = { λ _. card_faults };

    ghost discreet = { λ _ v. card_among (T.answer v) };
}

impl<T: phone_number::PhoneNumber> Discreet<T> for PhoneNumber {
    ghost may_find = { λ _. phone_faults };

    ghost discreet = { λ _ v. phone_among (T.answer v) };
}

/// The message is the only one, whatever the rule is.
impl<T, R: Rule<T>> Discreet<T> for WithMessage<'_, R> {
    ghost may_find = { λ rule. own_fault rule.1.now };

    ghost discreet = { λ rule v. message_among rule.1.now (R.finds rule.0 v) };
}

impl<T, V: View<T>, R: Discreet<V::Seen>> Discreet<T> for Adapt<V, R> {
    ghost may_find = { λ rule. R.may_find rule.1 };

    ghost discreet = { λ rule v. R.discreet rule.1 (V.seen rule.0 v) };
}

impl<T: pattern::Pattern, M: Matcher> DiscreetInMemory<T> for Pattern<'_, M> {
    ghost may_find = { λ rule. one_fault (datum.pattern (M.text rule.0.now)) };

    ghost discreet = { λ rule v.
        unless_among (datum.pattern (M.text rule.0.now)) (T.passes (M.matches rule.0.now) v) };
}

impl<T: url::Url> DiscreetInMemory<T> for Url {
    ghost may_find = { λ _. url_faults };

    ghost discreet = { λ _ v. url_among (read_answer (T.answer v)) };
}

impl<T, V: View<T>, R: DiscreetInMemory<V::Seen>> DiscreetInMemory<T> for Adapt<V, R> {
    ghost may_find = { λ rule. R.may_find rule.1 };

    ghost discreet = { λ rule v. R.discreet rule.1 (V.seen rule.0 v) };
}
