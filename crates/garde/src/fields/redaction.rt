//! Rules whose messages do not depend on the value that they are asked of.
ghost use Rattle.std.specs.Prelude.{List, [], not, ◌||◌, is_some};
ghost use Rattle.garde_i18n.specs.Datum.{named, not_set};
ghost use Rattle.garde_rules.specs.{Fault};
ghost use Rattle.garde_rules.specs.RedactionLaws.{unless_among};
ghost use Rattle.garde.specs.Redaction.{AsksOnly, one_fault, own_fault};
ghost use Rattle.garde.specs.RedactionLaws.{asks_among, finds_none, finds_rule, finds_and, finds_may_allocate, finds_when, finds_optional, finds_each_of_option, finds_items, finds_unique};

mod tuples;

use super::asks::{Asks, AsksAs};
use super::condition::When;
use super::each::Each;
use super::if_some::IfSome;
use super::required_if::RequiredIf;
use super::rules::{Is, IsInMemory, Rules};
use super::unique::{Same, Unique};
use garde_rules::{Discreet, DiscreetInMemory};

/// Rules that say by themselves which faults they may find. The value only decides which of them,
/// and where. So no message of a report of theirs depends on the value, but by an argument of a
/// rule that is taken from it.
pub trait DiscreetRules<T>: Rules<T> {
    /// The faults that the rules may find, whatever the value is.
    ghost may_find: { Self → List Fault };

    /// What the rules find of any value are some of these.
    ghost discreet: { AsksOnly may_find Self.asks };
}

/// The message, where the condition does not hold.
impl<T> Discreet<T> for Asks<'_> {
    ghost may_find = { λ asks. own_fault asks.0.now };

    ghost discreet = { λ asks _. asks_among asks.0.now asks.1 };
}

/// The fault of the code, where the condition does not hold.
impl<T> Discreet<T> for AsksAs<'_> {
    ghost may_find = { λ asks. one_fault (named (asks.0.now, []) asks.1.now) };

    ghost discreet = { λ asks _. unless_among (named (asks.0.now, []) asks.1.now) asks.2 };
}

impl<T> Discreet<Option<T>> for RequiredIf {
    ghost may_find = { λ _. one_fault not_set };

    ghost discreet = { λ rule v. unless_among not_set (not rule.0 || is_some v) };
}

impl<T> DiscreetRules<T> for () {
    ghost may_find = { λ _. [] };

    ghost discreet = { λ _ _. finds_none };
}

impl<T, R: Discreet<T>> DiscreetRules<T> for Is<R> {
    ghost may_find = { λ is. R.may_find is.0 };

    ghost discreet = { λ is v. finds_rule (R.may_find is.0) (R.finds is.0 v) (R.discreet is.0 v) };
}

impl<T, R: DiscreetInMemory<T>> DiscreetRules<T> for IsInMemory<R> {
    ghost may_find = { λ is. R.may_find is.0 };

    ghost discreet = { λ is v.
        finds_may_allocate (finds_rule (R.may_find is.0) (R.finds is.0 v) (R.discreet is.0 v)) };
}

impl<'r, T, R: DiscreetRules<T>> DiscreetRules<T> for &'r R {
    ghost may_find = { λ rules. R.may_find rules.now };

    ghost discreet = { λ rules v. R.discreet rules.now v };
}

impl<T, R: DiscreetRules<T>> DiscreetRules<T> for When<R> {
    ghost may_find = { λ rules. R.may_find rules.1 };

    ghost discreet = { λ rules v. finds_when rules.0 (R.discreet rules.1 v) };
}

impl<T, R: DiscreetRules<T>> DiscreetRules<Option<T>> for IfSome<R> {
    ghost may_find = { λ rules. R.may_find rules.0 };

    ghost discreet = { λ rules v.
        finds_optional (R.may_find rules.0) (λ x. R.asks rules.0 x) v (λ x. R.discreet rules.0 x) };
}

impl<'s, T, R: DiscreetRules<T>> DiscreetRules<&'s [T]> for Each<R> {
    ghost may_find = { λ each. R.may_find each.0 };

    ghost discreet = { λ each v.
        finds_items (R.may_find each.0) (λ x. R.asks each.0 x) v.now (λ x. R.discreet each.0 x) };
}

impl<T, R: DiscreetRules<T>> DiscreetRules<Vec<T>> for Each<R> {
    ghost may_find = { λ each. R.may_find each.0 };

    ghost discreet = { λ each v.
        finds_items (R.may_find each.0) (λ x. R.asks each.0 x) v.items (λ x. R.discreet each.0 x) };
}

impl<T, R: DiscreetRules<T>> DiscreetRules<Option<T>> for Each<R> {
    ghost may_find = { λ each. R.may_find each.0 };

    ghost discreet = { λ each v.
        finds_each_of_option (R.may_find each.0) (λ x. R.asks each.0 x) v (λ x. R.discreet each.0 x) };
}

impl<'s, T, S: Same<T>> DiscreetRules<&'s [T]> for Unique<'_, S> {
    ghost may_find = { λ rules. own_fault rules.0.now };

    ghost discreet = { λ rules v. finds_unique rules.0.now (λ x y. S.same rules.1 x y) v.now };
}

impl<T, S: Same<T>> DiscreetRules<Vec<T>> for Unique<'_, S> {
    ghost may_find = { λ rules. own_fault rules.0.now };

    ghost discreet = { λ rules v. finds_unique rules.0.now (λ x y. S.same rules.1 x y) v.items };
}
