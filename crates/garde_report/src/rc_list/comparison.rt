//! How lists are compared and hashed.
ghost use Rattle.std.specs.Prelude.{◌≡◌, [], ◌∷◌, ◌++◌, length, reverse, refl, Some, MatchOption};
ghost use Rattle.std.specs.Cmp.{partial_order_from_agreeing_total};
ghost use Rattle.std.specs.Ordering.{ordering_then};
ghost use Rattle.std.specs.Cmp.Lexicographic.{pointwise, slice_cmp, lists_per, lists_equiv};
ghost use Rattle.std.specs.Hash as fed;
ghost use Rattle.garde_report.specs.Order.{shorter_first, shorter_first-total};
ghost use Rattle.garde_report.specs.Order.{shorter_first-ties, reverse-fed};

use super::{Front, List};
use std::cmp::Ordering;
use std::hash::{Hash, Hasher};

impl<T: PartialEq> PartialEq for List<T> {
    ghost eq = { pointwise T.eq };

    ghost laws = { lists_per T.laws };

    fn eq(&self, other: &List<T>) -> bool {
        if self.len() != other.len() {
            return false;
        }
        same_items(self.front(), other.front())
    }
}

// Whether lists of one length have the same items. From the last item on.
#[tactic(auto, using(crate::proofs::Pairs::pointwise_push))]
fn same_items<T: PartialEq>(mut list: Front<'_, T>, mut other: Front<'_, T>) -> bool
    requires { length list ≡ length other }
    ensures { result ≡ pointwise T.eq list.entry other.entry }
{
    while let Some((item, like)) = pop_both(&mut list, &mut other) {
        if item != like {
            return false;
        }
    }
    true
}

// Takes the last item from each of two lists of one length, if there are any.
fn pop_both<'a, 'b, T>(list: &mut Front<'a, T>, other: &mut Front<'b, T>) -> Option<(&'a T, &'b T)>
    requires { length list.old ≡ length other.old }
    ensures { MatchOption result ((list.old ≡ []) × (other.old ≡ []))
        (λ both. (list.old ≡ list.new ++ both.0.now ∷ []) × (other.old ≡ other.new ++ both.1.now ∷ [])) }
{
    Some((list.pop_last()?, other.pop_last()?))
}

impl<T: Eq> Eq for List<T> {
    ghost laws = { lists_equiv T.Eq.laws };
}

/// Fewer items come first, and then the first item that differs decides.
impl<T: Ord> Ord for List<T> {
    ghost cmp = { shorter_first T.cmp };

    ghost total = { shorter_first-total T.total };

    ghost matches_partial_cmp = { λ x y. refl };

    ghost matches_eq = { shorter_first-ties T.cmp T.matches_eq };

    fn cmp(&self, other: &List<T>) -> Ordering {
        if self.len() != other.len() {
            return self.len().cmp(&other.len());
        }
        match cmp_first(self, other) {
            Ordering::Equal => cmp_from_last(self.front(), other.front()),
            order => order,
        }
    }
}

// How the first items compare: where they differ, they decide.
fn cmp_first<T: Ord>(list: &List<T>, other: &List<T>) -> Ordering
    requires { length list.now ≡ length other.now }
    ensures { ordering_then result (slice_cmp T.cmp list.now other.now)
        ≡ slice_cmp T.cmp list.now other.now }
{
    match (list.get(0), other.get(0)) {
        (Some(item), Some(like)) => item.cmp(like),
        _ => Ordering::Equal,
    }
}

// How lists of one length compare. From the last item on, so an earlier item outweighs what was
// found.
#[tactic(auto, using(crate::proofs::Pairs::slice_cmp_push, crate::proofs::Pairs::then_assoc))]
fn cmp_from_last<T: Ord>(mut list: Front<'_, T>, mut other: Front<'_, T>) -> Ordering
    requires { length list ≡ length other }
    ensures { result ≡ slice_cmp T.cmp list.entry other.entry }
{
    let mut order = Ordering::Equal;
    while let Some((item, like)) = pop_both(&mut list, &mut other) {
        order = item.cmp(like).then(order);
    }
    order
}

impl<T: Ord> PartialOrd for List<T> {
    ghost partial_cmp = { λ x y. Some (shorter_first T.cmp x y) };

    ghost laws = { partial_order_from_agreeing_total (shorter_first T.cmp)
        (shorter_first-total T.total) (λ x y. refl) (shorter_first-ties T.cmp T.matches_eq) };

    fn partial_cmp(&self, other: &List<T>) -> Option<Ordering> {
        Some(self.cmp(other))
    }
}

impl<T: Hash> Hash for List<T> {
    ghost hash_input = { λ list. fed.slice T.hash_input (reverse list) };

    ghost respects_eq = { reverse-fed T.respects_eq };

    fn hash<H: Hasher>(&self, state: &mut H) {
        state.write_usize(self.len());
        for item in self.iter() {
            item.hash(state);
        }
    }
}
