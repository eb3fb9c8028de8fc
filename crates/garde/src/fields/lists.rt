//! Conditions over the items of a list.
ghost use Rattle.std.specs.Prelude.{◌≡◌};
ghost use Rattle.garde.specs.OverLists.{all_of, any_of, distinct};

use super::question::Question;
use super::unique::Same;

/// Whether the question holds of each item.
pub fn all_of<T, Q: Question<T>>(items: &[T], question: &Q) -> bool
    ensures { result ≡ all_of (λ x. Q.holds question.now x) items.now }
{
    for item in items {
        if !question.holds(item) {
            return false;
        }
    }
    true
}

/// Whether the question holds of an item at least.
pub fn any_of<T, Q: Question<T>>(items: &[T], question: &Q) -> bool
    ensures { result ≡ any_of (λ x. Q.holds question.now x) items.now }
{
    for item in items {
        if question.holds(item) {
            return true;
        }
    }
    false
}

// That a value is the same as this item.
#[derive(Drop)]
struct SameAs<'s, T, S> {
    same: &'s S,
    item: &'s T,
}

impl<'s, T, S: Same<T>> Question<T> for SameAs<'s, T, S> {
    ghost holds = { λ question value. S.same question.same.now question.item.now value };

    fn holds(&self, value: &T) -> bool {
        self.same.are_same(self.item, value)
    }
}

/// Whether no two items are the same.
///
/// Each item is compared with those behind it, so a list of 1,000 items takes up to 499,500
/// comparisons.
pub fn distinct<T, S: Same<T>>(items: &[T], same: &S) -> bool
    ensures { result ≡ distinct (λ x y. S.same same.now x y) items.now }
{
    let mut left = items;
    while let Some((item, rest)) = left.split_first() {
        if any_of(rest, &SameAs { same, item }) {
            return false;
        }
        left = rest;
    }
    true
}
