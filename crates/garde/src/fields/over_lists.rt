//! Questions over the items of a list, as values.
ghost use Rattle.std.specs.Prelude.{◌≡◌, List};
ghost use Rattle.garde.specs.OverLists.{all_of, any_of, distinct, includes};

use super::lists::{all_of, any_of, distinct};
use super::question::Question;
use super::unique::{Equal, Same, includes};

/// A value that lends its items as a slice.
pub trait Listed {
    /// The type of an item.
    type Item;

    /// The items.
    ghost items: { Self → List Self.Item };

    /// The items.
    fn listed(&self) -> &[Self::Item]
        ensures { result.now ≡ items self.now };
}

impl<'s, T> Listed for &'s [T] {
    type Item = T;

    ghost items = { λ v. v.now };

    #[inline]
    fn listed(&self) -> &[T] {
        *self
    }
}

impl<T> Listed for Vec<T> {
    type Item = T;

    ghost items = { λ v. v.items };

    #[inline]
    fn listed(&self) -> &[T] {
        self.as_slice()
    }
}

/// That a question holds of each item.
#[derive(Clone, Copy, Debug)]
pub struct AllOf<Q>(pub Q);

impl<L: Listed, Q: Question<L::Item>> Question<L> for AllOf<Q> {
    ghost holds = { λ all list. all_of (λ x. Q.holds all.0 x) (L.items list) };

    fn holds(&self, value: &L) -> bool {
        all_of(value.listed(), &self.0)
    }
}

/// That a question holds of at least one item.
#[derive(Clone, Copy, Debug)]
pub struct AnyOf<Q>(pub Q);

impl<L: Listed, Q: Question<L::Item>> Question<L> for AnyOf<Q> {
    ghost holds = { λ any list. any_of (λ x. Q.holds any.0 x) (L.items list) };

    fn holds(&self, value: &L) -> bool {
        any_of(value.listed(), &self.0)
    }
}

/// That an item is equal to this value.
#[derive(Clone, Copy, Debug)]
pub struct Includes<T>(pub T);

impl<L: Listed> Question<L> for Includes<L::Item>
where
    L::Item: PartialEq,
{
    ghost holds = { λ rule list. includes (λ x y. L.Item.eq x y) (L.items list) rule.0 };

    fn holds(&self, value: &L) -> bool {
        includes(value.listed(), &Equal, &self.0)
    }
}

/// That no two items are the same.
#[derive(Clone, Copy, Debug)]
pub struct Distinct<S>(pub S);

impl<L: Listed, S: Same<L::Item>> Question<L> for Distinct<S> {
    ghost holds = { λ rule list. distinct (λ x y. S.same rule.0 x y) (L.items list) };

    fn holds(&self, value: &L) -> bool {
        distinct(value.listed(), &self.0)
    }
}
