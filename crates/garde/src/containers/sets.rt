//! Sets and heaps, each item under the index at which it comes.
ghost use Rattle.std.specs.BinaryHeap.{heap_items};
ghost use Rattle.garde.specs.Visits.{items, items_in_any_order};

use crate::fields::{Check, Dive, Each};
use crate::stated::Stated;
use crate::validate::Validate;
use garde_i18n::I18n;
use garde_report::{Report, Trail};
use std::alloc::AllocError;
use std::collections::{BTreeSet, BinaryHeap, HashSet};
use std::hash::{BuildHasher, Hash};

/// Each item in the order of the set, under its index.
impl<T: Stated + Ord> Stated for BTreeSet<T> {
    type Context = T::Context;

    ghost visits = { λ v c. items (λ x. T.visits x c) v.keys };
}

impl<T: Validate + Ord> Validate for BTreeSet<T> {
    fn validate_into<'a, H: I18n>(
        &'a self,
        ctx: &T::Context,
        trail: &mut Trail<'a>,
        report: &mut Report,
        h: &H,
    ) -> Result<(), AllocError> {
        Each(Dive(ctx)).check(self, trail, report, h)
    }
}

/// Each item once in some order, under its index in that order.
impl<T: Stated + Eq + Hash, S: BuildHasher> Stated for HashSet<T, S> {
    type Context = T::Context;

    ghost visits = { λ v c. items_in_any_order (λ x. T.visits x c) v.keys };
}

impl<T: Validate + Eq + Hash, S: BuildHasher> Validate for HashSet<T, S> {
    fn validate_into<'a, H: I18n>(
        &'a self,
        ctx: &T::Context,
        trail: &mut Trail<'a>,
        report: &mut Report,
        h: &H,
    ) -> Result<(), AllocError> {
        Each(Dive(ctx)).check(self, trail, report, h)
    }
}

/// Each item once in some order, under its index in that order.
impl<T: Stated + Ord> Stated for BinaryHeap<T> {
    type Context = T::Context;

    ghost visits = { λ v c. items_in_any_order (λ x. T.visits x c) (heap_items v) };
}

impl<T: Validate + Ord> Validate for BinaryHeap<T> {
    fn validate_into<'a, H: I18n>(
        &'a self,
        ctx: &T::Context,
        trail: &mut Trail<'a>,
        report: &mut Report,
        h: &H,
    ) -> Result<(), AllocError> {
        Each(Dive(ctx)).check(self, trail, report, h)
    }
}
