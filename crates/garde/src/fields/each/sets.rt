//! A check of each item of a set or a heap, under the index at which it comes.
ghost use Rattle.std.specs.BinaryHeap.{heap_items};
ghost use Rattle.garde.specs.Visits.{items, items_in_any_order};

use super::Each;
use crate::fields::check::Check;
use crate::fields::each::loops::check_items;
use garde_i18n::I18n;
use garde_report::{Report, Trail};
use std::alloc::AllocError;
use std::collections::{BTreeSet, BinaryHeap, HashSet};
use std::hash::{BuildHasher, Hash};

/// Each item in the order of the set, under its index.
impl<'a, T: Ord, C: Check<'a, T>> Check<'a, BTreeSet<T>> for Each<C> {
    ghost visits = { λ each v. items (λ x. C.visits each.0 x) v.keys };

    fn check<H: I18n>(
        &self,
        value: &'a BTreeSet<T>,
        trail: &mut Trail<'a>,
        report: &mut Report,
        h: &H,
    ) -> Result<(), AllocError> {
        let ascending = value.iter();
        check_items(ascending, &self.0, trail, report, h)
    }
}

/// Each item once in some order, under its index in that order.
impl<'a, T: Eq + Hash, S: BuildHasher, C: Check<'a, T>> Check<'a, HashSet<T, S>> for Each<C> {
    ghost visits = { λ each v. items_in_any_order (λ x. C.visits each.0 x) v.keys };

    fn check<H: I18n>(
        &self,
        value: &'a HashSet<T, S>,
        trail: &mut Trail<'a>,
        report: &mut Report,
        h: &H,
    ) -> Result<(), AllocError> {
        let some_order = value.iter();
        check_items(some_order, &self.0, trail, report, h)
    }
}

/// Each item once in some order, under its index in that order.
impl<'a, T: Ord, C: Check<'a, T>> Check<'a, BinaryHeap<T>> for Each<C> {
    ghost visits = { λ each v. items_in_any_order (λ x. C.visits each.0 x) (heap_items v) };

    fn check<H: I18n>(
        &self,
        value: &'a BinaryHeap<T>,
        trail: &mut Trail<'a>,
        report: &mut Report,
        h: &H,
    ) -> Result<(), AllocError> {
        let heap_order = value.iter();
        check_items(heap_order, &self.0, trail, report, h)
    }
}
