//! A check of each item of a sequence, under its index.
ghost use Rattle.std.specs.Box.{boxed_slice_items};
ghost use Rattle.garde.specs.Visits.{items};

use super::Each;
use crate::fields::check::Check;
use crate::fields::each::loops::check_items;
use garde_i18n::I18n;
use garde_report::{Report, Trail};
use std::alloc::AllocError;
use std::boxed::BoxedSlice;
use std::collections::{LinkedList, VecDeque};

/// Each item in order, under its index.
impl<'a, T, C: Check<'a, T>> Check<'a, Vec<T>> for Each<C> {
    ghost visits = { λ each v. items (λ x. C.visits each.0 x) v.items };

    fn check<H: I18n>(
        &self,
        value: &'a Vec<T>,
        trail: &mut Trail<'a>,
        report: &mut Report,
        h: &H,
    ) -> Result<(), AllocError> {
        check_items(value.iter(), &self.0, trail, report, h)
    }
}

/// Each item in order, under its index.
impl<'a, T, C: Check<'a, T>> Check<'a, BoxedSlice<T>> for Each<C> {
    ghost visits = { λ each v. items (λ x. C.visits each.0 x) (boxed_slice_items v) };

    fn check<H: I18n>(
        &self,
        value: &'a BoxedSlice<T>,
        trail: &mut Trail<'a>,
        report: &mut Report,
        h: &H,
    ) -> Result<(), AllocError> {
        let boxed = value.as_slice();
        check_items(boxed.iter(), &self.0, trail, report, h)
    }
}

/// Each item in order, under its index.
impl<'a, 's, T, C: Check<'a, T>> Check<'a, &'s [T]> for Each<C> {
    ghost visits = { λ each v. items (λ x. C.visits each.0 x) v.now };

    fn check<H: I18n>(
        &self,
        value: &'a &'s [T],
        trail: &mut Trail<'a>,
        report: &mut Report,
        h: &H,
    ) -> Result<(), AllocError> {
        let borrowed = value.iter();
        check_items(borrowed, &self.0, trail, report, h)
    }
}

/// Each item in order, under its index.
impl<'a, T, const N: usize, C: Check<'a, T>> Check<'a, [T; N]> for Each<C> {
    ghost visits = { λ each v. items (λ x. C.visits each.0 x) v };

    fn check<H: I18n>(
        &self,
        value: &'a [T; N],
        trail: &mut Trail<'a>,
        report: &mut Report,
        h: &H,
    ) -> Result<(), AllocError> {
        let items = value.iter();
        check_items(items, &self.0, trail, report, h)
    }
}

/// Each item in order, under its index.
impl<'a, T, C: Check<'a, T>> Check<'a, VecDeque<T>> for Each<C> {
    ghost visits = { λ each v. items (λ x. C.visits each.0 x) v.items };

    fn check<H: I18n>(
        &self,
        value: &'a VecDeque<T>,
        trail: &mut Trail<'a>,
        report: &mut Report,
        h: &H,
    ) -> Result<(), AllocError> {
        let front_to_back = value.iter();
        check_items(front_to_back, &self.0, trail, report, h)
    }
}

/// Each item in order, under its index.
impl<'a, T, C: Check<'a, T>> Check<'a, LinkedList<T>> for Each<C> {
    ghost visits = { λ each v. items (λ x. C.visits each.0 x) v };

    fn check<H: I18n>(
        &self,
        value: &'a LinkedList<T>,
        trail: &mut Trail<'a>,
        report: &mut Report,
        h: &H,
    ) -> Result<(), AllocError> {
        let head_to_tail = value.iter();
        check_items(head_to_tail, &self.0, trail, report, h)
    }
}
