//! Sequences, each item under its index.
ghost use Rattle.garde.specs.Visits.{items};

use crate::fields::{Check, Dive, Each};
use crate::stated::Stated;
use crate::validate::Validate;
use garde_i18n::I18n;
use garde_report::{Report, Trail};
use std::alloc::AllocError;
use std::collections::{LinkedList, VecDeque};

/// Each item in order, under its index.
impl<T: Stated> Stated for Vec<T> {
    type Context = T::Context;

    ghost visits = { λ v c. items (λ x. T.visits x c) v.items };
}

impl<T: Validate> Validate for Vec<T> {
    fn validate_into<'a, H: I18n>(
        &'a self,
        ctx: &T::Context,
        trail: &mut Trail<'a>,
        report: &mut Report,
        h: &H,
    ) -> Result<(), AllocError> {
        Each(Dive(ctx)).check(self, trail, report, h)
    }
}

/// Each item in order, under its index.
impl<T: Stated> Stated for &[T] {
    type Context = T::Context;

    ghost visits = { λ v c. items (λ x. T.visits x c) v.now };
}

impl<T: Validate> Validate for &[T] {
    fn validate_into<'a, H: I18n>(
        &'a self,
        ctx: &T::Context,
        trail: &mut Trail<'a>,
        report: &mut Report,
        h: &H,
    ) -> Result<(), AllocError> {
        Each(Dive(ctx)).check(self, trail, report, h)
    }
}

/// Each item in order, under its index.
impl<T: Stated, const N: usize> Stated for [T; N] {
    type Context = T::Context;

    ghost visits = { λ v c. items (λ x. T.visits x c) v };
}

impl<T: Validate, const N: usize> Validate for [T; N] {
    fn validate_into<'a, H: I18n>(
        &'a self,
        ctx: &T::Context,
        trail: &mut Trail<'a>,
        report: &mut Report,
        h: &H,
    ) -> Result<(), AllocError> {
        Each(Dive(ctx)).check(self, trail, report, h)
    }
}

/// Each item in order, under its index.
impl<T: Stated> Stated for VecDeque<T> {
    type Context = T::Context;

    ghost visits = { λ v c. items (λ x. T.visits x c) v.items };
}

impl<T: Validate> Validate for VecDeque<T> {
    fn validate_into<'a, H: I18n>(
        &'a self,
        ctx: &T::Context,
        trail: &mut Trail<'a>,
        report: &mut Report,
        h: &H,
    ) -> Result<(), AllocError> {
        Each(Dive(ctx)).check(self, trail, report, h)
    }
}

/// Each item in order, under its index.
impl<T: Stated> Stated for LinkedList<T> {
    type Context = T::Context;

    ghost visits = { λ v c. items (λ x. T.visits x c) v };
}

impl<T: Validate> Validate for LinkedList<T> {
    fn validate_into<'a, H: I18n>(
        &'a self,
        ctx: &T::Context,
        trail: &mut Trail<'a>,
        report: &mut Report,
        h: &H,
    ) -> Result<(), AllocError> {
        Each(Dive(ctx)).check(self, trail, report, h)
    }
}
