//! Types with parameters.
ghost use Rattle.garde.specs.Fields.{◌and◌, ascii, at_most, each, field, if_some, is, item, none, range, slice, str, Visits};
ghost use Rattle.example_ported.specs.declared.generic.Choice.TheVariants.{Part, Name, Neither};

use garde::fields::{Ascii, Dive, Each, Field, Fields, IfSome, Is, Item};
use garde::{I18n, Report, Stated, Trail, Validate, range};
use std::alloc::AllocError;

/// Two parts under one context.
#[derive(Drop)]
pub struct Couple<A, B> {
    pub left: A,
    pub right: Vec<B>,
}

impl<A: Stated, B: Stated<Context = A::Context>> Stated for Couple<A, B> {
    type Context = A::Context;

    ghost visits = { λ v ctx.
        field "left" (A.visits v.left ctx)
        and field "right" (each (λ x. B.visits x ctx) (slice v.right)) };
}

impl<A: Validate, B: Validate<Context = A::Context>> Validate for Couple<A, B> {
    fn validate_into<'a, H: I18n>(
        &'a self,
        ctx: &A::Context,
        trail: &mut Trail<'a>,
        report: &mut Report,
        h: &H,
    ) -> Result<(), AllocError> {
        let Self { left, right } = self;
        (
            Field("left", left, Dive(ctx)),
            Field("right", right, Each(Dive(ctx))),
        )
            .visit_of(self, trail, report, h)
    }
}

/// A part that has no context.
#[derive(Drop)]
pub struct Plain<T> {
    pub part: Option<T>,
}

impl<T: Stated<Context = ()>> Stated for Plain<T> {
    type Context = ();

    ghost visits = { λ v ctx. field "part" (if_some (λ x. T.visits x ctx) v.part) };
}

impl<T: Validate<Context = ()>> Validate for Plain<T> {
    fn validate_into<'a, H: I18n>(
        &'a self,
        ctx: &(),
        trail: &mut Trail<'a>,
        report: &mut Report,
        h: &H,
    ) -> Result<(), AllocError> {
        let Self { part } = self;
        Field("part", part, IfSome(Dive(ctx))).visit_of(self, trail, report, h)
    }
}

/// A part, a name that is borrowed, or neither.
#[derive(Drop)]
pub enum Choice<'a, T> {
    Part(T),
    Name { name: &'a str },
    Neither,
}

impl<'t, T: Stated> Stated for Choice<'t, T> {
    type Context = T::Context;

    ghost visits = { λ v ctx. elim v as (λ _. Visits) [
      | Part value ↦ item 0 (T.visits value ctx)
      | Name name ↦ field "name" (is (ascii name.now))
      | Neither ↦ none
    ] };
}

impl<'t, T: Validate> Validate for Choice<'t, T> {
    fn validate_into<'a, H: I18n>(
        &'a self,
        ctx: &T::Context,
        trail: &mut Trail<'a>,
        report: &mut Report,
        h: &H,
    ) -> Result<(), AllocError> {
        match self {
            Choice::Part(value) => Item(0, value, Dive(ctx)).visit_of(self, trail, report, h),
            Choice::Name { name } => {
                Field("name", name, Is(Ascii)).visit_of(self, trail, report, h)
            }
            Choice::Neither => ().visit(trail, report, h),
        }
    }
}

/// Cells of one digit.
#[derive(Drop)]
pub struct Grid<const N: usize> {
    pub cells: [u8; N],
}

impl<const N: usize> Stated for Grid<N> {
    type Context = ();

    ghost visits = { λ v _. field "cells" (each (λ x. is (range (at_most 9) x)) v.cells) };
}

impl<const N: usize> Validate for Grid<N> {
    fn validate_into<'a, H: I18n>(
        &'a self,
        _ctx: &(),
        trail: &mut Trail<'a>,
        report: &mut Report,
        h: &H,
    ) -> Result<(), AllocError> {
        let Self { cells } = self;
        Field("cells", cells, Each(Is(range!(max = 9)))).visit(trail, report, h)
    }
}

/// A value of which nothing is asked, and its label.
#[derive(Drop)]
pub struct Labelled<T> {
    pub value: T,
    pub label: String,
}

impl<T> Stated for Labelled<T> {
    type Context = ();

    ghost visits = { λ v _. field "label" (is (ascii (str v.label))) };
}

impl<T> Validate for Labelled<T> {
    fn validate_into<'a, H: I18n>(
        &'a self,
        _ctx: &(),
        trail: &mut Trail<'a>,
        report: &mut Report,
        h: &H,
    ) -> Result<(), AllocError> {
        let Self { value: _, label } = self;
        Field("label", label, Is(Ascii)).visit_of(self, trail, report, h)
    }
}
