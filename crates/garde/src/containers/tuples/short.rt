//! Tuples of one to six items.
ghost use Rattle.garde.specs.Visits.{item, ◌and◌};

use super::{Item, Items};
use crate::stated::Stated;
use crate::validate::Validate;
use garde_i18n::I18n;
use garde_report::{Report, Trail};
use std::alloc::AllocError;

/// Each item in order, under its index.
impl<A: Stated> Stated for (A,) {
    type Context = A::Context;

    ghost visits = { λ v c. item 0 (A.visits v.0 c) };
}

impl<A: Validate> Validate for (A,) {
    fn validate_into<'a, H: I18n>(
        &'a self,
        ctx: &A::Context,
        trail: &mut Trail<'a>,
        report: &mut Report,
        h: &H,
    ) -> Result<(), AllocError> {
        items!(self; 0).visit(ctx, self, trail, report, h)
    }
}

/// Each item in order, under its index.
impl<A: Stated, B: Stated<Context = A::Context>> Stated for (A, B) {
    type Context = A::Context;

    ghost visits = { λ v c. item 0 (A.visits v.0 c) and item 1 (B.visits v.1 c) };
}

impl<A: Validate, B: Validate<Context = A::Context>> Validate for (A, B) {
    fn validate_into<'a, H: I18n>(
        &'a self,
        ctx: &A::Context,
        trail: &mut Trail<'a>,
        report: &mut Report,
        h: &H,
    ) -> Result<(), AllocError> {
        items!(self; 0 1).visit(ctx, self, trail, report, h)
    }
}

/// Each item in order, under its index.
impl<A: Stated, B: Stated<Context = A::Context>, C: Stated<Context = A::Context>> Stated
    for (A, B, C) {
    type Context = A::Context;

    ghost visits = { λ v c.
        item 0 (A.visits v.0 c) and item 1 (B.visits v.1 c) and item 2 (C.visits v.2 c) };
}

impl<A: Validate, B: Validate<Context = A::Context>, C: Validate<Context = A::Context>> Validate
    for (A, B, C) {
    fn validate_into<'a, H: I18n>(
        &'a self,
        ctx: &A::Context,
        trail: &mut Trail<'a>,
        report: &mut Report,
        h: &H,
    ) -> Result<(), AllocError> {
        items!(self; 0 1 2).visit(ctx, self, trail, report, h)
    }
}

/// Each item in order, under its index.
impl<
    A: Stated,
    B: Stated<Context = A::Context>,
    C: Stated<Context = A::Context>,
    D: Stated<Context = A::Context>,
> Stated for (A, B, C, D) {
    type Context = A::Context;

    ghost visits = { λ v c.
        item 0 (A.visits v.0 c) and item 1 (B.visits v.1 c) and item 2 (C.visits v.2 c)
        and item 3 (D.visits v.3 c) };
}

impl<
    A: Validate,
    B: Validate<Context = A::Context>,
    C: Validate<Context = A::Context>,
    D: Validate<Context = A::Context>,
> Validate for (A, B, C, D) {
    fn validate_into<'a, H: I18n>(
        &'a self,
        ctx: &A::Context,
        trail: &mut Trail<'a>,
        report: &mut Report,
        h: &H,
    ) -> Result<(), AllocError> {
        items!(self; 0 1 2 3).visit(ctx, self, trail, report, h)
    }
}

/// Each item in order, under its index.
impl<
    A: Stated,
    B: Stated<Context = A::Context>,
    C: Stated<Context = A::Context>,
    D: Stated<Context = A::Context>,
    E: Stated<Context = A::Context>,
> Stated for (A, B, C, D, E) {
    type Context = A::Context;

    ghost visits = { λ v c.
        item 0 (A.visits v.0 c) and item 1 (B.visits v.1 c) and item 2 (C.visits v.2 c)
        and item 3 (D.visits v.3 c) and item 4 (E.visits v.4 c) };
}

impl<
    A: Validate,
    B: Validate<Context = A::Context>,
    C: Validate<Context = A::Context>,
    D: Validate<Context = A::Context>,
    E: Validate<Context = A::Context>,
> Validate for (A, B, C, D, E) {
    fn validate_into<'a, H: I18n>(
        &'a self,
        ctx: &A::Context,
        trail: &mut Trail<'a>,
        report: &mut Report,
        h: &H,
    ) -> Result<(), AllocError> {
        items!(self; 0 1 2 3 4).visit(ctx, self, trail, report, h)
    }
}

/// Each item in order, under its index.
impl<
    A: Stated,
    B: Stated<Context = A::Context>,
    C: Stated<Context = A::Context>,
    D: Stated<Context = A::Context>,
    E: Stated<Context = A::Context>,
    F: Stated<Context = A::Context>,
> Stated for (A, B, C, D, E, F) {
    type Context = A::Context;

    ghost visits = { λ v c.
        item 0 (A.visits v.0 c) and item 1 (B.visits v.1 c) and item 2 (C.visits v.2 c)
        and item 3 (D.visits v.3 c) and item 4 (E.visits v.4 c) and item 5 (F.visits v.5 c) };
}

impl<
    A: Validate,
    B: Validate<Context = A::Context>,
    C: Validate<Context = A::Context>,
    D: Validate<Context = A::Context>,
    E: Validate<Context = A::Context>,
    F: Validate<Context = A::Context>,
> Validate for (A, B, C, D, E, F) {
    fn validate_into<'a, H: I18n>(
        &'a self,
        ctx: &A::Context,
        trail: &mut Trail<'a>,
        report: &mut Report,
        h: &H,
    ) -> Result<(), AllocError> {
        items!(self; 0 1 2 3 4 5).visit(ctx, self, trail, report, h)
    }
}
