//! Tuples of seven to twelve items.
ghost use Rattle.garde.specs.Visits.{item, ◌and◌};

use super::{Item, Items};
use crate::stated::Stated;
use crate::validate::Validate;
use garde_i18n::I18n;
use garde_report::{Report, Trail};
use std::alloc::AllocError;

/// Each item in order, under its index.
impl<
    A: Stated,
    B: Stated<Context = A::Context>,
    C: Stated<Context = A::Context>,
    D: Stated<Context = A::Context>,
    E: Stated<Context = A::Context>,
    F: Stated<Context = A::Context>,
    G: Stated<Context = A::Context>,
> Stated for (A, B, C, D, E, F, G) {
    type Context = A::Context;

    ghost visits = { λ v c.
        item 0 (A.visits v.0 c) and item 1 (B.visits v.1 c) and item 2 (C.visits v.2 c)
        and item 3 (D.visits v.3 c) and item 4 (E.visits v.4 c) and item 5 (F.visits v.5 c)
        and item 6 (G.visits v.6 c) };
}

impl<
    A: Validate,
    B: Validate<Context = A::Context>,
    C: Validate<Context = A::Context>,
    D: Validate<Context = A::Context>,
    E: Validate<Context = A::Context>,
    F: Validate<Context = A::Context>,
    G: Validate<Context = A::Context>,
> Validate for (A, B, C, D, E, F, G) {
    fn validate_into<'a, H: I18n>(
        &'a self,
        ctx: &A::Context,
        trail: &mut Trail<'a>,
        report: &mut Report,
        h: &H,
    ) -> Result<(), AllocError> {
        items!(self; 0 1 2 3 4 5 6).visit(ctx, self, trail, report, h)
    }
}

/// Each item in order, under its index.
impl<
    A: Stated,
    B: Stated<Context = A::Context>,
    C: Stated<Context = A::Context>,
    D: Stated<Context = A::Context>,
    E: Stated<Context = A::Context>,
    F: Stated<Context = A::Context>,
    G: Stated<Context = A::Context>,
    H: Stated<Context = A::Context>,
> Stated for (A, B, C, D, E, F, G, H) {
    type Context = A::Context;

    ghost visits = { λ v c.
        item 0 (A.visits v.0 c) and item 1 (B.visits v.1 c) and item 2 (C.visits v.2 c)
        and item 3 (D.visits v.3 c) and item 4 (E.visits v.4 c) and item 5 (F.visits v.5 c)
        and item 6 (G.visits v.6 c) and item 7 (H.visits v.7 c) };
}

impl<
    A: Validate,
    B: Validate<Context = A::Context>,
    C: Validate<Context = A::Context>,
    D: Validate<Context = A::Context>,
    E: Validate<Context = A::Context>,
    F: Validate<Context = A::Context>,
    G: Validate<Context = A::Context>,
    H: Validate<Context = A::Context>,
> Validate for (A, B, C, D, E, F, G, H) {
    fn validate_into<'a, Z: I18n>(
        &'a self,
        ctx: &A::Context,
        trail: &mut Trail<'a>,
        report: &mut Report,
        h: &Z,
    ) -> Result<(), AllocError> {
        items!(self; 0 1 2 3 4 5 6 7).visit(ctx, self, trail, report, h)
    }
}

/// Each item in order, under its index.
impl<
    A: Stated,
    B: Stated<Context = A::Context>,
    C: Stated<Context = A::Context>,
    D: Stated<Context = A::Context>,
    E: Stated<Context = A::Context>,
    F: Stated<Context = A::Context>,
    G: Stated<Context = A::Context>,
    H: Stated<Context = A::Context>,
    I: Stated<Context = A::Context>,
> Stated for (A, B, C, D, E, F, G, H, I) {
    type Context = A::Context;

    ghost visits = { λ v c.
        item 0 (A.visits v.0 c) and item 1 (B.visits v.1 c) and item 2 (C.visits v.2 c)
        and item 3 (D.visits v.3 c) and item 4 (E.visits v.4 c) and item 5 (F.visits v.5 c)
        and item 6 (G.visits v.6 c) and item 7 (H.visits v.7 c) and item 8 (I.visits v.8 c) };
}

impl<
    A: Validate,
    B: Validate<Context = A::Context>,
    C: Validate<Context = A::Context>,
    D: Validate<Context = A::Context>,
    E: Validate<Context = A::Context>,
    F: Validate<Context = A::Context>,
    G: Validate<Context = A::Context>,
    H: Validate<Context = A::Context>,
    I: Validate<Context = A::Context>,
> Validate for (A, B, C, D, E, F, G, H, I) {
    fn validate_into<'a, Z: I18n>(
        &'a self,
        ctx: &A::Context,
        trail: &mut Trail<'a>,
        report: &mut Report,
        h: &Z,
    ) -> Result<(), AllocError> {
        items!(self; 0 1 2 3 4 5 6 7 8).visit(ctx, self, trail, report, h)
    }
}

/// Each item in order, under its index.
impl<
    A: Stated,
    B: Stated<Context = A::Context>,
    C: Stated<Context = A::Context>,
    D: Stated<Context = A::Context>,
    E: Stated<Context = A::Context>,
    F: Stated<Context = A::Context>,
    G: Stated<Context = A::Context>,
    H: Stated<Context = A::Context>,
    I: Stated<Context = A::Context>,
    J: Stated<Context = A::Context>,
> Stated for (A, B, C, D, E, F, G, H, I, J) {
    type Context = A::Context;

    ghost visits = { λ v c.
        item 0 (A.visits v.0 c) and item 1 (B.visits v.1 c) and item 2 (C.visits v.2 c)
        and item 3 (D.visits v.3 c) and item 4 (E.visits v.4 c) and item 5 (F.visits v.5 c)
        and item 6 (G.visits v.6 c) and item 7 (H.visits v.7 c) and item 8 (I.visits v.8 c)
        and item 9 (J.visits v.9 c) };
}

impl<
    A: Validate,
    B: Validate<Context = A::Context>,
    C: Validate<Context = A::Context>,
    D: Validate<Context = A::Context>,
    E: Validate<Context = A::Context>,
    F: Validate<Context = A::Context>,
    G: Validate<Context = A::Context>,
    H: Validate<Context = A::Context>,
    I: Validate<Context = A::Context>,
    J: Validate<Context = A::Context>,
> Validate for (A, B, C, D, E, F, G, H, I, J) {
    fn validate_into<'a, Z: I18n>(
        &'a self,
        ctx: &A::Context,
        trail: &mut Trail<'a>,
        report: &mut Report,
        h: &Z,
    ) -> Result<(), AllocError> {
        items!(self; 0 1 2 3 4 5 6 7 8 9).visit(ctx, self, trail, report, h)
    }
}

/// Each item in order, under its index.
impl<
    A: Stated,
    B: Stated<Context = A::Context>,
    C: Stated<Context = A::Context>,
    D: Stated<Context = A::Context>,
    E: Stated<Context = A::Context>,
    F: Stated<Context = A::Context>,
    G: Stated<Context = A::Context>,
    H: Stated<Context = A::Context>,
    I: Stated<Context = A::Context>,
    J: Stated<Context = A::Context>,
    K: Stated<Context = A::Context>,
> Stated for (A, B, C, D, E, F, G, H, I, J, K) {
    type Context = A::Context;

    ghost visits = { λ v c.
        item 0 (A.visits v.0 c) and item 1 (B.visits v.1 c) and item 2 (C.visits v.2 c)
        and item 3 (D.visits v.3 c) and item 4 (E.visits v.4 c) and item 5 (F.visits v.5 c)
        and item 6 (G.visits v.6 c) and item 7 (H.visits v.7 c) and item 8 (I.visits v.8 c)
        and item 9 (J.visits v.9 c) and item 10 (K.visits v.10 c) };
}

impl<
    A: Validate,
    B: Validate<Context = A::Context>,
    C: Validate<Context = A::Context>,
    D: Validate<Context = A::Context>,
    E: Validate<Context = A::Context>,
    F: Validate<Context = A::Context>,
    G: Validate<Context = A::Context>,
    H: Validate<Context = A::Context>,
    I: Validate<Context = A::Context>,
    J: Validate<Context = A::Context>,
    K: Validate<Context = A::Context>,
> Validate for (A, B, C, D, E, F, G, H, I, J, K) {
    fn validate_into<'a, Z: I18n>(
        &'a self,
        ctx: &A::Context,
        trail: &mut Trail<'a>,
        report: &mut Report,
        h: &Z,
    ) -> Result<(), AllocError> {
        items!(self; 0 1 2 3 4 5 6 7 8 9 10).visit(ctx, self, trail, report, h)
    }
}

/// Each item in order, under its index.
impl<
    A: Stated,
    B: Stated<Context = A::Context>,
    C: Stated<Context = A::Context>,
    D: Stated<Context = A::Context>,
    E: Stated<Context = A::Context>,
    F: Stated<Context = A::Context>,
    G: Stated<Context = A::Context>,
    H: Stated<Context = A::Context>,
    I: Stated<Context = A::Context>,
    J: Stated<Context = A::Context>,
    K: Stated<Context = A::Context>,
    L: Stated<Context = A::Context>,
> Stated for (A, B, C, D, E, F, G, H, I, J, K, L) {
    type Context = A::Context;

    ghost visits = { λ v c.
        item 0 (A.visits v.0 c) and item 1 (B.visits v.1 c) and item 2 (C.visits v.2 c)
        and item 3 (D.visits v.3 c) and item 4 (E.visits v.4 c) and item 5 (F.visits v.5 c)
        and item 6 (G.visits v.6 c) and item 7 (H.visits v.7 c) and item 8 (I.visits v.8 c)
        and item 9 (J.visits v.9 c) and item 10 (K.visits v.10 c) and item 11 (L.visits v.11 c) };
}

impl<
    A: Validate,
    B: Validate<Context = A::Context>,
    C: Validate<Context = A::Context>,
    D: Validate<Context = A::Context>,
    E: Validate<Context = A::Context>,
    F: Validate<Context = A::Context>,
    G: Validate<Context = A::Context>,
    H: Validate<Context = A::Context>,
    I: Validate<Context = A::Context>,
    J: Validate<Context = A::Context>,
    K: Validate<Context = A::Context>,
    L: Validate<Context = A::Context>,
> Validate for (A, B, C, D, E, F, G, H, I, J, K, L) {
    fn validate_into<'a, Z: I18n>(
        &'a self,
        ctx: &A::Context,
        trail: &mut Trail<'a>,
        report: &mut Report,
        h: &Z,
    ) -> Result<(), AllocError> {
        items!(self; 0 1 2 3 4 5 6 7 8 9 10 11).visit(ctx, self, trail, report, h)
    }
}
