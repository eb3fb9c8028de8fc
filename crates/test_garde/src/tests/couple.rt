//! A generic struct, whose two parts are checked one after the other.
ghost use Rattle.garde.specs.Fields.{◌and◌, field};

use garde::fields::{Dive, Field, Fields};
use garde::{I18n, Report, Stated, Trail, Validate};
use std::alloc::AllocError;

/// Two values of one type.
#[derive(Drop)]
pub struct Couple<T> {
    pub left: T,
    pub right: T,
}

impl<T: Stated> Stated for Couple<T> {
    type Context = T::Context;

    ghost visits = { λ v c.
        field "left" (T.visits v.left c) and field "right" (T.visits v.right c) };
}

impl<T: Validate> Validate for Couple<T> {
    fn validate_into<'a, H: I18n>(
        &'a self,
        ctx: &T::Context,
        trail: &mut Trail<'a>,
        report: &mut Report,
        h: &H,
    ) -> Result<(), AllocError> {
        let Self { left, right } = self;
        (
            Field("left", left, Dive(ctx)),
            Field("right", right, Dive(ctx)),
        )
            .visit_of(self, trail, report, h)
    }
}
