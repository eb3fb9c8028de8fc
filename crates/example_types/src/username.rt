//! New types round a text, and a value that holds one of them.
ghost use Rattle.garde.specs.Fields.{at_least, bytes, field, is, item, str};

use garde::fields::{Check, Dive, Field, Fields, Is, check_under};
use garde::{Component, I18n, Report, Stated, Trail, Validate, length};
use std::alloc::AllocError;

/// A name that is transparent: its faults stand where the name stands.
#[derive(Drop)]
pub struct Username(pub String);

impl Stated for Username {
    type Context = ();

    ghost visits = { λ v _. is (bytes (at_least 3) (str v.0)) };
}

impl Validate for Username {
    fn validate_into<'a, H: I18n>(
        &'a self,
        _ctx: &(),
        trail: &mut Trail<'a>,
        report: &mut Report,
        h: &H,
    ) -> Result<(), AllocError> {
        let Self(name) = self;
        Is(length!(min = 3)).check(name, trail, report, h)
    }
}

/// A name that is a tuple of one field: its faults stand under the field's index.
#[derive(Drop)]
pub struct NumberedUsername(pub String);

impl Stated for NumberedUsername {
    type Context = ();

    ghost visits = { λ v _. item 0 (is (bytes (at_least 3) (str v.0))) };
}

impl Validate for NumberedUsername {
    fn validate_into<'a, H: I18n>(
        &'a self,
        _ctx: &(),
        trail: &mut Trail<'a>,
        report: &mut Report,
        h: &H,
    ) -> Result<(), AllocError> {
        let Self(name) = self;
        let long = Is(length!(min = 3));
        check_under(Component::index(0), &long, name, trail, report, h)
    }
}

/// A value that validates itself, under the name `username`.
#[derive(Drop)]
pub struct User<N> {
    pub username: N,
}

impl<N: Stated> Stated for User<N> {
    type Context = N::Context;

    ghost visits = { λ v c. field "username" (N.visits v.username c) };
}

impl<N: Validate> Validate for User<N> {
    fn validate_into<'a, H: I18n>(
        &'a self,
        ctx: &N::Context,
        trail: &mut Trail<'a>,
        report: &mut Report,
        h: &H,
    ) -> Result<(), AllocError> {
        let Self { username } = self;
        Field("username", username, Dive(ctx)).visit_of(self, trail, report, h)
    }
}
