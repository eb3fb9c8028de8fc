//! The users whose names are read.
ghost use Rattle.garde_check.specs.User.{user_visits};

use garde::fields::{Ascii, Field, Fields, Is, Length};
use garde::{I18n, Report, Stated, Trail, Validate};
use std::alloc::AllocError;

/// A user, whose name has 3 to 25 bytes, all of them ASCII.
#[derive(Drop)]
pub struct User {
    /// The name.
    pub username: String,
}

impl Stated for User {
    type Context = ();

    ghost visits = { λ user _. user_visits user };
}

impl Validate for User {
    fn validate_into<'a, H: I18n>(
        &'a self,
        _ctx: &(),
        trail: &mut Trail<'a>,
        report: &mut Report,
        h: &H,
    ) -> Result<(), AllocError> {
        let Self { username } = self;
        let rules = (Is(Ascii), Is(Length { min: 3, max: 25 }));
        Field("username", username, rules).visit(trail, report, h)
    }
}
