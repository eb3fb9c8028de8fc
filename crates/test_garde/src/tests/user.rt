//! Users, as sets, heaps and maps can hold them.
ghost use Rattle.garde.specs.Fields.{◌and◌, ascii, between, bytes, field, is, str};

use garde::fields::{Ascii, Field, Fields, Is, Length};
use garde::{I18n, Report, Stated, Trail, Validate};
use std::alloc::AllocError;

/// A user, whose name has 3 to 25 bytes, all of them ASCII.
#[derive(Debug, Drop, PartialEq, Eq, PartialOrd, Ord, Hash)]
pub struct User {
    pub username: String,
}

impl Stated for User {
    type Context = ();

    ghost visits = { λ user _.
        field "username" (is (ascii (str user.username)) and is (bytes (between 3 25) (str user.username))) };
}

impl Validate for User {
    fn validate_into<'a, H: I18n>(
        &'a self,
        _ctx: &(),
        trail: &mut Trail<'a>,
        report: &mut Report,
        h: &H,
    ) -> Result<(), AllocError> {
        let Self { username } = self;
        let rules = (Is(Ascii), Is(Length { min: 3, max: 25 }));
        Field("username", username, rules).visit(trail, report, h)
    }
}
