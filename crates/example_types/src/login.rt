//! Two texts, each under the rules of its field.
ghost use Rattle.garde.specs.Fields.{◌and◌, ascii, at_least, between, bytes, field, is, str};

use garde::fields::{Ascii, Field, Fields, Is};
use garde::{I18n, Report, Stated, Trail, Validate, length};
use std::alloc::AllocError;

/// Who logs in: a name of 3 to 25 bytes of ASCII, and a password of 15 bytes at least.
#[derive(Debug, Drop)]
pub struct Login {
    pub username: String,
    pub password: String,
    /// Whether the login is to be kept. Nothing is asked of it.
    pub remember: bool,
}

impl Stated for Login {
    type Context = ();

    ghost visits = { λ v _.
        field "username" (is (ascii (str v.username)) and is (bytes (between 3 25) (str v.username)))
        and field "password" (is (bytes (at_least 15) (str v.password))) };
}

impl Validate for Login {
    fn validate_into<'a, H: I18n>(
        &'a self,
        _ctx: &(),
        trail: &mut Trail<'a>,
        report: &mut Report,
        h: &H,
    ) -> Result<(), AllocError> {
        let Self {
            username,
            password,
            remember: _,
        } = self;
        (
            Field(
                "username",
                username,
                (Is(Ascii), Is(length!(min = 3, max = 25))),
            ),
            Field("password", password, Is(length!(min = 15))),
        )
            .visit(trail, report, h)
    }
}
