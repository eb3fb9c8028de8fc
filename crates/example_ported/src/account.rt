//! An account: texts under the rules of texts, and one that is given twice.
ghost use Rattle.garde.specs.Fields.{◌and◌, alphanumeric, ascii, at_least, at_most, between, bytes, chars, field, is, matches, str, text_eq};

use garde::fields::{Alphanumeric, Ascii, Field, Fields, Is, Matches};
use garde::{I18n, Report, Stated, Trail, Validate, length};
use std::alloc::AllocError;

/// Who has an account.
#[derive(Drop)]
pub struct Account {
    pub username: String,
    /// At least 15 bytes.
    pub password: String,
    pub again: String,
    pub code: String,
    pub remember: bool,
}

impl Stated for Account {
    type Context = ();

    ghost visits = { λ v _.
        field "username" (is (ascii (str v.username)) and is (bytes (between 3 25) (str v.username)))
        and field "password" (is (bytes (at_least 15) (str v.password)))
        and field "again" (is (matches "password" (text_eq (str v.again) (str v.password))))
        and field "code" (is (alphanumeric (str v.code)) and is (chars (at_most 8) (str v.code))) };
}

impl Validate for Account {
    fn validate_into<'a, H: I18n>(
        &'a self,
        _ctx: &(),
        trail: &mut Trail<'a>,
        report: &mut Report,
        h: &H,
    ) -> Result<(), AllocError> {
        let Self {
            username,
            password,
            again,
            code,
            remember: _,
        } = self;
        (
            Field(
                "username",
                username,
                (Is(Ascii), Is(length!(min = 3, max = 25))),
            ),
            Field("password", password, Is(length!(min = 15))),
            Field(
                "again",
                again,
                Is(Matches {
                    field: "password",
                    other: password,
                }),
            ),
            Field(
                "code",
                code,
                (Is(Alphanumeric), Is(length!(chars, max = 8))),
            ),
        )
            .visit(trail, report, h)
    }
}
