//! Fields that are given twice: texts that may be missing, and numbers.
ghost use Rattle.garde.specs.Fields.{◌and◌, at_most, between, bytes, field, if_some, is, matches, nat_eq, option_eq, range, str, text_eq};

use garde::fields::{Field, Fields, IfSome, Is, Matches};
use garde::{I18n, Report, Stated, Trail, Validate, length, range};
use std::alloc::AllocError;

/// Who changes an account.
#[derive(Drop)]
pub struct Pair {
    pub mail: Option<String>,
    pub mail_again: Option<String>,
    pub pin: u32,
    pub pin_again: u32,
}

impl Stated for Pair {
    type Context = ();

    ghost visits = { λ v _.
        field "mail" (if_some (λ x. is (bytes (at_most 80) (str x))) v.mail)
        and field "mail_again" (is (matches "mail" (option_eq (λ x y. text_eq (str x) (str y)) v.mail_again v.mail)))
        and field "pin" (is (range (between 1000 9999) v.pin))
        and field "pin_again" (is (matches "pin" (nat_eq v.pin_again v.pin))) };
}

impl Validate for Pair {
    fn validate_into<'a, H: I18n>(
        &'a self,
        _ctx: &(),
        trail: &mut Trail<'a>,
        report: &mut Report,
        h: &H,
    ) -> Result<(), AllocError> {
        let Self {
            mail,
            mail_again,
            pin,
            pin_again,
        } = self;
        (
            Field("mail", mail, IfSome(Is(length!(max = 80)))),
            Field(
                "mail_again",
                mail_again,
                Is(Matches {
                    field: "mail",
                    other: mail,
                }),
            ),
            Field("pin", pin, Is(range!(min = 1000, max = 9999))),
            Field(
                "pin_again",
                pin_again,
                Is(Matches {
                    field: "pin",
                    other: pin,
                }),
            ),
        )
            .visit(trail, report, h)
    }
}
