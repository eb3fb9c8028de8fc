//! Options: rules of what they hold, and the rule that they hold something.
ghost use Rattle.garde.specs.Fields.{◌and◌, ascii, at_least, at_most, between, bytes, each, each_of_option, field, if_some, is, is_in_memory, items, range, required, slice, str, url};

use garde::fields::{Ascii, Each, Field, Fields, IfSome, Is, IsInMemory, Required, Url};
use garde::{I18n, Report, Stated, Trail, Validate, length, range};
use std::alloc::AllocError;

/// Who comes.
#[derive(Drop)]
pub struct Guest {
    pub age: Option<u8>,
    pub nickname: Option<String>,
    pub site: Option<String>,
    pub motto: Option<String>,
    pub seats: Option<Vec<Option<u8>>>,
}

impl Stated for Guest {
    type Context = ();

    ghost visits = { λ v _.
        field "age" (is (required v.age) and if_some (λ x. is (range (between 18 120) x)) v.age)
        and field "nickname" (if_some (λ x. is (ascii (str x)) and is (bytes (at_least 2) (str x))) v.nickname and is (required v.nickname))
        and field "site" (if_some (λ x. is_in_memory (url (str x))) v.site)
        and field "motto" (each_of_option (λ x. is (ascii (str x))) v.motto)
        and field "seats" (if_some (λ x. is (items (at_most 2) (slice x))) v.seats and each_of_option (λ x. each (λ y. if_some (λ z. is (range (at_most 9) z)) y) (slice x)) v.seats) };
}

impl Validate for Guest {
    fn validate_into<'a, H: I18n>(
        &'a self,
        _ctx: &(),
        trail: &mut Trail<'a>,
        report: &mut Report,
        h: &H,
    ) -> Result<(), AllocError> {
        let Self {
            age,
            nickname,
            site,
            motto,
            seats,
        } = self;
        (
            Field(
                "age",
                age,
                (Is(Required), IfSome(Is(range!(min = 18, max = 120)))),
            ),
            Field(
                "nickname",
                nickname,
                (IfSome((Is(Ascii), Is(length!(min = 2)))), Is(Required)),
            ),
            Field("site", site, IfSome(IsInMemory(Url))),
            Field("motto", motto, Each(Is(Ascii))),
            Field(
                "seats",
                seats,
                (
                    IfSome(Is(length!(max = 2))),
                    Each(Each(IfSome(Is(range!(max = 9))))),
                ),
            ),
        )
            .visit(trail, report, h)
    }
}
