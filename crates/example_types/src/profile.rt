//! Options: a value that has to be there, and what is asked of a value that is there.
ghost use Rattle.garde.specs.Fields.{◌and◌, ascii, at_least, at_most, between, bytes, chars, field, if_some, is, is_in_memory, of_option, range, required, str, url};

use garde::fields::{Ascii, Field, Fields, IfSome, Is, IsInMemory, Required, Url};
use garde::{I18n, Report, Stated, Trail, Validate, length, range};
use std::alloc::AllocError;

/// What people say of themselves. A name has to be there.
#[derive(Drop)]
pub struct Profile {
    pub name: Option<String>,
    pub age: Option<u8>,
    pub motto: Option<String>,
    pub page: Option<String>,
}

impl Stated for Profile {
    type Context = ();

    ghost visits = { λ v _.
        field "name" (is (required v.name) and is (of_option (λ name. bytes (between 3 25) (str name)) v.name))
        and field "age" (is (of_option (λ age. range (at_least 18) age) v.age))
        and field "motto" (if_some (λ motto. is (ascii (str motto)) and is (chars (at_most 40) (str motto))) v.motto)
        and field "page" (is_in_memory (of_option (λ page. url (str page)) v.page)) };
}

impl Validate for Profile {
    fn validate_into<'a, H: I18n>(
        &'a self,
        _ctx: &(),
        trail: &mut Trail<'a>,
        report: &mut Report,
        h: &H,
    ) -> Result<(), AllocError> {
        let Self {
            name,
            age,
            motto,
            page,
        } = self;
        let short = Is(length!(chars, max = 40));
        (
            Field("name", name, (Is(Required), Is(length!(min = 3, max = 25)))),
            Field("age", age, Is(range!(min = 18))),
            Field("motto", motto, IfSome((Is(Ascii), short))),
            Field("page", page, IsInMemory(Url)),
        )
            .visit(trail, report, h)
    }
}
