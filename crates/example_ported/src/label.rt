//! Texts that are borrowed.
ghost use Rattle.std.specs.Cow.{cow_str_bytes};
ghost use Rattle.garde.specs.Fields.{◌and◌, alphanumeric, ascii, at_least, at_most, between, bytes, chars, contains, each, field, graphemes, if_some, is, items, prefix};

use crate::own::IsShort;
use garde::fields::{Alphanumeric, Ascii, Contains, Each, Field, Fields, IfSome, Is, Prefix};
use garde::{I18n, Report, Stated, Trail, Validate, length};
use std::alloc::AllocError;
use std::borrow::CowStr;

/// A label.
#[derive(Drop)]
pub struct Label<'a> {
    pub name: &'a str,
    pub also: &'a [&'a str],
    pub code: Option<&'a str>,
    pub text: CowStr<'a>,
    pub mark: &'a str,
}

impl<'t> Stated for Label<'t> {
    type Context = ();

    ghost visits = { λ v _.
        field "name" (is (ascii v.name.now) and is (bytes (between 1 9) v.name.now))
        and field "also" (is (items (at_most 2) v.also.now) and each (λ x. is (prefix "b" x.now) and is (chars (at_most 2) x.now)) v.also.now)
        and field "code" (if_some (λ x. is (contains "-" x.now) and is (graphemes (at_least 2) x.now)) v.code)
        and field "text" (is (alphanumeric (cow_str_bytes v.text)))
        and field "mark" (is (⟦<IsShort as garde::fields::Rule<&'t str>>⟧.finds (record {}) v.mark)) };
}

impl<'t> Validate for Label<'t> {
    fn validate_into<'a, H: I18n>(
        &'a self,
        _ctx: &(),
        trail: &mut Trail<'a>,
        report: &mut Report,
        h: &H,
    ) -> Result<(), AllocError> {
        let Self {
            name,
            also,
            code,
            text,
            mark,
        } = self;
        (
            Field("name", name, (Is(Ascii), Is(length!(min = 1, max = 9)))),
            Field(
                "also",
                also,
                (
                    Is(length!(max = 2)),
                    Each((Is(Prefix("b")), Is(length!(chars, max = 2)))),
                ),
            ),
            Field(
                "code",
                code,
                IfSome((Is(Contains("-")), Is(length!(graphemes, min = 2)))),
            ),
            Field("text", text, Is(Alphanumeric)),
            Field("mark", mark, Is(IsShort)),
        )
            .visit_of(self, trail, report, h)
    }
}
