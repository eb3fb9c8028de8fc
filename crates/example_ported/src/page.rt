//! Rules under conditions.
ghost use Rattle.std.specs.Prelude.{is_some, ◌&&◌, ◌||◌};
ghost use Rattle.garde.specs.Fields.{◌and◌, ascii, at_least, at_most, between, bytes, each, field, if_some, is, items, nat_le, not, prefix, range, required, slice, str, when};

use garde::fields::{Ascii, Each, Field, Fields, IfSome, Is, Prefix, Required, When};
use garde::{I18n, Report, Stated, Trail, Validate, length, range};
use std::alloc::AllocError;

/// What a printer takes.
#[derive(Clone, Copy)]
pub struct Press {
    pub strict: bool,
}

/// A page, which says itself what is asked of its content.
#[derive(Drop)]
pub struct Page {
    pub plain: bool,
    pub short: bool,
    pub content: Option<String>,
    pub notes: Vec<String>,
    pub title: String,
    pub author: String,
    pub source: String,
    pub volume: String,
    pub number: u16,
}

impl Stated for Page {
    type Context = Press;

    ghost visits = { λ v press.
        field "content" (when v.plain (if_some (λ x. is (ascii (str x))) v.content) and when v.short (if_some (λ x. is (bytes (between 10 100) (str x))) v.content) and is (required v.content))
        and field "notes" (when (not press.strict) (each (λ x. is (bytes (at_most 4) (str x))) (slice v.notes)) and when press.strict (is (items (at_least 1) (slice v.notes))))
        and field "title" (when (v.plain && (not v.short)) (is (prefix "p-" (str v.title)) and is (bytes (at_most 6) (str v.title))))
        and field "author" (when (v.plain || v.short) (is (ascii (str v.author))))
        and field "source" (when (is_some v.content) (is (bytes (at_least 1) (str v.source))))
        and field "volume" (when (nat_le 10 v.number) (is (ascii (str v.volume))) and is (bytes (at_least 1) (str v.volume)))
        and field "number" (is (range (at_most 99) v.number)) };
}

impl Validate for Page {
    fn validate_into<'a, H: I18n>(
        &'a self,
        press: &Press,
        trail: &mut Trail<'a>,
        report: &mut Report,
        h: &H,
    ) -> Result<(), AllocError> {
        let Self {
            plain,
            short,
            content,
            notes,
            title,
            author,
            source,
            volume,
            number,
        } = self;
        (
            Field(
                "content",
                content,
                (
                    When(*plain, IfSome(Is(Ascii))),
                    When(*short, IfSome(Is(length!(min = 10, max = 100)))),
                    Is(Required),
                ),
            ),
            Field(
                "notes",
                notes,
                (
                    When(!press.strict, Each(Is(length!(max = 4)))),
                    When(press.strict, Is(length!(min = 1))),
                ),
            ),
            Field(
                "title",
                title,
                When(*plain && !*short, (Is(Prefix("p-")), Is(length!(max = 6)))),
            ),
            Field("author", author, When(*plain || *short, Is(Ascii))),
            Field(
                "source",
                source,
                When(content.is_some(), Is(length!(min = 1))),
            ),
            (
                Field(
                    "volume",
                    volume,
                    (When(*number >= 10, Is(Ascii)), Is(length!(min = 1))),
                ),
                Field("number", number, Is(range!(max = 99))),
            ),
        )
            .visit(trail, report, h)
    }
}
