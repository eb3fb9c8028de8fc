//! Texts under patterns: compiled ones of a context, and one in quotes.
ghost use Rattle.std.specs.Prelude.{IfOk, ◌≡◌};
ghost use Rattle.garde.specs.Fields.{◌and◌, ascii, at_most, codes, each, field, if_some, is, is_in_memory, pattern, range, slice, str};

use garde::fields::{Ascii, Dive, Each, Field, Fields, IfSome, Is, IsInMemory, Pattern};
use garde::rules::pattern::regex::{PatternRefused, Regex};
use garde::{I18n, Report, Stated, Trail, Validate, range};
use std::alloc::{AllocError, Global};

/// The compiled patterns of visitors.
#[derive(Drop)]
pub struct Patterns {
    pub mail: Regex,
    pub phone: Regex,
}

/// Who visits.
#[derive(Drop)]
pub struct Visitor {
    pub mail: String,
    pub phone: Option<String>,
}

impl Stated for Visitor {
    type Context = Patterns;

    ghost visits = { λ v patterns.
        field "mail" (is (ascii (str v.mail)) and is_in_memory (pattern patterns.mail (str v.mail)))
        and field "phone" (if_some (λ x. is_in_memory (pattern patterns.phone (str x))) v.phone) };
}

impl Validate for Visitor {
    fn validate_into<'a, H: I18n>(
        &'a self,
        patterns: &Patterns,
        trail: &mut Trail<'a>,
        report: &mut Report,
        h: &H,
    ) -> Result<(), AllocError> {
        let Self { mail, phone } = self;
        (
            Field(
                "mail",
                mail,
                (Is(Ascii), IsInMemory(Pattern(&patterns.mail))),
            ),
            Field("phone", phone, IfSome(IsInMemory(Pattern(&patterns.phone)))),
        )
            .visit(trail, report, h)
    }
}

/// What a visitor wears.
#[derive(Drop)]
pub struct Badge {
    pub number: String,
    pub colors: Vec<String>,
    pub desk: Desk,
}

/// The compiled patterns of `Badge`.
#[derive(Drop)]
pub struct BadgePatterns {
    /// `Regex::new` of the pattern `^[A-Z]{2}[0-9]+$`.
    pub number: Regex,
    /// `Regex::new` of the pattern `^[a-z]+$`.
    pub colors: Regex,
}

impl BadgePatterns {
    /// Compiles the patterns, or returns why one of them cannot be compiled.
    pub fn new(alloc: Global) -> Result<BadgePatterns, PatternRefused>
        ensures number { IfOk result (λ it. it.number ≡ codes "^[A-Z]{2}[0-9]+$") }
        ensures colors { IfOk result (λ it. it.colors ≡ codes "^[a-z]+$") }
    {
        let number = Regex::new(alloc, "^[A-Z]{2}[0-9]+$")?;
        let colors = Regex::new(alloc, "^[a-z]+$")?;
        Ok(BadgePatterns { number, colors })
    }
}

impl Stated for Badge {
    type Context = BadgePatterns;

    ghost visits = { λ v ctx.
        field "number" (is_in_memory (pattern ctx.number (str v.number)))
        and field "colors" (each (λ x. is_in_memory (pattern ctx.colors (str x))) (slice v.colors))
        and field "desk" (⟦<Desk as Stated>⟧.visits v.desk tt) };
}

impl Validate for Badge {
    fn validate_into<'a, H: I18n>(
        &'a self,
        ctx: &BadgePatterns,
        trail: &mut Trail<'a>,
        report: &mut Report,
        h: &H,
    ) -> Result<(), AllocError> {
        let Self {
            number,
            colors,
            desk,
        } = self;
        (
            Field("number", number, IsInMemory(Pattern(&ctx.number))),
            Field("colors", colors, Each(IsInMemory(Pattern(&ctx.colors)))),
            Field("desk", desk, Dive(&())),
        )
            .visit(trail, report, h)
    }
}

/// Where a badge is given.
#[derive(Drop)]
pub struct Desk {
    pub floor: u8,
}

impl Stated for Desk {
    type Context = ();

    ghost visits = { λ v _. field "floor" (is (range (at_most 9) v.floor)) };
}

impl Validate for Desk {
    fn validate_into<'a, H: I18n>(
        &'a self,
        _ctx: &(),
        trail: &mut Trail<'a>,
        report: &mut Report,
        h: &H,
    ) -> Result<(), AllocError> {
        let Self { floor } = self;
        Field("floor", floor, Is(range!(max = 9))).visit(trail, report, h)
    }
}
