//! A form with a context, a rule of its own, and a part that validates itself.
ghost use Rattle.std.specs.Prelude.{◌≡◌, None, Some, if◌then◌else◌, nat_lt};
ghost use Rattle.garde.specs.Fields.{◌and◌, ascii, at_most, between, bytes, codes, each, exactly, field, is, items, length, own, slice, str};

use garde::fields::{Ascii, Dive, Each, Field, Fields, Is, Length};
use garde::rules::Rule;
use garde::{I18n, Report, RuleError, Stated, Trail, Validate};
use std::alloc::{AllocError, Global};
use std::borrow::CowStr;

/// How many tags a form may have, and how many bytes a city.
#[derive(Drop)]
pub struct Limits {
    pub most: usize,
}

impl Default for Limits {
    ghost is_default = { λ limits. limits.most ≡ 9 };

    fn default() -> Limits {
        Limits { most: 9 }
    }
}

/// The rule that a password has 12 bytes at least, with a message of its own.
#[derive(Drop)]
pub struct Strong;

impl Rule<String> for Strong {
    ghost finds = { λ _ v. if nat_lt (length (str v)) 12 then Some (own (codes "weak")) else None };

    fn find<H: I18n>(&self, alloc: Global, value: &String, _h: &H) -> Result<(), RuleError> {
        if value.len() < 12 {
            Err(RuleError::of(alloc, Ok(CowStr::Borrowed("weak"))))
        } else {
            Ok(())
        }
    }
}

/// A part of the form.
#[derive(Drop)]
pub struct Address {
    pub street: String,
    pub city: String,
    pub code: String,
}

impl Stated for Address {
    type Context = Limits;

    ghost visits = { λ v c.
        field "street" (is (ascii (str v.street)))
        and field "city" (is (bytes (between 1 c.most) (str v.city)))
        and field "code" (is (bytes (exactly 5) (str v.code))) };
}

impl Validate for Address {
    fn validate_into<'a, H: I18n>(
        &'a self,
        ctx: &Limits,
        trail: &mut Trail<'a>,
        report: &mut Report,
        h: &H,
    ) -> Result<(), AllocError> {
        let Self { street, city, code } = self;
        (
            Field("street", street, Is(Ascii)),
            Field(
                "city",
                city,
                Is(Length {
                    min: 1,
                    max: ctx.most,
                }),
            ),
            Field("code", code, Is(Length { min: 5, max: 5 })),
        )
            .visit(trail, report, h)
    }
}

/// A form.
#[derive(Drop)]
pub struct Signup {
    pub name: String,
    pub password: String,
    pub tags: Vec<String>,
    pub address: Address,
}

impl Stated for Signup {
    type Context = Limits;

    ghost visits = { λ v c.
        field "name" (is (ascii (str v.name)) and is (bytes (between 3 25) (str v.name)))
        and field "password" (is (if nat_lt (length (str v.password)) 12 then Some (own (codes "weak")) else None))
        and field "tags" (is (items (at_most c.most) (slice v.tags)) and each (λ tag. is (ascii (str tag))) (slice v.tags))
        and field "address" (⟦<Address as Stated>⟧.visits v.address c) };
}

impl Validate for Signup {
    fn validate_into<'a, H: I18n>(
        &'a self,
        ctx: &Limits,
        trail: &mut Trail<'a>,
        report: &mut Report,
        h: &H,
    ) -> Result<(), AllocError> {
        let Self {
            name,
            password,
            tags,
            address,
        } = self;
        (
            Field("name", name, (Is(Ascii), Is(Length { min: 3, max: 25 }))),
            Field("password", password, Is(Strong)),
            Field(
                "tags",
                tags,
                (
                    Is(Length {
                        min: 0,
                        max: ctx.most,
                    }),
                    Each(Is(Ascii)),
                ),
            ),
            Field("address", address, Dive(ctx)),
        )
            .visit(trail, report, h)
    }
}
