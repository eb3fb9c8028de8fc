//! A bill and how it is paid, with the forms that read both.
ghost use Rattle.std.specs.Prelude.{refl};
ghost use Rattle.garde.specs.Fields.{◌and◌, alphanumeric, ascii, at_least, at_most, between, bytes, exactly, field, if_some, is, is_in_memory, item, none, prefix, range, url, Visits};
ghost use Rattle.garde_schema.specs.declared.either.Either.TheVariants.{Left, Right};
ghost use Rattle.example_ported.specs.declared.bill.Payment.TheVariants.{Card, Account, Cash};
ghost use Rattle.example_ported.specs.declared.bill.Origin.TheVariants.{Shop, WebSite};

use garde::fields::{
    Alphanumeric, Ascii, Dive, Field, Fields, IfSome, Is, IsInMemory, Item, Prefix, Transparent,
    Url,
};
use garde::{I18n, Report, Stated, Trail, Valid, Validate, length, range};
use garde_schema::{
    Any, Built, Either, FormI18n, FromParts, Member, Nullish, Object, OneMember, ReadError,
    Scratch, Tagged, Text, TextRef, U8, U16, U64, Variant, Whole, read_json,
};
use std::alloc::{AllocError, Global};
use std::marker::PhantomData;

/// How it is paid.
#[derive(Debug, Drop)]
pub enum Payment<'t> {
    Card { card_no: TextRef<'t>, year: u16 },
    Account { holder: Option<TextRef<'t>> },
    Cash,
}

impl<'t> Stated for Payment<'t> {
    type Context = ();

    ghost visits = { λ v _. elim v as (λ _. Visits) [
      | Card card_no year ↦ field "card_no" (is (ascii card_no) and is (bytes (exactly 16) card_no)) and field "year" (is (range (between 2024 2040) year))
      | Account holder ↦ field "holder" (if_some (λ x. is (alphanumeric x)) holder)
      | Cash ↦ none
    ] };
}

impl<'t> Validate for Payment<'t> {
    fn validate_into<'a, H: I18n>(
        &'a self,
        _ctx: &(),
        trail: &mut Trail<'a>,
        report: &mut Report,
        h: &H,
    ) -> Result<(), AllocError> {
        match self {
            Payment::Card { card_no, year } => {
                (
                    Field("card_no", card_no, (Is(Ascii), Is(length!(equal = 16)))),
                    Field("year", year, Is(range!(min = 2024, max = 2040))),
                )
                    .visit_of(self, trail, report, h)
            }
            Payment::Account { holder } => {
                Field("holder", holder, IfSome(Is(Alphanumeric))).visit_of(self, trail, report, h)
            }
            Payment::Cash => ().visit(trail, report, h),
        }
    }
}

/// The number of a bill.
#[derive(Debug, Drop)]
pub struct Number<'t>(pub TextRef<'t>);

impl<'t> Stated for Number<'t> {
    type Context = ();

    ghost visits = { λ v _. is (prefix "B" v.0) };
}

impl<'t> Validate for Number<'t> {
    fn validate_into<'a, H: I18n>(
        &'a self,
        _ctx: &(),
        trail: &mut Trail<'a>,
        report: &mut Report,
        h: &H,
    ) -> Result<(), AllocError> {
        let Self(value) = self;
        Transparent(value, Is(Prefix("B"))).visit_of(self, trail, report, h)
    }
}

/// Where it was written.
#[derive(Debug, Drop)]
pub enum Origin<'t> {
    Shop { till: u8 },
    WebSite(TextRef<'t>),
}

impl<'t> Stated for Origin<'t> {
    type Context = ();

    ghost visits = { λ v _. elim v as (λ _. Visits) [
      | Shop till ↦ field "till" (is (range (at_most 99) till))
      | WebSite value ↦ item 0 (is_in_memory (url value))
    ] };
}

impl<'t> Validate for Origin<'t> {
    fn validate_into<'a, H: I18n>(
        &'a self,
        _ctx: &(),
        trail: &mut Trail<'a>,
        report: &mut Report,
        h: &H,
    ) -> Result<(), AllocError> {
        match self {
            Origin::Shop { till } => {
                Field("till", till, Is(range!(max = 99))).visit_of(self, trail, report, h)
            }
            Origin::WebSite(value) => {
                Item(0, value, IsInMemory(Url)).visit_of(self, trail, report, h)
            }
        }
    }
}

/// A bill.
#[derive(Debug, Drop)]
pub struct Bill<'t> {
    pub number: Number<'t>,
    pub cents: u64,
    pub payment: Payment<'t>,
    pub origin: Option<Origin<'t>>,
}

impl<'t> Stated for Bill<'t> {
    type Context = ();

    ghost visits = { λ v ctx.
        field "number" (⟦<Number<'t> as Stated>⟧.visits v.number ctx)
        and field "cents" (is (range (at_least 1) v.cents))
        and field "payment" (⟦<Payment<'t> as Stated>⟧.visits v.payment ctx)
        and field "origin" (if_some (λ x. ⟦<Origin<'t> as Stated>⟧.visits x ctx) v.origin) };
}

impl<'t> Validate for Bill<'t> {
    fn validate_into<'a, H: I18n>(
        &'a self,
        ctx: &(),
        trail: &mut Trail<'a>,
        report: &mut Report,
        h: &H,
    ) -> Result<(), AllocError> {
        let Self {
            number,
            cents,
            payment,
            origin,
        } = self;
        (
            Field("number", number, Dive(ctx)),
            Field("cents", cents, Is(range!(min = 1))),
            Field("payment", payment, Dive(ctx)),
            Field("origin", origin, IfSome(Dive(ctx))),
        )
            .visit_of(self, trail, report, h)
    }
}

/// A value of the type `Payment` is made of what its form reads.
impl<'t> FromParts for Payment<'t> {
    type Parts = Either<(TextRef<'t>, u16), Either<Option<TextRef<'t>>, ()>>;

    ghost builds = { elim [
      | Left parts ↦ Card parts.0 parts.1
      | Right (Left parts) ↦ Account parts
      | Right (Right _) ↦ Cash
    ] };

    ghost parts_of = { elim [
      | Card card_no year ↦ Left (card_no, year)
      | Account holder ↦ Right (Left holder)
      | Cash ↦ Right (Right tt)
    ] };

    ghost kept = { elim [ Left _ ↦ refl | Right (Left _) ↦ refl | Right (Right _) ↦ refl ] };

    fn from_parts(parts: Self::Parts) -> Self {
        match parts {
            Either::Left((card_no, year)) => Payment::Card { card_no, year },
            Either::Right(Either::Left(holder)) => Payment::Account { holder },
            Either::Right(Either::Right(())) => Payment::Cash,
        }
    }
}

/// A value of the type `Number` is made of what its form reads.
impl<'t> FromParts for Number<'t> {
    type Parts = TextRef<'t>;

    ghost builds = { λ parts. record { 0 = parts } };

    ghost parts_of = { λ v. v.0 };

    ghost kept = { λ _. refl };

    fn from_parts(parts: Self::Parts) -> Self {
        Number(parts)
    }
}

/// A value of the type `Origin` is made of what its form reads.
impl<'t> FromParts for Origin<'t> {
    type Parts = Either<u8, TextRef<'t>>;

    ghost builds = { elim [ Left parts ↦ Shop parts | Right parts ↦ WebSite parts ] };

    ghost parts_of = { elim [ Shop till ↦ Left till | WebSite value ↦ Right value ] };

    ghost kept = { elim [ Left _ ↦ refl | Right _ ↦ refl ] };

    fn from_parts(parts: Self::Parts) -> Self {
        match parts {
            Either::Left(till) => Origin::Shop { till },
            Either::Right(value) => Origin::WebSite(value),
        }
    }
}

/// A value of the type `Bill` is made of what its form reads.
impl<'t> FromParts for Bill<'t> {
    type Parts = (Number<'t>, u64, Payment<'t>, Option<Origin<'t>>);

    ghost builds = { λ parts. record {
      number = parts.0;
      cents = parts.1;
      payment = parts.2;
      origin = parts.3;
    } };

    ghost parts_of = { λ v. (v.number, v.cents, v.payment, v.origin) };

    ghost kept = { λ _. refl };

    fn from_parts(parts: Self::Parts) -> Self {
        let (number, cents, payment, origin) = parts;
        Bill {
            number,
            cents,
            payment,
            origin,
        }
    }
}

/// Reads a value of the type `Bill` in JSON, or reports every fault of its form and of its rules.
#[tactic(auto, unfolding(garde::specs::Fields::Known))]
pub fn read_bill<'a, H: I18n + FormI18n>(
    alloc: Global,
    bytes: &'a [u8],
    scratch: &'a mut Scratch,
    h: &H,
) -> Result<Valid<Bill<'a>>, ReadError> {
    let number_form = Built(Text(Is(Prefix("B"))), PhantomData::<&Number<'_>>);
    let payment_form = Built(
        Tagged(
            "kind",
            (
                Variant(
                    "card",
                    (
                        Member("cardNo", Text((Is(Ascii), Is(length!(equal = 16))))),
                        Member("year", Whole(U16, Is(range!(min = 2024, max = 2040)))),
                    ),
                ),
                (
                    Variant("account", Nullish("holder", Text(Is(Alphanumeric)))),
                    Variant("cash", Member("kind", Any)),
                ),
            ),
        ),
        PhantomData::<&Payment<'_>>,
    );
    let origin_form = Built(
        OneMember(
            (
                Member(
                    "shop",
                    Object(Member("till", Whole(U8, Is(range!(max = 99))))),
                ),
                Member("web-site", Text(IsInMemory(Url))),
            ),
            PhantomData,
        ),
        PhantomData::<&Origin<'_>>,
    );
    let bill_form = Built(
        Object((
            Member("number", number_form),
            Member("cents", Whole(U64, Is(range!(min = 1)))),
            Member("payment", payment_form),
            Nullish("origin", origin_form),
        )),
        PhantomData::<&Bill<'_>>,
    );
    match read_json(alloc, bytes, scratch, &bill_form, h) {
        Ok(value) => Ok(Valid::known(value, &())),
        Err(error) => Err(error),
    }
}
