//! A parcel as it comes in a request, with the form that reads it.
ghost use Rattle.std.specs.Prelude.{refl};
ghost use Rattle.garde.specs.Fields.{◌and◌, alphanumeric, ascii, at_least, at_most, between, bytes, chars, each, field, if_some, is, items, prefix, range, required};

use garde::fields::{Alphanumeric, Ascii, Is, Prefix, Required};
use garde::{I18n, Stated, Valid, length, range};
use garde_schema::{
    Built, Checked, Closed, Entries, Flag, FormI18n, FromParts, Items, ListUnder, MapUnder, Member,
    Nullish, Object, OneOf, ReadError, Scratch, Text, TextRef, U8, U16, U32, Under, Whole,
    WithDefault, read_json,
};
use std::alloc::Global;
use std::marker::PhantomData;

/// How fast it goes.
#[derive(Clone, Copy, Debug, Default, PartialEq)]
pub enum Speed {
    #[default]
    NextDay,
    Slow,
}

/// A thing in it.
#[derive(Debug, Drop)]
pub struct Thing<'t> {
    pub name: TextRef<'t>,
    pub pieces: u8,
    pub fragile: bool,
}

impl<'t> Stated for Thing<'t> {
    type Context = ();

    ghost visits = { λ v _.
        field "name" (is (ascii v.name) and is (bytes (between 2 20) v.name))
        and field "pieces" (is (range (between 1 99) v.pieces)) };
}

/// A parcel.
#[derive(Debug, Drop)]
pub struct Parcel<'t> {
    pub number: u32,
    pub sent_to: TextRef<'t>,
    pub phone: Option<TextRef<'t>>,
    pub weight: Option<u16>,
    pub speed: Speed,
    pub things: Items<Thing<'t>>,
    pub marks: Items<TextRef<'t>>,
    pub labels: Entries<'t, TextRef<'t>>,
}

impl<'t> Stated for Parcel<'t> {
    type Context = ();

    ghost visits = { λ v ctx.
        field "number" (is (range (at_least 1) v.number))
        and field "sent_to" (is (chars (between 1 80) v.sent_to))
        and field "phone" (if_some (λ x. is (prefix "+" x) and is (bytes (at_most 16) x)) v.phone)
        and field "weight" (is (required v.weight) and if_some (λ x. is (range (at_most 30000) x)) v.weight)
        and field "things" (is (items (between 1 50) v.things) and each (λ x. ⟦<Thing<'t> as Stated>⟧.visits x ctx) v.things)
        and field "marks" (is (items (at_most 5) v.marks) and each (λ x. is (alphanumeric x)) v.marks)
        and field "labels" (is (items (at_most 3) v.labels)) };
}

/// A value of the type `Thing` is made of what its form reads.
impl<'t> FromParts for Thing<'t> {
    type Parts = (TextRef<'t>, u8, bool);

    ghost builds = { λ parts. record { name = parts.0; pieces = parts.1; fragile = parts.2 } };

    ghost parts_of = { λ v. (v.name, v.pieces, v.fragile) };

    ghost kept = { λ _. refl };

    fn from_parts(parts: Self::Parts) -> Self {
        let (name, pieces, fragile) = parts;
        Thing {
            name,
            pieces,
            fragile,
        }
    }
}

/// A value of the type `Parcel` is made of what its form reads.
impl<'t> FromParts for Parcel<'t> {
    type Parts = (
        u32,
        TextRef<'t>,
        Option<TextRef<'t>>,
        Option<u16>,
        Speed,
        (
            Items<Thing<'t>>,
            Items<TextRef<'t>>,
            Entries<'t, TextRef<'t>>,
        ),
    );

    ghost builds = { λ parts. record {
      number = parts.0;
      sent_to = parts.1;
      phone = parts.2;
      weight = parts.3;
      speed = parts.4;
      things = parts.5.0;
      marks = parts.5.1;
      labels = parts.5.2;
    } };

    ghost parts_of = { λ v.
        (v.number, v.sent_to, v.phone, v.weight, v.speed, (v.things, v.marks, v.labels)) };

    ghost kept = { λ _. refl };

    fn from_parts(parts: Self::Parts) -> Self {
        let (number, sent_to, phone, weight, speed, (things, marks, labels)) = parts;
        Parcel {
            number,
            sent_to,
            phone,
            weight,
            speed,
            things,
            marks,
            labels,
        }
    }
}

/// Reads a value of the type `Parcel` in JSON, or reports every fault of its form and of its rules.
#[tactic(auto, unfolding(garde::specs::Fields::Known))]
pub fn read_parcel<'a, H: I18n + FormI18n>(
    alloc: Global,
    bytes: &'a [u8],
    scratch: &'a mut Scratch,
    h: &H,
) -> Result<Valid<Parcel<'a>>, ReadError> {
    let speed_form = OneOf(&[
        ("next_day", Speed::NextDay),
        ("slow", Speed::Slow),
        ("by_ship", Speed::Slow),
    ]);
    let thing_form = Built(
        Object(Closed((
            Member("name", Text((Is(Ascii), Is(length!(min = 2, max = 20))))),
            WithDefault("pieces", Whole(U8, Is(range!(min = 1, max = 99))), 1),
            WithDefault("fragile", Flag, false),
        ))),
        PhantomData::<&Thing<'_>>,
    );
    let parcel_form = Built(
        Object(Closed((
            Member("number", Whole(U32, Is(range!(min = 1)))),
            Member("sentTo", Text(Is(length!(chars, min = 1, max = 80)))),
            Nullish("phone", Text((Is(Prefix("+")), Is(length!(max = 16))))),
            Checked(
                Nullish("grams", Whole(U16, Is(range!(max = 30000)))),
                Under("grams", Is(Required)),
            ),
            WithDefault("speed", speed_form, Speed::NextDay),
            (
                Member(
                    "things",
                    ListUnder(Is(length!(min = 1, max = 50)), thing_form),
                ),
                Member(
                    "marks",
                    ListUnder(Is(length!(max = 5)), Text(Is(Alphanumeric))),
                ),
                Member("labels", MapUnder(Is(length!(max = 3)), Text(()))),
            ),
        ))),
        PhantomData::<&Parcel<'_>>,
    );
    match read_json(alloc, bytes, scratch, &parcel_form, h) {
        Ok(value) => Ok(Valid::known(value, &())),
        Err(error) => Err(error),
    }
}
