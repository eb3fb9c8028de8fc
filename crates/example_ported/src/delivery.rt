//! A delivery, as a body that a static library checks.
ghost use Rattle.std.specs.Prelude.{[], refl, ◌∷◌};
ghost use Rattle.garde.specs.Fields.{◌and◌, ascii, at_most, between, bytes, count, each, false, field, if_some, is, item, items, minus, plus, range, required, signed_range};
ghost use Rattle.garde_schema.specs.Spelling.{a_flag, a_list, a_list_of, a_name, a_number, a_text, an_object, closed, five, four, i16_numbers, made, member, nullish, or_null, ruled, u16_numbers, u64_numbers, u8_numbers, with_default};
ghost use Rattle.example_ported.specs.declared.delivery.Hours.TheVariants.{AnyTime, Morning};

use garde::fields::{Ascii, Is, Required};
use garde::{I18n, Stated, Valid, length, range};
use garde_schema::{
    Built, Checked, Closed, FirstReadError, Flag, FormI18n, FromParts, I16, Items, List, ListUnder,
    Member, Nullable, Nullish, Object, OneOf, ReadBody, Scratch, Spelled, Text, TextRef, U8, U16,
    U64, Under, Whole, WithDefault, read_json_first,
};
use std::alloc::Global;
use std::marker::PhantomData;

/// When it comes.
#[derive(Clone, Copy, Default)]
pub enum Hours {
    #[default]
    AnyTime,
    Morning,
}

/// Where it stands.
#[derive(Drop)]
pub struct Floor(pub i16);

impl Stated for Floor {
    type Context = ();

    ghost visits = { λ v _. item 0 (is (signed_range (between (minus 3) (plus 40)) v.0)) };
}

/// A box of it.
#[derive(Drop)]
pub struct Crate<'t> {
    pub name: TextRef<'t>,
    pub pieces: u8,
    pub fragile: bool,
    pub weight: u64,
    pub seen: Items<Option<bool>>,
}

impl<'t> Stated for Crate<'t> {
    type Context = ();

    ghost visits = { λ v _.
        field "name" (is (ascii v.name) and is (bytes (between 2 20) v.name))
        and field "pieces" (is (range (between 1 99) v.pieces)) };
}

/// A delivery.
#[derive(Drop)]
pub struct Delivery<'t> {
    pub weight: Option<u16>,
    pub hours: Hours,
    pub floor: Floor,
    pub sent_crates: Items<Crate<'t>>,
}

impl<'t> Stated for Delivery<'t> {
    type Context = ();

    ghost visits = { λ v ctx.
        field "weight" (is (required v.weight) and if_some (λ x. is (range (at_most 30000) x)) v.weight)
        and field "floor" (⟦<Floor as Stated>⟧.visits v.floor ctx)
        and field "sent_crates" (is (items (between 1 50) v.sent_crates) and each (λ x. ⟦<Crate<'t> as Stated>⟧.visits x ctx) v.sent_crates) };
}

/// A value of the type `Floor` is made of what its form reads.
impl FromParts for Floor {
    type Parts = i16;

    ghost builds = { λ parts. record { 0 = parts } };

    ghost parts_of = { λ v. v.0 };

    ghost kept = { λ _. refl };

    fn from_parts(parts: Self::Parts) -> Self {
        Floor(parts)
    }
}

/// A value of the type `Crate` is made of what its form reads.
impl<'t> FromParts for Crate<'t> {
    type Parts = (TextRef<'t>, u8, bool, u64, Items<Option<bool>>);

    ghost builds = { λ parts. record {
      name = parts.0;
      pieces = parts.1;
      fragile = parts.2;
      weight = parts.3;
      seen = parts.4;
    } };

    ghost parts_of = { λ v. (v.name, v.pieces, v.fragile, v.weight, v.seen) };

    ghost kept = { λ _. refl };

    fn from_parts(parts: Self::Parts) -> Self {
        let (name, pieces, fragile, weight, seen) = parts;
        Crate {
            name,
            pieces,
            fragile,
            weight,
            seen,
        }
    }
}

/// A value of the type `Delivery` is made of what its form reads.
impl<'t> FromParts for Delivery<'t> {
    type Parts = (Option<u16>, Hours, Floor, Items<Crate<'t>>);

    ghost builds = { λ parts. record {
      weight = parts.0;
      hours = parts.1;
      floor = parts.2;
      sent_crates = parts.3;
    } };

    ghost parts_of = { λ v. (v.weight, v.hours, v.floor, v.sent_crates) };

    ghost kept = { λ _. refl };

    fn from_parts(parts: Self::Parts) -> Self {
        let (weight, hours, floor, sent_crates) = parts;
        Delivery {
            weight,
            hours,
            floor,
            sent_crates,
        }
    }
}

impl Spelled for Hours {
    ghost spelled = { a_name (("any_time", AnyTime) ∷ ("morning", Morning) ∷ ("am", Morning) ∷ []) };
}

impl Spelled for Floor {
    ghost spelled = { made (λ parts. record { 0 = parts })
        (a_number i16_numbers (signed_range (between (minus 3) (plus 40)) ∷ [])) };
}

impl<'t> Spelled for Crate<'t> {
    ghost spelled = { made (λ parts. record {
      name = parts.0;
      pieces = parts.1;
      fragile = parts.2;
      weight = parts.3;
      seen = parts.4;
    }) (an_object (closed (five
        (member "name" (a_text (λ v. is (ascii v) and is (bytes (between 2 20) v))))
        (with_default "pieces" (a_number u8_numbers (range (between 1 99) ∷ [])) 1)
        (with_default "fragile" a_flag false)
        (member "weight" (a_number u64_numbers []))
        (member "seen" (a_list (or_null a_flag)))))) };
}

impl<'t> Spelled for Delivery<'t> {
    ghost spelled = { made (λ parts. record {
      weight = parts.0;
      hours = parts.1;
      floor = parts.2;
      sent_crates = parts.3;
    }) (an_object (closed (four
        (ruled
        (nullish "grams" (a_number u16_numbers (range (at_most 30000) ∷ [])))
        (λ v. field "grams" (is (required v))))
        (with_default "hours" ⟦<Hours as Spelled>⟧.spelled AnyTime)
        (member "floor" ⟦<Floor as Spelled>⟧.spelled)
        (member "sentCrates" (a_list_of (λ v. is (count (between 1 50) v)) ⟦<Crate<'t> as Spelled>⟧.spelled))))) };
}

/// The title of the problem details.
pub const TITLE: &str = "the delivery has faults";

/// What the library checks.
pub type Body<'a> = Delivery<'a>;

#[tactic(auto, unfolding(garde::specs::Fields::Known))]
impl<'a> ReadBody<'a> for Delivery<'a> {
    fn read_body<H: I18n + FormI18n>(
        alloc: Global,
        bytes: &'a [u8],
        scratch: &'a mut Scratch,
        most: usize,
        h: &H,
    ) -> Result<Delivery<'a>, FirstReadError> {
        let hours_form = OneOf(&[
            ("any_time", Hours::AnyTime),
            ("morning", Hours::Morning),
            ("am", Hours::Morning),
        ]);
        let floor_form = Built(
            Whole(I16, Is(range!(min = -3, max = 40))),
            PhantomData::<&Floor>,
        );
        let crate_form = Built(
            Object(Closed((
                Member("name", Text((Is(Ascii), Is(length!(min = 2, max = 20))))),
                WithDefault("pieces", Whole(U8, Is(range!(min = 1, max = 99))), 1),
                WithDefault("fragile", Flag, false),
                Member("weight", Whole(U64, ())),
                Member("seen", List(Nullable(Flag))),
            ))),
            PhantomData::<&Crate<'_>>,
        );
        let delivery_form = Built(
            Object(Closed((
                Checked(
                    Nullish("grams", Whole(U16, Is(range!(max = 30000)))),
                    Under("grams", Is(Required)),
                ),
                WithDefault("hours", hours_form, Hours::AnyTime),
                Member("floor", floor_form),
                Member(
                    "sentCrates",
                    ListUnder(Is(length!(min = 1, max = 50)), crate_form),
                ),
            ))),
            PhantomData::<&Delivery<'_>>,
        );
        match read_json_first(alloc, bytes, scratch, &delivery_form, most, h) {
            Ok(value) => Ok(Valid::known(value, &()).into_inner()),
            Err(error) => Err(error),
        }
    }
}
