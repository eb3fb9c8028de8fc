//! Rules that the Rust crate does not have, and conditions on enums and texts, in a walk.
ghost use Rattle.garde.specs.Fields.{◌and◌, ascii, at_least, at_most, between, Bool, each, false, field, if_some, includes, is, items, minus, multiple_of, nat_eq, not, plus, range, required, signed_multiple_of, signed_range, slice, str, text_eq, text_is, true, unique, when};
ghost use Rattle.example_ported.specs.declared.shelf.Room.TheVariants.{Cold, Dry, Open};

use garde::fields::{
    Ascii, Each, Equal, Field, Fields, IfSome, Is, MultipleOf, Required, Unique, When, includes,
};
use garde::{I18n, Report, Stated, Trail, Validate, length, range};
use std::alloc::AllocError;

/// Where it stands.
#[derive(Clone, Copy)]
pub enum Room {
    Cold { degrees: u8 },
    Dry(u8),
    Open,
}

/// A shelf.
#[derive(Drop)]
pub struct Shelf {
    pub names: Vec<String>,
    pub places: Vec<u16>,
    pub height: u16,
    pub tilt: i32,
    pub rows: Option<u8>,
}

impl Stated for Shelf {
    type Context = ();

    ghost visits = { λ v _.
        field "names" (unique "stands before" (λ x y. text_eq (str x) (str y)) (slice v.names) and is (items (at_most 3) (slice v.names)) and each (λ x. is (ascii (str x))) (slice v.names))
        and field "places" (unique "comes twice" nat_eq (slice v.places))
        and field "height" (is (multiple_of 25 v.height) and is (range (at_most 65535) v.height))
        and field "tilt" (is (signed_multiple_of (plus 5) v.tilt) and is (signed_range (between (minus 100) (plus 100)) v.tilt))
        and field "rows" (if_some (λ x. is (multiple_of 2 x)) v.rows) };
}

impl Validate for Shelf {
    fn validate_into<'a, H: I18n>(
        &'a self,
        _ctx: &(),
        trail: &mut Trail<'a>,
        report: &mut Report,
        h: &H,
    ) -> Result<(), AllocError> {
        let Self {
            names,
            places,
            height,
            tilt,
            rows,
        } = self;
        (
            Field(
                "names",
                names,
                (
                    Unique("stands before", Equal),
                    Is(length!(max = 3)),
                    Each(Is(Ascii)),
                ),
            ),
            Field("places", places, Unique("comes twice", Equal)),
            Field(
                "height",
                height,
                (Is(MultipleOf(25)), Is(range!(max = 65535))),
            ),
            Field(
                "tilt",
                tilt,
                (Is(MultipleOf(5)), Is(range!(min = -100, max = 100))),
            ),
            Field("rows", rows, IfSome(Is(MultipleOf(2)))),
        )
            .visit(trail, report, h)
    }
}

/// A lamp and a heater for it.
#[derive(Drop)]
pub struct Power {
    pub room: Room,
    pub lamp: Option<u8>,
    pub heater: u16,
}

impl Stated for Power {
    type Context = ();

    ghost visits = { λ v _.
        field "lamp" (when (not (elim v.room as (λ _. Bool) [ Open ↦ true | _ ↦ false ])) (is (required v.lamp)))
        and field "heater" (when (elim v.room as (λ _. Bool) [ Cold _ ↦ true | Dry _ ↦ true | _ ↦ false ]) (is (range (at_least 5) v.heater))) };
}

impl Validate for Power {
    fn validate_into<'a, H: I18n>(
        &'a self,
        _ctx: &(),
        trail: &mut Trail<'a>,
        report: &mut Report,
        h: &H,
    ) -> Result<(), AllocError> {
        let Self { room, lamp, heater } = self;
        (
            Field(
                "lamp",
                lamp,
                When(!matches!(room, Room::Open), Is(Required)),
            ),
            Field(
                "heater",
                heater,
                When(
                    matches!(room, Room::Cold { .. } | Room::Dry(..)),
                    Is(range!(min = 5)),
                ),
            ),
        )
            .visit(trail, report, h)
    }
}

/// What stands on it, and what is said of it.
#[derive(Drop)]
pub struct Thing {
    pub kind: String,
    pub name: String,
    pub places: Vec<u16>,
    pub note: String,
}

impl Stated for Thing {
    type Context = ();

    ghost visits = { λ v _.
        field "name" (when (text_is "old" (str v.kind)) (is (ascii (str v.name))))
        and field "note" (when (includes nat_eq (slice v.places) 3) (is (ascii (str v.note)))) };
}

impl Validate for Thing {
    fn validate_into<'a, H: I18n>(
        &'a self,
        _ctx: &(),
        trail: &mut Trail<'a>,
        report: &mut Report,
        h: &H,
    ) -> Result<(), AllocError> {
        let Self {
            kind,
            name,
            places,
            note,
        } = self;
        (
            Field("name", name, When(kind.as_str() == "old", Is(Ascii))),
            Field(
                "note",
                note,
                When(includes(places.as_slice(), &Equal, &3), Is(Ascii)),
            ),
        )
            .visit(trail, report, h)
    }
}
