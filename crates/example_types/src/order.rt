//! A type of seven fields.
ghost use Rattle.garde.specs.Fields.{◌and◌, ascii, between, bytes, chars, each, field, if_some, is, range, slice, str};

use garde::fields::{Ascii, Each, Field, Fields, IfSome, Is};
use garde::{I18n, Report, Stated, Trail, Validate, all, length, range};
use std::alloc::AllocError;

/// What is sent, to whom and where.
#[derive(Drop)]
pub struct Order {
    pub number: u32,
    pub customer: String,
    pub street: String,
    pub town: String,
    pub lines: Vec<String>,
    pub note: Option<String>,
    pub parcels: u32,
}

impl Stated for Order {
    type Context = ();

    ghost visits = { λ v _.
        field "number" (is (range (between 1 99999) v.number))
        and field "customer" (is (ascii (str v.customer)) and is (bytes (between 3 25) (str v.customer)))
        and field "street" (is (bytes (between 1 60) (str v.street)))
        and field "town" (is (bytes (between 1 40) (str v.town)))
        and field "lines" (each (λ line. is (bytes (between 1 80) (str line))) (slice v.lines))
        and field "note" (if_some (λ text. is (chars (between 1 200) (str text))) v.note)
        and field "parcels" (is (range (between 1 20) v.parcels)) };
}

impl Validate for Order {
    fn validate_into<'a, H: I18n>(
        &'a self,
        _ctx: &(),
        trail: &mut Trail<'a>,
        report: &mut Report,
        h: &H,
    ) -> Result<(), AllocError> {
        let Self {
            number,
            customer,
            street,
            town,
            lines,
            note,
            parcels,
        } = self;
        all!(
            Field("number", number, Is(range!(min = 1, max = 99999))),
            Field(
                "customer",
                customer,
                (Is(Ascii), Is(length!(min = 3, max = 25))),
            ),
            Field("street", street, Is(length!(min = 1, max = 60))),
            Field("town", town, Is(length!(min = 1, max = 40))),
            Field("lines", lines, Each(Is(length!(min = 1, max = 80)))),
            Field("note", note, IfSome(Is(length!(chars, min = 1, max = 200)))),
            Field("parcels", parcels, Is(range!(min = 1, max = 20)))
        )
        .visit(trail, report, h)
    }
}
