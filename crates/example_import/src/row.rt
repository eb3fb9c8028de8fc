//! A row of a stock list, and what is asked of it.
ghost use Rattle.example_import.specs.Row.{row_visits};

use garde::fields::{
    Alphanumeric, Field, Fields, IfSome, Is, IsInMemory, Prefix, Required, Url, WithMessage,
};
use garde::{I18n, Report, Stated, Trail, Validate, length, range};
use std::alloc::AllocError;

/// An article: how many pieces of it there are, what one of them costs in cents, and its page.
/// A field that is to be a number and is none is read as `None`, which is a fault as any other.
#[derive(Drop)]
pub struct Row {
    pub code: String,
    pub name: String,
    pub quantity: Option<u64>,
    pub price: Option<u64>,
    pub page: Option<String>,
}

impl Stated for Row {
    type Context = ();

    ghost visits = { λ row _. row_visits row };
}

impl Validate for Row {
    fn validate_into<'a, H: I18n>(
        &'a self,
        _ctx: &(),
        trail: &mut Trail<'a>,
        report: &mut Report,
        h: &H,
    ) -> Result<(), AllocError> {
        let Self {
            code,
            name,
            quantity,
            price,
            page,
        } = self;
        let pieces = Is(WithMessage(Required, "not a number of pieces"));
        let few = IfSome(Is(range!(min = 1, max = 10_000)));
        let cents = Is(WithMessage(Required, "not a price in cents"));
        let cheap = IfSome(Is(range!(min = 1, max = 50_000)));
        (
            Field("code", code, (Is(Prefix("P")), Is(Alphanumeric))),
            Field("name", name, Is(length!(chars, min = 1, max = 80))),
            Field("quantity", quantity, (pieces, few)),
            Field("price", price, (cents, cheap)),
            Field("page", page, IfSome(IsInMemory(Url))),
        )
            .visit(trail, report, h)
    }
}
