//! A number below the length of a table, and an index into it.
ghost use Rattle.std.specs.Prelude.{◌≡◌, slice_index};
ghost use Rattle.garde.specs.Fields.{at_most, field, is, range};

use garde::fields::{Field, Fields, Is};
use garde::{I18n, Report, Stated, Trail, Valid, Validate, range};
use std::alloc::AllocError;

/// A seat in one of eight rows.
#[derive(Drop)]
pub struct Seat {
    pub row: usize,
}

impl Stated for Seat {
    type Context = ();

    ghost visits = { λ v _. field "row" (is (range (at_most 7) v.row)) };
}

impl Validate for Seat {
    fn validate_into<'a, H: I18n>(
        &'a self,
        _ctx: &(),
        trail: &mut Trail<'a>,
        report: &mut Report,
        h: &H,
    ) -> Result<(), AllocError> {
        let Self { row } = self;
        Field("row", row, Is(range!(max = 7))).visit(trail, report, h)
    }
}

/// What a seat costs, by the prices of the rows. The row of a valid seat is one of them.
#[tactic(auto, unfolding(garde::specs::Fields::Known))]
pub fn price(seat: &Valid<Seat>, prices: &[u32; 8]) -> u32
    ensures { result ≡ slice_index prices.now seat.now.row }
{
    prices[seat.row]
}
