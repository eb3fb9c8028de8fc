//! A number that is not zero, and a division by it.
ghost use Rattle.std.specs.Prelude.{◌≡◌, ◌/◌};
ghost use Rattle.garde.specs.Fields.{between, field, is, range};

use garde::fields::{Field, Fields, Is};
use garde::{I18n, Report, Stated, Trail, Valid, Validate, range};
use std::alloc::AllocError;

/// What is to be paid in cents, by 1 to 40 guests.
#[derive(Drop)]
pub struct Bill {
    pub cents: u32,
    pub guests: u32,
}

impl Stated for Bill {
    type Context = ();

    ghost visits = { λ v _. field "guests" (is (range (between 1 40) v.guests)) };
}

impl Validate for Bill {
    fn validate_into<'a, H: I18n>(
        &'a self,
        _ctx: &(),
        trail: &mut Trail<'a>,
        report: &mut Report,
        h: &H,
    ) -> Result<(), AllocError> {
        let Self { cents: _, guests } = self;
        Field("guests", guests, Is(range!(min = 1, max = 40))).visit(trail, report, h)
    }
}

/// What each guest pays, in whole cents. A valid bill has a guest.
#[tactic(auto, unfolding(garde::specs::Fields::Known))]
pub fn share(bill: &Valid<Bill>) -> u32
    ensures { result ≡ bill.now.cents / bill.now.guests }
{
    bill.cents / bill.guests
}
