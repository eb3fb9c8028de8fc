//! An option that has a value, and that value.
ghost use Rattle.std.specs.Prelude.{◌≡◌};
ghost use Rattle.garde.specs.Fields.{field, is, required, Some};

use garde::fields::{Field, Fields, Is, Required};
use garde::{I18n, Report, Stated, Trail, Valid, Validate};
use std::alloc::AllocError;

/// A parcel with a recipient. Who sends it may be left out.
#[derive(Drop)]
pub struct Parcel {
    pub sender: Option<String>,
    pub recipient: Option<String>,
}

impl Stated for Parcel {
    type Context = ();

    ghost visits = { λ v _. field "recipient" (is (required v.recipient)) };
}

impl Validate for Parcel {
    fn validate_into<'a, H: I18n>(
        &'a self,
        _ctx: &(),
        trail: &mut Trail<'a>,
        report: &mut Report,
        h: &H,
    ) -> Result<(), AllocError> {
        let Self {
            sender: _,
            recipient,
        } = self;
        Field("recipient", recipient, Is(Required)).visit(trail, report, h)
    }
}

/// To whom the parcel goes. A valid one has a recipient.
#[tactic(auto, unfolding(garde::specs::Fields::Known))]
pub fn recipient(parcel: &Valid<Parcel>) -> &String
    ensures { parcel.now.recipient ≡ Some result.now }
{
    parcel.recipient.as_ref().unwrap()
}
