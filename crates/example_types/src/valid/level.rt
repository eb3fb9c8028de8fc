//! A number that fits a narrower type, and a cast that loses nothing. The bounds of the number have a
//! name, which the code and the statement cite.
ghost use Rattle.std.specs.Prelude.{◌≡◌};
ghost use Rattle.garde.specs.Fields.{field, is, range};
ghost use Rattle.example_types.specs.declared.valid.level.TheConstants.{PERCENT};

use garde::fields::{Field, Fields, Is, Range};
use garde::{I18n, Report, Stated, Trail, Valid, Validate, range};
use std::alloc::AllocError;

/// How loud a level may be, in percent.
pub const PERCENT: Range<u32> = range!(max = 200);

/// How loud something is played, in percent.
#[derive(Drop)]
pub struct Level {
    pub percent: u32,
}

impl Stated for Level {
    type Context = ();

    ghost visits = { λ v _. field "percent" (is (range PERCENT v.percent)) };
}

impl Validate for Level {
    fn validate_into<'a, H: I18n>(
        &'a self,
        _ctx: &(),
        trail: &mut Trail<'a>,
        report: &mut Report,
        h: &H,
    ) -> Result<(), AllocError> {
        let Self { percent } = self;
        Field("percent", percent, Is(PERCENT)).visit(trail, report, h)
    }
}

/// The level as a byte. That of a valid level fits one.
#[tactic(auto, unfolding(garde::specs::Fields::Known))]
pub fn byte(level: &Valid<Level>) -> u8
    ensures { result ≡ level.now.percent }
{
    level.percent as u8
}
