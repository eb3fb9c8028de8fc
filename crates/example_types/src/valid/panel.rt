//! A bound that is known at run time only, and what is known under that context.
ghost use Rattle.std.specs.Prelude.{◌≡◌, ◌<◌, IfSome, length, slice_index};
ghost use Rattle.garde.specs.Fields.{at_most, field, is, range};

use garde::fields::{Field, Fields, Is};
use garde::{I18n, Report, Stated, Trail, ValidUnder, Validate, range};
use std::alloc::{AllocError, Global};

/// A panel, whose channels are numbered from 0 to this.
#[derive(Clone, Copy)]
pub struct Panel {
    pub last: usize,
}

/// What was read on a channel.
#[derive(Drop)]
pub struct Reading {
    pub channel: usize,
    pub volts: u32,
}

impl Stated for Reading {
    type Context = Panel;

    ghost visits = { λ v panel. field "channel" (is (range (at_most panel.last) v.channel)) };
}

impl Validate for Reading {
    fn validate_into<'a, H: I18n>(
        &'a self,
        ctx: &Panel,
        trail: &mut Trail<'a>,
        report: &mut Report,
        h: &H,
    ) -> Result<(), AllocError> {
        let Self { channel, volts: _ } = self;
        Field("channel", channel, Is(range!(max = ctx.last))).visit(trail, report, h)
    }
}

/// How much the channel of a reading amplifies, or none where the panel has no such channel. There
/// has to be a number for each channel of the panel.
#[tactic(auto, unfolding(garde::specs::Fields::Known))]
pub fn gain(alloc: Global, reading: &Reading, panel: &Panel, gains: &[u32]) -> Option<u32>
    requires { panel.now.last < length gains.now }
    ensures { IfSome result (λ gain. gain ≡ slice_index gains.now reading.now.channel) }
{
    match reading.validate_with(alloc, panel) {
        Ok(()) => Some(gains[reading.channel]),
        Err(_) => None,
    }
}

/// The reading with its panel, or none where the panel has no such channel.
#[tactic(auto, unfolding(garde::specs::Fields::Known))]
pub fn on_panel(alloc: Global, reading: Reading, panel: &Panel) -> Option<ValidUnder<'_, Reading>>
    ensures { IfSome result (λ under. under ≡ (reading, panel.now)) }
{
    match reading.validate_with(alloc, panel) {
        Ok(()) => Some(ValidUnder::known(reading, panel)),
        Err(_) => None,
    }
}

/// How much the channel of a reading amplifies that stands with its panel. There has to be a number
/// for each channel of that panel.
#[tactic(auto, unfolding(garde::specs::Fields::Known))]
pub fn gain_on_panel(reading: &ValidUnder<'_, Reading>, gains: &[u32]) -> u32
    requires { reading.now.1.last < length gains.now }
    ensures { result ≡ slice_index gains.now reading.now.0.channel }
{
    gains[reading.channel]
}
