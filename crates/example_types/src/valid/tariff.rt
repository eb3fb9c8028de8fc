//! A map that has a value under the key that a rule asks for, and that value.
ghost use Rattle.std.specs.Prelude.{◌≡◌, is_some};
ghost use Rattle.std.specs.BTreeMap.{get_by_text};
ghost use Rattle.garde.specs.Fields.{asks, codes, field, is, Some};

use garde::fields::{Field, Fields, Is, Rule};
use garde::{I18n, Report, RuleError, Stated, Trail, Valid, Validate};
use std::alloc::{AllocError, Global};
use std::borrow::CowStr;
use std::collections::BTreeMap;

/// The rule that one of the prices is that of `standard`.
#[derive(Clone, Copy)]
pub struct HasStandard;

impl Rule<BTreeMap<String, u32>> for HasStandard {
    ghost finds = { λ _ prices. asks "name the standard price" (is_some (get_by_text prices (codes "standard"))) };

    fn find<H: I18n>(
        &self,
        alloc: Global,
        value: &BTreeMap<String, u32>,
        _h: &H,
    ) -> Result<(), RuleError> {
        if value.contains_key("standard") {
            Ok(())
        } else {
            Err(RuleError::of(alloc, Ok(CowStr::Borrowed("name the standard price"))))
        }
    }
}

/// The prices of letters in cents, by their kind.
#[derive(Drop)]
pub struct Tariff {
    pub prices: BTreeMap<String, u32>,
}

impl Stated for Tariff {
    type Context = ();

    ghost visits = { λ v _.
        field "prices" (is (asks "name the standard price" (is_some (get_by_text v.prices (codes "standard"))))) };
}

impl Validate for Tariff {
    fn validate_into<'a, H: I18n>(
        &'a self,
        _ctx: &(),
        trail: &mut Trail<'a>,
        report: &mut Report,
        h: &H,
    ) -> Result<(), AllocError> {
        let Self { prices } = self;
        Field("prices", prices, Is(HasStandard)).visit(trail, report, h)
    }
}

/// The price of a standard letter, which a valid tariff has.
#[tactic(auto, unfolding(garde::specs::Fields::Known))]
pub fn standard(tariff: &Valid<Tariff>) -> u32
    ensures { get_by_text tariff.now.prices (codes "standard") ≡ Some result }
{
    tariff.prices["standard"]
}
