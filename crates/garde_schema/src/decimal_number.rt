//! Numbers with a fraction, as the exact decimals that their texts write.
ghost use Rattle.std.specs.Prelude.{◌≡◌, Some, IfOk};
ghost use Rattle.std.specs.Cow.{cow_str_bytes};
ghost use Rattle.garde.specs.Visits.{Known};
ghost use Rattle.garde_schema.specs.Decimals.{decimal_value, decimal_visits, is_no_number, no_number};

use crate::form::Form;
use crate::handler::FormI18n;
use crate::put::with;
use garde::fields::{Is, Rule, Rules};
use garde::{I18n, Report, RuleError, Trail};
use garde_decimal::Decimal;
use garde_i18n::{Code, Named};
use garde_tape::Tree;
use std::alloc::{AllocError, Global};
use std::borrow::CowStr;

// The handler's text of a value that is no number.
#[tactic(auto, unfolding(crate::specs::Decimals::is_no_number))]
fn text_of<H: I18n>(alloc: Global, h: &H) -> Result<CowStr<'static>, AllocError>
    ensures { IfOk result (λ s. cow_str_bytes s ≡ H.text h.now is_no_number) }
{
    let code = Code {
        name: "not_a_number",
        param: None,
    };
    let fault = Named {
        code,
        english: "not a number",
    };
    h.named(alloc, fault)
}

// The rule that no value keeps: that it is a number.
#[derive(Clone, Copy)]
struct NoNumber;

impl Rule<()> for NoNumber {
    ghost finds = { λ _ _. Some no_number };

    fn find<H: I18n>(&self, alloc: Global, _value: &(), h: &H) -> Result<(), RuleError> {
        Err(RuleError::of(alloc, text_of(alloc, h)))
    }
}

// The decimal that a tree spells.
#[inline(always)]
fn decimal_of<'a>(tree: &Tree<'_, 'a>) -> Option<Decimal<'a>>
    ensures { result ≡ decimal_value tree.now }
{
    Decimal::read(tree.as_number()?)
}

/// A number under these rules, for instance `DecimalNumber(Is(decimal_range!(min = "0.5")))`. The
/// value is a `Decimal`: the number that the text writes, with no rounding.
///
/// A value that is no number is `not a number`, and so is one whose exponent's digits do not fit 64
/// bits.
#[derive(Clone, Copy, Debug)]
pub struct DecimalNumber<R>(pub R);

impl<'a, R: Rules<Decimal<'a>>> Form<'a> for DecimalNumber<R> {
    type Out = Decimal<'a>;

    ghost visits = { λ form _ j. decimal_visits (λ v. R.asks form.0 v) j };

    ghost value = { λ _ j. decimal_value j };

    ghost keeps = { λ form v. Known (R.asks form.0 v) };

    fn read<'t, H: I18n + FormI18n>(
        &self,
        tree: &Tree<'t, 'a>,
        trail: &mut Trail<'a>,
        report: &mut Report,
        h: &H,
    ) -> Result<Option<Decimal<'a>>, AllocError> {
        match decimal_of(tree) {
            Some(number) => {
                let told = self.0.ask(&number, trail, report, h);
                with(told, Some(number))
            }
            None => with(Is(NoNumber).ask(&(), trail, report, h), None),
        }
    }
}
