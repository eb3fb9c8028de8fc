//! Rules on the whole value of a form, or of several members.
ghost use Rattle.std.specs.Prelude.{◌≡◌};
ghost use Rattle.garde_report.specs.Part.{key_part};
ghost use Rattle.garde.specs.Redaction.{AsksOnly};
ghost use Rattle.garde.specs.RedactionLaws.{finds_under};
ghost use Rattle.garde.specs.Visits.{Visited, Known, under, ◌and◌};
ghost use Rattle.garde_schema.specs.RulesOnValue.{rules_on_value};

use crate::form::{Form, Members};
use crate::handler::FormI18n;
use crate::put::with;
use garde::fields::{DiscreetRules, Rules, ask_under};
use garde::{Component, I18n, Report, Trail};
use garde_tape::Tree;
use std::alloc::AllocError;

/// This form, or these members, and then rules on the whole value.
///
/// The rules are asked after all of the form, and only where there is a value: of a tree of another
/// form none is. Their faults stand where the form stands, or under a member's name by `Under`.
/// Around a few members, as in `Object((Checked((a, b), rules), c))`, the rules are asked where these
/// members have their form, whatever the others have.
#[derive(Clone, Copy, Debug)]
pub struct Checked<F, R>(pub F, pub R);

// Asks the rules of the value, where there is one.
fn ask_value<'a, T, R: Rules<T>, H: I18n>(
    rules: &R,
    value: &Option<T>,
    trail: &mut Trail<'a>,
    report: &mut Report,
    h: &H,
) -> Result<(), AllocError>
    ensures { Visited (rules_on_value (λ v. R.asks rules.now v) value.now) (H.text h.now)
        trail.old trail.new report.old report.new result }
{
    match value {
        Some(value) => rules.ask(value, trail, report, h),
        None => Ok(()),
    }
}

impl<'a, F: Form<'a>, R: Rules<F::Out>> Form<'a> for Checked<F, R> {
    type Out = F::Out;

    ghost visits = { λ form texts j. F.visits form.0 texts j
        and rules_on_value (λ v. R.asks form.1 v) (F.value form.0 j) };

    ghost value = { λ form j. F.value form.0 j };

    ghost keeps = { λ form out. F.keeps form.0 out × Known (R.asks form.1 out) };

    fn read<'t, H: I18n + FormI18n>(
        &self,
        tree: &Tree<'t, 'a>,
        trail: &mut Trail<'a>,
        report: &mut Report,
        h: &H,
    ) -> Result<Option<F::Out>, AllocError> {
        let value = self.0.read(tree, trail, report, h)?;
        let told = ask_value(&self.1, &value, trail, report, h);
        with(told, value)
    }
}

impl<'a, M: Members<'a>, R: Rules<M::Out>> Members<'a> for Checked<M, R> {
    type Out = M::Out;

    ghost visits = { λ members texts j. M.visits members.0 texts j
        and rules_on_value (λ v. R.asks members.1 v) (M.value members.0 j) };

    ghost value = { λ members j. M.value members.0 j };

    ghost keeps = { λ members out. M.keeps members.0 out × Known (R.asks members.1 out) };

    ghost names = { λ members name. M.names members.0 name };

    fn read_members<'t, H: I18n + FormI18n>(
        &self,
        object: &Tree<'t, 'a>,
        trail: &mut Trail<'a>,
        report: &mut Report,
        h: &H,
    ) -> Result<Option<M::Out>, AllocError> {
        let value = self.0.read_members(object, trail, report, h)?;
        let told = ask_value(&self.1, &value, trail, report, h);
        with(told, value)
    }

    fn names(&self, name: &str) -> bool {
        self.0.names(name)
    }
}

/// These rules, whose faults stand under this name: `Checked(form, Under("confirm", rules))` reports
/// at the member `confirm` what the rules find in the whole.
#[derive(Clone, Copy, Debug)]
pub struct Under<R>(pub &'static str, pub R);

impl<T, R: Rules<T>> Rules<T> for Under<R> {
    ghost asks = { λ rules value. under (key_part rules.0.now) (R.asks rules.1 value) };

    fn ask<'a, H: I18n>(
        &self,
        value: &T,
        trail: &mut Trail<'a>,
        report: &mut Report,
        h: &H,
    ) -> Result<(), AllocError> {
        ask_under(Component::key(self.0), &self.1, value, trail, report, h)
    }
}

impl<T, R: DiscreetRules<T>> DiscreetRules<T> for Under<R> {
    ghost may_find = { λ rules. R.may_find rules.1 };

    ghost discreet = { λ rules value. finds_under (key_part rules.0.now) (R.discreet rules.1 value) };
}
