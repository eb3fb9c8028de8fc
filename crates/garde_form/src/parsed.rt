//! Texts that a parser reads.
ghost use Rattle.std.specs.Prelude.{◌≡◌, option_and_then, IfOk, OnOk};
ghost use Rattle.json.specs.Find.{as_str};
ghost use Rattle.garde.specs.Visits.{Visited, Known};
ghost use Rattle.garde_tape.specs.Look.{kind_of};
ghost use Rattle.garde_schema.specs.declared.fault.FormFault.TheVariants.{Wrong};
ghost use Rattle.garde_schema.specs.declared.fault.Wanted.TheVariants as wanted;
ghost use Rattle.garde_schema.specs.Bound.{TellsBound};
ghost use Rattle.garde_schema.specs.Forms.{formed, forget, Sound};
ghost use Rattle.garde_schema.specs.Whole.{number_visits};
ghost use Rattle.garde_form.specs.Bare.{text_in};
ghost use Rattle.garde_form.specs.Texts.{unread};

use crate::bare::text_for;
use crate::parse::Parse;
use crate::put::{put, with};
use garde::{I18n, Report, RuleError, Trail};
use garde_schema::{Form, FormFault, FormI18n, NumberRules, TextRef, Tree, Wanted};
use std::alloc::{AllocError, Global};

/// A text that this parser reads, and these rules on the value, for instance
/// `Parsed(U8, Is(range!(min = 18, max = 120)))`.
///
/// Of a number that the type does not hold, the first bound of the rules that it is beyond is reported,
/// as `lower than 18` of -1. Where it is beyond none, `out of range: 0 to 255` is.
#[derive(Clone, Copy, Debug)]
pub struct Parsed<P, R>(pub P, pub R);

// The text that a tree is.
#[inline(always)]
pub(crate) fn text_of<'a>(tree: &Tree<'_, 'a>) -> Option<TextRef<'a>>
    ensures { result ≡ as_str tree.now }
{
    match tree.as_str() {
        Some(text) => Some(TextRef::new(text)),
        None => None,
    }
}

// The fault of the first bound that the number is beyond which a text writes, where the parser reads
// no value of it.
fn find_bound<P: Parse, R: NumberRules<P::Value>, H: I18n>(
    alloc: Global,
    form: &Parsed<P, R>,
    text: &str,
    h: &H,
) -> Result<(), RuleError>
    ensures { TellsBound (option_and_then (λ v. R.bound form.now.1 v)
        (P.nearest form.now.0 text.now)) (H.text h.now) result }
{
    match form.0.nearest(text) {
        Some(nearest) => form.1.find_bound(alloc, &nearest, h),
        None => Ok(()),
    }
}

// Puts what is wrong with a text that spells no value: of a number the first bound of the rules that
// it is beyond, or else what the parser says.
#[inline(never)]
fn put_other<'a, P: Parse, R: NumberRules<P::Value>, H: I18n + FormI18n>(
    form: &Parsed<P, R>,
    text: &str,
    trail: &mut Trail<'a>,
    report: &mut Report,
    h: &H,
) -> Result<(), AllocError>
    ensures { Visited (unread (option_and_then (λ v. R.bound form.now.1 v)
        (P.nearest form.now.0 text.now))
        (P.message form.now.0 (H.form_text h.now) text.now)) (H.text h.now)
        trail.old trail.new report.old report.new result }
{
    let alloc = trail.alloc();
    match find_bound(alloc, form, text, h) {
        Ok(()) => {
            let message = form.0.message(alloc, text, h);
            put(message, trail, report, h)
        }
        Err(bound) => trail.put(report, Err(bound)),
    }
}

// Parses the text, and asks the rules of the value.
fn read_text<'a, P: Parse, R: NumberRules<P::Value>, H: I18n + FormI18n>(
    form: &Parsed<P, R>,
    text: &str,
    trail: &mut Trail<'a>,
    report: &mut Report,
    h: &H,
) -> Result<Option<P::Value>, AllocError>
    ensures answer { Visited (number_visits
        (unread (option_and_then (λ v. R.bound form.now.1 v) (P.nearest form.now.0 text.now))
        (P.message form.now.0 (H.form_text h.now) text.now))
        (λ v. R.asks form.now.1 v) (P.parsed form.now.0 text.now)) (H.text h.now)
        trail.old trail.new report.old report.new (forget result) }
    ensures value { IfOk result (λ out. out ≡ P.parsed form.now.0 text.now) }
    ensures sound { OnOk result (Sound (number_visits
        (unread (option_and_then (λ v. R.bound form.now.1 v) (P.nearest form.now.0 text.now))
        (P.message form.now.0 (H.form_text h.now) text.now))
        (λ v. R.asks form.now.1 v) (P.parsed form.now.0 text.now))
        (λ v. Known (R.asks form.now.1 v)) (P.parsed form.now.0 text.now)) }
{
    match form.0.parse(text) {
        Some(value) => {
            let told = form.1.ask(&value, trail, report, h);
            with(told, Some(value))
        }
        None => with(put_other(form, text, trail, report, h), None),
    }
}

impl<'a, P: Parse, R: NumberRules<P::Value>> Form<'a> for Parsed<P, R> {
    type Out = P::Value;

    ghost visits = { λ form texts j.
        formed (texts (Wrong wanted.Text (kind_of j)))
        (λ s. number_visits
        (unread (option_and_then (λ v. R.bound form.1 v) (P.nearest form.0 s)) (P.message form.0 texts s))
        (λ v. R.asks form.1 v) (P.parsed form.0 s)) (text_in (P.bare form.0) j) };

    ghost value = { λ form j. option_and_then (λ s. P.parsed form.0 s) (text_in (P.bare form.0) j) };

    ghost keeps = { λ form v. Known (R.asks form.1 v) };

    fn read<'t, H: I18n + FormI18n>(
        &self,
        tree: &Tree<'t, 'a>,
        trail: &mut Trail<'a>,
        report: &mut Report,
        h: &H,
    ) -> Result<Option<P::Value>, AllocError> {
        let alloc = trail.alloc();
        match text_for(&self.0, tree) {
            Some(text) => read_text(self, text.text(), trail, report, h),
            None => {
                let wrong = FormFault::Wrong(Wanted::Text, tree.kind());
                let message = h.form_fault(alloc, wrong);
                with(put(message, trail, report, h), None)
            }
        }
    }
}
