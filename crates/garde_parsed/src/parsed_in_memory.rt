//! Texts of which a parser that may allocate makes values.
ghost use Rattle.std.specs.Prelude.{◌≡◌, option_and_then, Some, None, IfOk, false};
ghost use Rattle.json.specs.Find.{as_str};
ghost use Rattle.garde.specs.Visits.{Visited, Known, may_allocate};
ghost use Rattle.garde_schema.specs.Forms.{formed, refused, forget};
ghost use Rattle.garde_parsed.specs.InMemory.{text_visits};

use crate::parse_in_memory::ParseInMemory;
use garde::{I18n, Report, Trail};
use garde_form::{Parse, Parsed};
use garde_schema::{Form, FormI18n, Rules, Tree};
use std::alloc::{AllocError, Global};
use std::borrow::CowStr;

/// A text that this parser reads, and these rules on the value, for instance
/// `ParsedInMemory(Url, ())`. It may allocate, whatever the text is.
#[derive(Clone, Copy, Debug)]
pub struct ParsedInMemory<P, R>(pub P, pub R);

// Reads no value of any text, and says of each what this parser says.
#[derive(Drop)]
struct NoValue<'p, P>(&'p P);

impl<'p, P: ParseInMemory> Parse for NoValue<'p, P> {
    type Value = ();

    ghost bare = { λ _. false };

    ghost parsed = { λ _ _. None };

    ghost message = { λ none texts text. P.message none.0.now texts text };

    ghost nearest = { λ _ _. None };

    fn parse(&self, _text: &str) -> Option<()> {
        None
    }

    fn is_bare(&self) -> bool {
        false
    }

    fn message<H: FormI18n>(
        &self,
        alloc: Global,
        text: &str,
        h: &H,
    ) -> Result<CowStr<'static>, AllocError> {
        self.0.message(alloc, text, h)
    }

    fn nearest(&self, _text: &str) -> Option<()> {
        None
    }
}

// The value of the text that a tree is.
fn value_in<'t, 'a, P: ParseInMemory>(
    alloc: Global,
    parser: &P,
    tree: &Tree<'t, 'a>,
) -> Result<Option<P::Value>, AllocError>
    ensures { IfOk result (λ out.
        out ≡ option_and_then (λ s. P.parsed parser.now s) (as_str tree.now)) }
{
    match tree.as_str() {
        Some(text) => parser.parse(alloc, text),
        None => Ok(None),
    }
}

// Tells that a tree spells no value.
fn tell<'t, 'a, P: ParseInMemory, H: I18n + FormI18n>(
    parser: &P,
    tree: &Tree<'t, 'a>,
    trail: &mut Trail<'a>,
    report: &mut Report,
    h: &H,
) -> Result<Option<P::Value>, AllocError>
    ensures answer { Visited (text_visits (H.form_text h.now)
        (λ s. refused (P.message parser.now (H.form_text h.now) s)) tree.now) (H.text h.now)
        trail.old trail.new report.old report.new (forget result) }
    ensures value { IfOk result (λ out. out ≡ None) }
{
    match Parsed(NoValue(parser), ()).read(tree, trail, report, h) {
        Ok(_) => Ok(None),
        Err(error) => Err(error),
    }
}

// Asks the rules of a value.
fn ask<'a, T: Drop, R: Rules<T>, H: I18n>(
    rules: &R,
    value: T,
    trail: &mut Trail<'a>,
    report: &mut Report,
    h: &H,
) -> Result<Option<T>, AllocError>
    ensures answer { Visited (R.asks rules.now value) (H.text h.now)
        trail.old trail.new report.old report.new (forget result) }
    ensures value { IfOk result (λ out. out ≡ Some value) }
{
    match rules.ask(&value, trail, report, h) {
        Ok(()) => Ok(Some(value)),
        Err(error) => Err(error),
    }
}

impl<'a, P: ParseInMemory, R: Rules<P::Value>> Form<'a> for ParsedInMemory<P, R> {
    type Out = P::Value;

    ghost visits = { λ form texts j. may_allocate (text_visits texts
        (λ s. formed (P.message form.0 texts s) (λ v. R.asks form.1 v) (P.parsed form.0 s)) j) };

    ghost value = { λ form j. option_and_then (λ s. P.parsed form.0 s) (as_str j) };

    ghost keeps = { λ form v. Known (R.asks form.1 v) };

    fn read<'t, H: I18n + FormI18n>(
        &self,
        tree: &Tree<'t, 'a>,
        trail: &mut Trail<'a>,
        report: &mut Report,
        h: &H,
    ) -> Result<Option<P::Value>, AllocError> {
        let alloc = trail.alloc();
        match value_in(alloc, &self.0, tree) {
            Err(error) => Err(error),
            Ok(Some(value)) => ask(&self.1, value, trail, report, h),
            Ok(None) => tell(&self.0, tree, trail, report, h),
        }
    }
}
