//! Unions whose variant a member names, as `#[serde(tag = "kind")]` has them.
ghost use Rattle.std.specs.Prelude.{◌≡◌, option_and_then, IfOk, OnOk};
ghost use Rattle.json.specs.Find.{as_object, as_str};
ghost use Rattle.garde_report.specs.Part.{key_part};
ghost use Rattle.garde.specs.Visits.{Visited};
ghost use Rattle.garde_tape.specs.Look.{find_answer, kind_of};
ghost use Rattle.garde_schema.specs.declared.fault.FormFault.TheVariants.{Wrong};
ghost use Rattle.garde_schema.specs.declared.fault.Wanted.TheVariants as wanted;
ghost use Rattle.garde_schema.specs.Forms.{formed, forget, Sound};
ghost use Rattle.garde_schema.specs.Variants.{choice_or, choice_by, tag_choice, chosen_visits, chosen_value};

use crate::fault::{FormFault, Wanted};
use crate::form::Form;
use crate::handler::FormI18n;
use crate::put::{put, put_under, with};
use crate::variants::Variants;
use garde::{I18n, Report, Trail};
use garde_tape::{Found, Tree};
use std::alloc::AllocError;

/// An object whose member of this name, the tag, says which of the variants it is, for instance
/// `Tagged("kind", (Variant("card", card), Variant("cash", cash)))`.
///
/// A tag that is missing, repeated, no text or no name of a variant is a fault under its name. Then
/// nothing else is asked of the object. The value is that of the variant.
#[derive(Clone, Copy, Debug)]
pub struct Tagged<'a, V>(pub &'a str, pub V);

// The variant of this name, or this fault.
pub(crate) fn chosen<'a, V: Variants<'a>>(
    variants: &V,
    name: &str,
    fault: FormFault,
) -> Result<V::Choice, FormFault>
    ensures { result ≡ choice_or fault (V.chosen variants.now name.now) }
{
    match variants.choose(name) {
        Some(choice) => Ok(choice),
        None => Err(fault),
    }
}

// The variant that a text names.
fn choice_by<'a, V: Variants<'a>>(variants: &V, tree: &Tree<'_, '_>) -> Result<V::Choice, FormFault>
    ensures { result ≡ choice_by (λ name. V.chosen variants.now name) tree.now (as_str tree.now) }
{
    match tree.as_str() {
        Some(name) => chosen(variants, name, FormFault::NotOneOf),
        None => Err(FormFault::Wrong(Wanted::Text, tree.kind())),
    }
}

// The variant that the tag names, by what was found of it.
fn choice_of<'a, V: Variants<'a>>(
    variants: &V,
    found: &Found<'_, '_>,
) -> Result<V::Choice, FormFault>
    ensures { result ≡ tag_choice (λ name. V.chosen variants.now name) found.now }
{
    match found {
        Found::Once(tree) => choice_by(variants, tree),
        Found::Missing => Err(FormFault::Missing),
        Found::Repeated => Err(FormFault::Repeated),
    }
}

// Reads an object by the variant that was chosen under this name.
pub(crate) fn read_chosen<'t, 'a, V: Variants<'a>, H: I18n + FormI18n>(
    variants: &V,
    choice: Result<V::Choice, FormFault>,
    name: &'a str,
    object: &Tree<'t, 'a>,
    trail: &mut Trail<'a>,
    report: &mut Report,
    h: &H,
) -> Result<Option<V::Out>, AllocError>
    ensures answer { Visited (chosen_visits (key_part name.now) (H.form_text h.now)
        (λ c. V.visits variants.now c name.now (H.form_text h.now) object.now) choice)
        (H.text h.now) trail.old trail.new report.old report.new (forget result) }
    ensures value { IfOk result (λ out.
        out ≡ chosen_value (λ c. V.value variants.now c object.now) choice) }
    ensures sound { OnOk result (Sound (chosen_visits (key_part name.now) (H.form_text h.now)
        (λ c. V.visits variants.now c name.now (H.form_text h.now) object.now) choice)
        (λ out. V.keeps variants.now out)
        (chosen_value (λ c. V.value variants.now c object.now) choice)) }
{
    match choice {
        Ok(choice) => variants.read_variant(choice, name, object, trail, report, h),
        Err(fault) => with(put_under(name, fault, trail, report, h), None),
    }
}

impl<'a, V: Variants<'a>> Form<'a> for Tagged<'a, V> {
    type Out = V::Out;

    ghost visits = { λ form texts j. formed (texts (Wrong wanted.Object (kind_of j)))
        (λ _. chosen_visits (key_part form.0.now) texts
        (λ c. V.visits form.1 c form.0.now texts j)
        (tag_choice (λ name. V.chosen form.1 name) (find_answer form.0.now j))) (as_object j) };

    ghost value = { λ form j. option_and_then (λ _. chosen_value (λ c. V.value form.1 c j)
        (tag_choice (λ name. V.chosen form.1 name) (find_answer form.0.now j))) (as_object j) };

    ghost keeps = { λ form out. V.keeps form.1 out };

    fn read<'t, H: I18n + FormI18n>(
        &self,
        tree: &Tree<'t, 'a>,
        trail: &mut Trail<'a>,
        report: &mut Report,
        h: &H,
    ) -> Result<Option<V::Out>, AllocError> {
        match tree.members() {
            Some(_) => {
                let choice = choice_of(&self.1, &tree.find(self.0));
                read_chosen(&self.1, choice, self.0, tree, trail, report, h)
            }
            None => {
                let fault = FormFault::Wrong(Wanted::Object, tree.kind());
                with(put(fault, trail, report, h), None)
            }
        }
    }
}
