//! Texts of which each stands for a value.
ghost use Rattle.std.specs.Prelude.{◌≡◌};
ghost use Rattle.garde.specs.Visits.{Known, none};
ghost use Rattle.garde_schema.specs.Forms.{formed};
ghost use Rattle.garde_tape.specs.Look.{kind_of};
ghost use Rattle.garde_schema.specs.declared.fault.FormFault.TheVariants.{Wrong};
ghost use Rattle.garde_schema.specs.declared.fault.Wanted.TheVariants as wanted;
ghost use Rattle.garde_schema.specs.OneOf.{beside, known_or, known_value, one_of_fault};

use crate::fault::{FormFault, Wanted};
use crate::form::Form;
use crate::handler::FormI18n;
use crate::leaf::{Misfit, read_seen};
use garde::{I18n, Report, Trail};
use garde_tape::Tree;
use std::alloc::AllocError;

/// One of these texts, each with the value that it stands for, for instance
/// `OneOf(&[("post", Delivery::Post), ("counter", Delivery::Counter)])`.
///
/// Of a text that stands there twice the first value counts. A text that is not there is a fault.
#[derive(Clone, Copy, Debug)]
pub struct OneOf<'n, V>(pub &'n [(&'n str, V)]);

// The value that stands beside this text.
fn beside<V: Copy>(rows: &[(&str, V)], text: &str) -> Option<V>
    ensures { result ≡ beside rows.now text.now }
{
    for (name, value) in rows {
        if text == *name {
            return Some(*value);
        }
    }
    None
}

// The value that the text of a tree stands for.
pub(crate) fn value_of<V: Copy>(rows: &[(&str, V)], tree: &Tree<'_, '_>) -> Option<V>
    ensures { result ≡ known_value rows.now tree.now }
{
    beside(rows, tree.as_str()?)
}

// Of a tree that stands for no value: whether it is a text at all.
struct KnownText;

impl Misfit for KnownText {
    ghost misfit = { λ _ j. one_of_fault j };

    fn misfit(&self, tree: &Tree<'_, '_>) -> FormFault {
        match tree.as_str() {
            Some(_) => FormFault::NotOneOf,
            None => FormFault::Wrong(Wanted::Text, tree.kind()),
        }
    }
}

impl<'a, 'n, V: Copy + Drop> Form<'a> for OneOf<'n, V> {
    type Out = V;

    ghost visits = { λ form texts j. formed (texts (one_of_fault j)) (λ _. none)
        (known_value form.0.now j) };

    ghost value = { λ form j. known_value form.0.now j };

    ghost keeps = { λ _ _. Known none };

    fn read<'t, H: I18n + FormI18n>(
        &self,
        tree: &Tree<'t, 'a>,
        trail: &mut Trail<'a>,
        report: &mut Report,
        h: &H,
    ) -> Result<Option<V>, AllocError> {
        let seen = value_of(self.0, tree);
        read_seen(tree, &KnownText, seen, &(), trail, report, h)
    }
}

/// One of these texts, each with the value that it stands for, and the last value for every other text,
/// as serde reads a variant with `#[serde(other)]`: for instance
/// `OneOfOr(&[("post", Delivery::Post)], Delivery::Unknown)`.
///
/// Of a text that stands there twice the first value counts. What is no text is a fault.
#[derive(Clone, Copy, Debug)]
pub struct OneOfOr<'n, V>(pub &'n [(&'n str, V)], pub V);

// The value that the text of a tree stands for, and this one for another text.
fn value_or<V: Copy + Drop>(rows: &[(&str, V)], other: V, tree: &Tree<'_, '_>) -> Option<V>
    ensures { result ≡ known_or rows.now other tree.now }
{
    Some(beside(rows, tree.as_str()?).unwrap_or(other))
}

impl<'a, 'n, V: Copy + Drop> Form<'a> for OneOfOr<'n, V> {
    type Out = V;

    ghost visits = { λ form texts j. formed (texts (Wrong wanted.Text (kind_of j))) (λ _. none)
        (known_or form.0.now form.1 j) };

    ghost value = { λ form j. known_or form.0.now form.1 j };

    ghost keeps = { λ _ _. Known none };

    fn read<'t, H: I18n + FormI18n>(
        &self,
        tree: &Tree<'t, 'a>,
        trail: &mut Trail<'a>,
        report: &mut Report,
        h: &H,
    ) -> Result<Option<V>, AllocError> {
        let seen = value_or(self.0, self.1, tree);
        read_seen(tree, &Wanted::Text, seen, &(), trail, report, h)
    }
}
