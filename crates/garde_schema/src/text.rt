//! Texts.
ghost use Rattle.std.specs.Prelude.{◌≡◌};
ghost use Rattle.json.specs.Find.{as_str};
ghost use Rattle.garde.specs.Visits.{Known};
ghost use Rattle.garde_tape.specs.Look.{kind_of};
ghost use Rattle.garde_schema.specs.declared.fault.FormFault.TheVariants.{Wrong};
ghost use Rattle.garde_schema.specs.declared.fault.Wanted.TheVariants as wanted;
ghost use Rattle.garde_schema.specs.Forms.{formed};

use crate::fault::Wanted;
use crate::form::Form;
use crate::handler::FormI18n;
use crate::leaf::read_seen;
use crate::text_ref::TextRef;
use garde::fields::Rules;
use garde::{I18n, Report, Trail};
use garde_tape::Tree;
use std::alloc::AllocError;

// The text that a tree is.
#[inline(always)]
fn text_of<'a>(tree: &Tree<'_, 'a>) -> Option<TextRef<'a>>
    ensures { result ≡ as_str tree.now }
{
    Some(TextRef::new(tree.as_str()?))
}

/// A text under these rules.
#[derive(Clone, Copy, Debug)]
pub struct Text<R>(pub R);

impl<'a, R: Rules<TextRef<'a>>> Form<'a> for Text<R> {
    type Out = TextRef<'a>;

    ghost visits = { λ form texts j.
        formed (texts (Wrong wanted.Text (kind_of j))) (λ text. R.asks form.0 text) (as_str j) };

    ghost value = { λ _ j. as_str j };

    ghost keeps = { λ form text. Known (R.asks form.0 text) };

    fn read<'t, H: I18n + FormI18n>(
        &self,
        tree: &Tree<'t, 'a>,
        trail: &mut Trail<'a>,
        report: &mut Report,
        h: &H,
    ) -> Result<Option<TextRef<'a>>, AllocError> {
        let seen = text_of(tree);
        read_seen(tree, &Wanted::Text, seen, &self.0, trail, report, h)
    }
}
