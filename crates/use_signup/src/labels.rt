//! Faults that name fields by their labels.
ghost use Rattle.std.specs.Prelude.{◌≡◌};
ghost use Rattle.garde_catalog.specs.Forms.{catalog_form_text};
ghost use Rattle.use_signup.specs.Labels.{label_of, labelled_text};

use garde::i18n::{Datum, Texts};
use garde_catalog::Catalog;
use garde_html::Field;
use garde_schema::{FormFault, FormI18n};
use std::alloc::{AllocError, Global};
use std::borrow::CowStr;

/// The texts of a catalog, in which a field of the form is named by its label.
#[derive(Clone, Copy)]
pub struct Labelled<'a> {
    pub fields: &'a [Field<'a>],
    pub catalog: &'a Catalog<'static>,
}

// The label of the field of this name, or the name where there is none.
fn label_of<'a>(fields: &[Field<'a>], name: &'a str) -> &'a str
    ensures { result.now ≡ label_of fields.now name.now }
{
    for field in fields {
        if name == field.name {
            return field.label;
        }
    }
    name
}

impl Texts for Labelled<'_> {
    ghost texts = { λ it datum. labelled_text it datum };

    fn text_of(&self, alloc: Global, datum: Datum<'_>) -> Result<CowStr<'static>, AllocError> {
        match datum {
            Datum::MatchesFieldMismatch(name) => {
                let label = label_of(self.fields, name);
                self.catalog
                    .text_of(alloc, Datum::MatchesFieldMismatch(label))
            }
            _ => self.catalog.text_of(alloc, datum),
        }
    }
}

impl FormI18n for Labelled<'_> {
    ghost form_text = { λ it fault. catalog_form_text it.catalog.now fault };

    fn form_fault(&self, alloc: Global, fault: FormFault) -> Result<CowStr<'static>, AllocError> {
        self.catalog.form_fault(alloc, fault)
    }
}
