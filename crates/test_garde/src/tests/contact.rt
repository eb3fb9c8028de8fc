//! An enum, whose variants are checked each in its way.
ghost use Rattle.garde.specs.Fields.{ascii, field, is, none, str, Visits};
ghost use Rattle.test_garde.specs.declared.tests.contact.Contact.TheVariants.{Mail, Silent};

use garde::fields::{Ascii, Field, Fields, Is};
use garde::{I18n, Report, Stated, Trail, Validate};
use std::alloc::AllocError;

/// How someone is reached.
#[derive(Drop)]
pub enum Contact {
    Mail(String),
    Silent,
}

impl Stated for Contact {
    type Context = ();

    ghost visits = { λ v _. elim v as (λ _. Visits) [
      | Mail text ↦ field "mail" (is (ascii (str text)))
      | Silent ↦ none
    ] };
}

impl Validate for Contact {
    fn validate_into<'a, H: I18n>(
        &'a self,
        _ctx: &(),
        trail: &mut Trail<'a>,
        report: &mut Report,
        h: &H,
    ) -> Result<(), AllocError> {
        match self {
            Contact::Mail(text) => Field("mail", text, Is(Ascii)).visit(trail, report, h),
            Contact::Silent => ().visit(trail, report, h),
        }
    }
}
