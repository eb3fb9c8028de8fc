//! A handler that gives the faults of form texts of its own.
ghost use Rattle.std.specs.Prelude.{◌≡◌};
ghost use Rattle.test_schema.specs.Texts.{kind_text, wanted_text, fault_text};

use garde::I18n;
use garde::i18n::{Datum, Texts as OneMethod};
use garde_schema::{FormFault, FormI18n, Wanted};
use garde_tape::Kind;
use std::alloc::{AllocError, Global};
use std::borrow::CowStr;

/// The texts of this handler, and of faults of form short texts in English.
#[derive(Clone, Copy)]
pub struct Texts<H>(pub H);

fn kind_text(kind: Kind) -> &'static str
    ensures { result.now ≡ kind_text kind }
{
    match kind {
        Kind::Text => "text",
        Kind::Number => "number",
        Kind::Boolean => "boolean",
        Kind::Null => "null",
        Kind::List => "list",
        Kind::Object => "object",
    }
}

fn wanted_text(wanted: Wanted) -> &'static str
    ensures { result.now ≡ wanted_text wanted }
{
    match wanted {
        Wanted::Text => "text",
        Wanted::Whole => "whole number",
        Wanted::Boolean => "boolean",
        Wanted::Null => "null",
        Wanted::List => "list",
        Wanted::Object => "object",
        Wanted::OneMember => "object with one member",
        Wanted::Character => "character",
        Wanted::Date => "date",
        Wanted::Time => "time",
        Wanted::DateTime => "date and time",
        Wanted::Timestamp => "timestamp",
        Wanted::Ipv4 => "IPv4 address",
        Wanted::Ipv6 => "IPv6 address",
        Wanted::Uuid => "UUID",
        Wanted::Version => "version",
        Wanted::Url => "URL",
    }
}

impl<H> FormI18n for Texts<H> {
    ghost form_text = { λ _ fault. fault_text fault };

    fn form_fault(&self, alloc: Global, fault: FormFault) -> Result<CowStr<'static>, AllocError> {
        Ok(CowStr::Borrowed(match fault {
            FormFault::Wrong(wanted, found) => {
                let found = kind_text(found);
                let wanted = wanted_text(wanted);
                return Ok(CowStr::Owned(format!(in alloc; "{found} in place of {wanted}")?));
            }
            FormFault::OutOfRange(_) => "out of range",
            FormFault::Missing => "missing",
            FormFault::Repeated => "repeated",
            FormFault::Unknown => "unknown",
            FormFault::NotOneOf => "not one of these",
            FormFault::RowLength => "another number of fields",
        }))
    }
}

impl<H: I18n> OneMethod for Texts<H> {
    ghost texts = { λ handler datum. H.text handler.0 datum };

    fn text_of(&self, alloc: Global, datum: Datum<'_>) -> Result<CowStr<'static>, AllocError> {
        (&&self.0).text_of(alloc, datum)
    }
}
