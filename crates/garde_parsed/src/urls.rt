//! URLs.
ghost use Rattle.garde_schema.specs.declared.fault.FormFault.TheVariants.{Wrong};
ghost use Rattle.garde_schema.specs.declared.fault.Wanted.TheVariants as wanted;
ghost use Rattle.garde_tape.specs.declared.kind.Kind.TheVariants as kinds;
ghost use Rattle.garde_parsed.specs.Urls.{url_of};

use crate::parse_in_memory::ParseInMemory;
use garde::rules::url::reason;
use garde_schema::{FormFault, FormI18n, Kind, Wanted};
use std::alloc::{AllocError, Global};
use std::borrow::CowStr;

/// A text that writes an absolute URL, as `url::Url` reads it by the URL Standard, section 4.4.
#[derive(Clone, Copy, Debug)]
pub struct Url;

impl ParseInMemory for Url {
    type Value = url::Url;

    ghost parsed = { λ _ text. url_of text };

    ghost message = { λ _ texts _. texts (Wrong wanted.Url kinds.Text) };

    fn parse(&self, alloc: Global, text: &str) -> Result<Option<url::Url>, AllocError> {
        match url::Url::parse(alloc, text) {
            Ok(value) => Ok(Some(value)),
            Err(error) => match reason(&error) {
                Some(_) => Ok(None),
                // Out of memory, or a URL of 4 GB or more, which says nothing of the text.
                None => Err(AllocError),
            },
        }
    }

    fn message<H: FormI18n>(
        &self,
        alloc: Global,
        _text: &str,
        h: &H,
    ) -> Result<CowStr<'static>, AllocError> {
        h.form_fault(alloc, FormFault::Wrong(Wanted::Url, Kind::Text))
    }
}
