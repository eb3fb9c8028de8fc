//! The language of messages.
ghost use Rattle.std.specs.Prelude.{◌≡◌};
ghost use Rattle.use_schemas.specs.Voice.{IsVoice, IsVoiceOf, voice_form_text, voice_text};

use garde::DefaultI18n;
use garde_catalog::{Catalog, Entry, Language, languages};
use garde_i18n::{Datum, Texts};
use garde_schema::{FormFault, FormI18n};
use std::alloc::{AllocError, Global};
use std::borrow::CowStr;

/// A handler: the messages of a language.
#[derive(Clone, Copy, Debug, Drop)]
pub enum Voice {
    English,
    Other(Catalog<'static>),
}

// The language of a table of texts, if it makes a catalog.
fn of_table(alloc: Global, table: &'static [Entry<'static>]) -> Voice
    ensures { IsVoice result }
{
    let Ok(catalog) = Catalog::new(alloc, table) else {
        return Voice::English;
    };
    Voice::Other(catalog)
}

// The language of a tag, of those that there are.
fn named(alloc: Global, tag: &[u8]) -> Voice
    ensures { IsVoice result }
{
    let Ok(tag) = str::from_utf8(tag) else {
        return Voice::English;
    };
    match Language::named(tag, &languages()) {
        Some(language) => of_table(alloc, language.table),
        None => Voice::English,
    }
}

impl Voice {
    /// The language of a tag (RFC 5646), of those that `garde_catalog` has: for `de-AT` German. It is
    /// English of any other and of none.
    pub fn of(alloc: Global, tag: &[u8]) -> Voice
        ensures { IsVoiceOf tag.now result }
    {
        if tag.is_empty() || tag == b"en".as_slice() {
            Voice::English
        } else {
            named(alloc, tag)
        }
    }
}

impl Texts for Voice {
    ghost texts = { λ voice datum. voice_text voice datum };

    fn text_of(&self, alloc: Global, datum: Datum<'_>) -> Result<CowStr<'static>, AllocError> {
        match self {
            Voice::English => DefaultI18n.text_of(alloc, datum),
            Voice::Other(catalog) => catalog.text_of(alloc, datum),
        }
    }
}

impl FormI18n for Voice {
    ghost form_text = { λ voice fault. voice_form_text voice fault };

    fn form_fault(&self, alloc: Global, fault: FormFault) -> Result<CowStr<'static>, AllocError> {
        match self {
            Voice::English => DefaultI18n.form_fault(alloc, fault),
            Voice::Other(catalog) => catalog.form_fault(alloc, fault),
        }
    }
}
