//! The catalog of the language that a command line asks for.
ghost use Rattle.std.specs.Prelude.{◌≡◌, [], IfErr, IfOk, MatchOption, string_bytes};
ghost use Rattle.garde_catalog.specs.Catalog.{AreGood};
ghost use Rattle.garde_catalog.specs.Shipped.{AreGoodTables};
ghost use Rattle.garde_catalog.specs.Spoken.{AreOf, IsNotSpoken, IsOfNone, IsSpoken, tags_text};

use crate::catalog::Catalog;
use crate::fault::CatalogError;
use crate::field::is_range;
use crate::language::Language;
use crate::lines::Entry;
use std::alloc::{AllocError, Global};
use std::fmt;

/// Why there is no catalog of the language that a command line asks for.
#[derive(Debug, Drop)]
pub enum SpokenError {
    /// The tag behind `--language` is ill-formed, or asks for no language that is offered. The text has
    /// the tags that are offered, each behind a space.
    NoLanguage(String),
    /// No catalog is made.
    Catalog(CatalogError),
}

impl From<CatalogError> for SpokenError {
    ghost use Rattle.std.specs.Prelude.{◌≡◌};
    ghost use Rattle.garde_catalog.specs.declared.spoken.SpokenError.TheVariants.{Catalog};

    ghost from_gives = { λ old error. error ≡ Catalog old };

    fn from(error: CatalogError) -> SpokenError {
        SpokenError::Catalog(error)
    }
}

impl From<AllocError> for SpokenError {
    ghost use Rattle.std.specs.Prelude.{◌≡◌};
    ghost use Rattle.garde_catalog.specs.declared.fault.CatalogError.TheVariants.{Memory};
    ghost use Rattle.garde_catalog.specs.declared.spoken.SpokenError.TheVariants.{Catalog};

    ghost from_gives = { λ _ error. error ≡ Catalog Memory };

    fn from(_error: AllocError) -> SpokenError {
        SpokenError::Catalog(CatalogError::Memory)
    }
}

impl fmt::Display for SpokenError {
    fn fmt<W: fmt::Write>(&self, f: &mut fmt::Formatter<W>) -> fmt::Result {
        match self {
            SpokenError::NoLanguage(tags) => {
                f.write_str("--language must be followed by one of")?;
                f.write_str(tags.as_str())
            }
            SpokenError::Catalog(error) => error.fmt(f),
        }
    }
}

impl std::error::Error for SpokenError {}

// The tags of languages, each behind a space.
fn tags_of(alloc: Global, languages: &[Language]) -> Result<String, AllocError>
    ensures { IfOk result (λ tags. string_bytes tags ≡ tags_text languages.now) }
{
    let mut tags = String::new(alloc);
    for language in languages {
        tags.push_str(" ")?;
        tags.push_str(language.tag)?;
    }
    Ok(tags)
}

// The table of the language of a tag, or the other one without a tag. An ill-formed tag has none.
fn table_of(
    tag: Option<&str>,
    offered: &[Language],
    otherwise: &'static [Entry<'static>],
) -> Option<&'static [Entry<'static>]>
    ensures { MatchOption result (IsOfNone tag.entry offered.now)
        (λ table. AreOf tag.entry offered.now otherwise.now table.now) }
{
    let Some(tag) = tag else {
        return Some(otherwise);
    };
    if !is_range(tag.as_bytes()) {
        return None;
    }
    let language = Language::named(tag, offered)?;
    Some(language.table)
}

impl Catalog<'static> {
    /// The catalog of the language that the tag behind `--language` asks for, as `Language::named` finds
    /// it, or of the other table, as `&ENGLISH`, without a tag.
    ///
    /// # Errors
    ///
    /// The tag is ill-formed (RFC 5646, section 2.1), or asks for no language that is offered. No catalog
    /// is made, for the reasons of `Catalog::new`: those that are shipped have none.
    pub fn spoken(
        alloc: Global,
        tag: Option<&str>,
        offered: &[Language],
        otherwise: &'static [Entry<'static>],
    ) -> Result<Catalog<'static>, SpokenError>
        ensures ok { IfOk result (IsSpoken tag.entry offered.now otherwise.now) }
        ensures err { IfErr result (IsNotSpoken tag.entry offered.now otherwise.now) }
        ensures good { AreGoodTables offered.now → AreGood otherwise.now []
            → IfErr result (λ _. IsOfNone tag.entry offered.now) }
    {
        match table_of(tag, offered, otherwise) {
            Some(table) => Ok(Catalog::new(alloc, table)?),
            None => Err(SpokenError::NoLanguage(tags_of(alloc, offered)?)),
        }
    }
}
