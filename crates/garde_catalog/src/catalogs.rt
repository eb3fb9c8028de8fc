//! The catalogs of several languages, of which a request or a user asks for one.
ghost use Rattle.std.specs.Prelude.{◌≡◌, ◌∷◌, ◌++◌, [], IfErr, IfOk, IsOk, OnOk};
ghost use Rattle.garde_catalog.specs.Catalogs.{AddsLanguage, AreCatalogs, IsRefusalOf, catalog_at, offered_by, tag_at};
ghost use Rattle.garde_catalog.specs.Catalog.{AreGood, IsCatalog, IsRefusal};
ghost use Rattle.garde_catalog.specs.Lookup.{IsAskedBy, IsOfTag};
ghost use Rattle.garde_catalog.specs.Shipped.{AreGoodTables};

use crate::catalog::Catalog;
use crate::fault::CatalogError;
use crate::language::Language;
use crate::lines::Entry;
use std::alloc::{AllocError, Global};

impl Catalog<'static> {
    /// The catalog of the language that a tag asks for, as `Language::named` finds it. Where the tag
    /// asks for none that is offered, it is the catalog of the other table, as `&ENGLISH`.
    pub fn in_language(
        alloc: Global,
        tag: &str,
        offered: &[Language],
        otherwise: &'static [Entry<'static>],
    ) -> Result<Catalog<'static>, CatalogError>
        ensures ok { IfOk result (λ catalog. IsOfTag offered.now tag.now otherwise.now
            (λ table. IsCatalog table [] catalog)) }
        ensures err { IfErr result (λ error. IsOfTag offered.now tag.now otherwise.now
            (λ table. IsRefusal table [] error)) }
        ensures good { AreGoodTables offered.now → AreGood otherwise.now [] → IsOk result }
    {
        match Language::named(tag, offered) {
            Some(language) => Catalog::new(alloc, language.table),
            None => Catalog::new(alloc, otherwise),
        }
    }
}

// Appends a language and a catalog.
fn keep(
    language: Language,
    catalog: Catalog<'static>,
    languages: &mut Vec<Language>,
    catalogs: &mut Vec<Catalog<'static>>,
) -> Result<(), AllocError>
    ensures { OnOk result ((languages.new.items ≡ languages.old.items ++ language ∷ [])
        × (catalogs.new.items ≡ catalogs.old.items ++ catalog.entry ∷ [])) }
{
    languages.push(language)?;
    catalogs.push(catalog)?;
    Ok(())
}

// Appends a language and its catalog.
fn add(
    alloc: Global,
    language: Language,
    languages: &mut Vec<Language>,
    catalogs: &mut Vec<Catalog<'static>>,
) -> Result<(), CatalogError>
    ensures ok { OnOk result (AddsLanguage language languages.old.items languages.new.items
        catalogs.old.items catalogs.new.items) }
    ensures err { IfErr result (IsRefusal language.table.now []) }
{
    let catalog = Catalog::new(alloc, language.table)?;
    keep(language, catalog, languages, catalogs)?;
    Ok(())
}

/// The catalogs of several languages, and which of them is used where none is asked for.
#[derive(Debug, Drop)]
pub struct Catalogs {
    languages: Vec<Language>,
    catalogs: Vec<Catalog<'static>>,
    otherwise: Language,
    other: Catalog<'static>,
}

impl Catalogs {
    /// Makes the catalogs of the languages that are offered, and of the one that is used where none
    /// of them is asked for.
    pub fn new(
        alloc: Global,
        offered: &[Language],
        otherwise: Language,
    ) -> Result<Catalogs, CatalogError>
        ensures ok { IfOk result (AreCatalogs offered.now otherwise) }
        ensures err { IfErr result (IsRefusalOf offered.now otherwise) }
    {
        let mut languages = Vec::with_capacity(alloc, offered.len())?;
        let mut catalogs = Vec::with_capacity(alloc, offered.len())?;
        for language in offered {
            add(alloc, *language, &mut languages, &mut catalogs)?;
        }
        let other = Catalog::new(alloc, otherwise.table)?;
        Ok(Catalogs {
            languages,
            catalogs,
            otherwise,
            other,
        })
    }

    /// The place of the language that the field `Accept-Language` of a request asks for, among those
    /// that are offered, as `Language::asked` finds it. It allocates nothing.
    pub fn asked(&self, field: &[u8]) -> Option<usize>
        ensures { IsAskedBy field.now (offered_by self.now) result }
    {
        Language::place_asked(field, self.languages.as_slice())
    }

    /// The catalog of the language in a place, or the one that is used where none is asked for.
    pub fn catalog(&self, place: Option<usize>) -> &Catalog<'static>
        ensures { result.now ≡ catalog_at self.now place }
    {
        match place {
            Some(place) => self.catalogs.get(place).unwrap_or(&self.other),
            None => &self.other,
        }
    }

    /// The tag of that language.
    pub fn tag(&self, place: Option<usize>) -> &'static str
        ensures { result.now ≡ tag_at self.now place }
    {
        match place {
            Some(place) => match self.languages.get(place) {
                Some(language) => language.tag,
                None => self.otherwise.tag,
            },
            None => self.otherwise.tag,
        }
    }
}
