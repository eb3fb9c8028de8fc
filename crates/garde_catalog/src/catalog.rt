//! Catalogs: the texts of a language, one template for each message.
ghost use Rattle.std.specs.Prelude.{◌≡◌, ◌∷◌, [], IfOk, IfErr, IsOk, MatchOption};
ghost use Rattle.std.specs.Cow.{cow_str_bytes};
ghost use Rattle.garde_i18n.specs.DatumOf.{value_text};
ghost use Rattle.garde_catalog.specs.Catalog.{AreGood, HasNoOne, IsCatalog, IsFixed, IsRefusal, named_texts, put_both, put_in, word_at, word_of};

use crate::fault::CatalogError;
use crate::judge::check_tables;
use crate::lines::{Entry, Lines, lines_of, named_in, only_text, word_in};
use crate::template::{Put, fill, fill_one};
use garde_i18n::Value;
use std::alloc::{AllocError, Global};
use std::borrow::CowStr;

// The lines of the two tables of a catalog, the second one for messages that the first does not have.
#[derive(Clone, Copy, Debug, Drop)]
enum Tables<'t> {
    // They last as long as the program runs.
    Fixed(Lines<'static>, Lines<'static>),
    Lent(Lines<'t>, Lines<'t>),
}

/// The texts of a language: those of its table, and of another one where that table has none. It borrows
/// both.
#[derive(Clone, Copy, Debug, Drop)]
pub struct Catalog<'t> {
    tables: Tables<'t>,
}

impl Catalog<'static> {
    /// Makes a catalog of a table, which has one text for each message of `MESSAGES`. A text names each
    /// parameter of its message, in braces, and no other. The order of a table does not matter. The error
    /// lists the messages that are at fault, each with what is wrong. Of a table without faults the
    /// catalog is made with no allocation.
    ///
    /// A line of another code is the text of a rule of your own that brings this code.
    pub fn new(
        alloc: Global,
        entries: &'static [Entry<'static>],
    ) -> Result<Catalog<'static>, CatalogError>
        ensures ok { IfOk result (IsCatalog entries.now []) }
        ensures err { IfErr result (IsRefusal entries.now []) }
        ensures good { AreGood entries.now [] → IsOk result }
    {
        Catalog::with_fallback(alloc, entries, &[])
    }

    /// Makes a catalog of a table that may lack texts: for a message that it does not have, the other
    /// table has the text, as `&ENGLISH`. So a table serves a later version, which has more messages.
    pub fn with_fallback(
        alloc: Global,
        entries: &'static [Entry<'static>],
        fallback: &'static [Entry<'static>],
    ) -> Result<Catalog<'static>, CatalogError>
        ensures ok { IfOk result (IsCatalog entries.now fallback.now) }
        ensures err { IfErr result (IsRefusal entries.now fallback.now) }
        ensures good { AreGood entries.now fallback.now → IsOk result }
    {
        check_tables(alloc, entries, fallback)?;
        Ok(Catalog {
            tables: Tables::Fixed(lines_of(entries), lines_of(fallback)),
        })
    }
}

impl<'t> Catalog<'t> {
    /// Makes a catalog as `with_fallback` does, of tables that are borrowed for a while, as those that
    /// were read from a file. It copies each text that it gives.
    pub fn lent(
        alloc: Global,
        entries: &'t [Entry<'t>],
        fallback: &'t [Entry<'t>],
    ) -> Result<Catalog<'t>, CatalogError>
        ensures ok { IfOk result (IsCatalog entries.now fallback.now) }
        ensures err { IfErr result (IsRefusal entries.now fallback.now) }
        ensures good { AreGood entries.now fallback.now → IsOk result }
    {
        check_tables(alloc, entries, fallback)?;
        Ok(Catalog {
            tables: Tables::Lent(lines_of(entries), lines_of(fallback)),
        })
    }

    // The text of the message in a place.
    pub(crate) fn word_at(&self, place: usize) -> &str
        ensures { result.now ≡ word_at self.now place }
    {
        match &self.tables {
            Tables::Fixed(lines, others) => word_in(lines, others, place),
            Tables::Lent(lines, others) => word_in(lines, others, place),
        }
    }

    /// The text under a code, as the table has it. A code without one gives the empty text.
    pub fn word(&self, code: &str) -> &str
        ensures { result.now ≡ word_of self.now code.now }
    {
        match &self.tables {
            Tables::Fixed(lines, others) => only_text(lines.all, others.all, code),
            Tables::Lent(lines, others) => only_text(lines.all, others.all, code),
        }
    }

    // The text of a line for a rule that brings this code, if there is just one.
    pub(crate) fn named(&self, code: &str) -> Option<&str>
        ensures { MatchOption result (HasNoOne (named_texts self.now code.now))
            (λ text. named_texts self.now code.now ≡ text.now ∷ []) }
    {
        match &self.tables {
            Tables::Fixed(lines, others) => named_in(lines, others, code),
            Tables::Lent(lines, others) => named_in(lines, others, code),
        }
    }

    // The text of a message, which has no place. That of a fixed table is borrowed.
    pub(crate) fn fixed(&self, alloc: Global, place: usize) -> Result<CowStr<'static>, AllocError>
        ensures text { IfOk result (λ s. cow_str_bytes s ≡ word_at self.now place) }
        ensures given { IsFixed self.now → IsOk result }
    {
        match &self.tables {
            Tables::Fixed(lines, others) => Ok(CowStr::Borrowed(word_in(lines, others, place))),
            Tables::Lent(lines, others) => {
                let text = String::from_str(alloc, word_in(lines, others, place))?;
                Ok(CowStr::Owned(text))
            }
        }
    }

    // The text of a message, with this in its places.
    pub(crate) fn put_in(
        &self,
        alloc: Global,
        place: usize,
        value: Value<'_>,
    ) -> Result<CowStr<'static>, AllocError>
        ensures { IfOk result (λ s. cow_str_bytes s ≡ put_in self.now place (value_text value.entry)) }
    {
        fill_one(alloc, self.word_at(place), value)
    }

    // The text of a message, with these in the places of its two parameters. The first has this name.
    pub(crate) fn put_both(
        &self,
        alloc: Global,
        place: usize,
        first: (&'static str, Value<'_>),
        other: Value<'_>,
    ) -> Result<CowStr<'static>, AllocError>
        ensures { IfOk result (λ s. cow_str_bytes s
            ≡ put_both self.now place first.entry.0.now (value_text first.entry.1) (value_text other.entry)) }
    {
        let (name, value) = first;
        fill(alloc, self.word_at(place), Put::Two(name, value, other))
    }
}
