//! Why a text is not read as JSON.
ghost use Rattle.std.specs.Prelude.{◌≡◌, IfOk};
ghost use Rattle.std.specs.Cow.{cow_str_bytes};
ghost use Rattle.garde_catalog.specs.Parse.{catalog_parse_text, put_place};

use crate::catalog::Catalog;
use crate::messages::NO_JSON;
use garde_i18n::Value;
use garde_schema::{ParseError, Place};
use std::alloc::{AllocError, Global};
use std::borrow::CowStr;

impl Catalog<'_> {
    // The text of a message that names a place.
    fn of_place(
        &self,
        alloc: Global,
        at: usize,
        place: Place,
    ) -> Result<CowStr<'static>, AllocError>
        ensures { IfOk result (λ s. cow_str_bytes s ≡ put_place self.now at place) }
    {
        let column = Value::Number(place.column);
        self.put_both(alloc, at, ("line", Value::Number(place.line)), column)
    }

    /// The text of what is not read as JSON. Of `ParseError::Memory` there is none: it is the
    /// error.
    pub fn parse_error(
        &self,
        alloc: Global,
        error: &ParseError,
    ) -> Result<CowStr<'static>, AllocError>
        ensures { IfOk result (λ s. cow_str_bytes s ≡ catalog_parse_text self.now error.now) }
    {
        match error {
            ParseError::NotUtf8(place) => self.of_place(alloc, NO_JSON, *place),
            ParseError::NotJson(place) => self.of_place(alloc, NO_JSON + 1, *place),
            ParseError::TooDeep(place) => self.of_place(alloc, NO_JSON + 2, *place),
            ParseError::LoneSurrogate(place) => self.of_place(alloc, NO_JSON + 3, *place),
            ParseError::TooLong => self.fixed(alloc, NO_JSON + 4),
            ParseError::Memory => Err(AllocError),
        }
    }
}
