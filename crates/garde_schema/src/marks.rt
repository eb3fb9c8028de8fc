//! A handler that marks the faults of bounds.
ghost use Rattle.garde_schema.specs.Bound.{mark_text};

use garde_i18n::{Datum, Texts};
use std::alloc::{AllocError, Global};
use std::borrow::CowStr;

// A handler whose texts are empty, but that of a bound where it marks bounds. So a fault of which two
// such handlers have different texts is that of a bound.
#[derive(Drop)]
pub(crate) struct Marks(pub(crate) bool);

impl Texts for Marks {
    ghost texts = { λ marks datum. mark_text marks.0 datum };

    fn text_of(&self, _alloc: Global, datum: Datum<'_>) -> Result<CowStr<'static>, AllocError> {
        Ok(CowStr::Borrowed(match datum {
            Datum::RangeLowerThan(_) | Datum::RangeGreaterThan(_) if self.0 => ".",
            _ => "",
        }))
    }
}
