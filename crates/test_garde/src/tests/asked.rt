//! What a handler is asked for, and what it returns.
use garde::I18n;
use garde_i18n::{Datum, Texts};
use std::alloc::{AllocError, Global};
use std::borrow::CowStr;
use std::process::Abort;

/// What a handler is asked for, and the text that it has to return.
pub type Row = (Datum<'static>, &'static str);

/// What a handler returns: a reference to it asks the method of the kind.
pub fn said<H: I18n>(
    alloc: Global,
    h: &H,
    asked: Datum<'_>,
) -> Result<CowStr<'static>, AllocError> {
    (&h).text_of(alloc, asked)
}

/// Whether a handler returns this text.
fn says<H: I18n>(alloc: Global, h: &H, asked: Datum<'_>, text: &str) -> bool {
    matches!(&said(alloc, h, asked), Ok(told) if told.as_str() == text)
}

/// Asserts each text of a handler.
pub fn assert_says<H: I18n>(rt: &impl Abort, alloc: Global, h: &H, rows: &[Row]) {
    for (asked, text) in rows {
        assert!(rt; says(alloc, h, *asked, text), "at {text}");
    }
}
