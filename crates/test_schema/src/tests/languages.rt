//! Languages: the tables that are shipped, faulty tables, tables that are written in files, and the field
//! `Accept-Language`.

mod asked;
mod faulty;
mod own;
mod told;
mod worded;
mod written;

use garde_catalog::{CZECH, ENGLISH, Entry, GERMAN};

// The texts in English. A proof looks at all of a table where it is named.
fn english() -> &'static [Entry<'static>] {
    &ENGLISH
}

// The texts in German.
fn german() -> &'static [Entry<'static>] {
    &GERMAN
}

// The texts in Czech.
fn czech() -> &'static [Entry<'static>] {
    &CZECH
}
