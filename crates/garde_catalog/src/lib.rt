//! Handlers whose texts are a table, one template for each message; tables in 18 languages; and
//! which of them a request asks for.
#![tactic(auto)]

mod catalog;
mod catalogs;
mod fault;
mod field;
mod forms;
mod judge;
mod language;
mod lines;
mod lookup;
mod messages;
mod parse;
mod rules;
mod spoken;
mod table;
mod table_texts;
mod tables;
mod template;

pub use catalog::Catalog;
pub use catalogs::Catalogs;
pub use fault::{CatalogError, CatalogFault, Wrong};
pub use field::ranges_of;
pub use language::{Language, languages};
pub use lines::Entry;
pub use lookup::Range;
pub use messages::{FURTHER_MESSAGES, MESSAGES, Message};
pub use spoken::SpokenError;
pub use table::Table;
pub use table_texts::{IsTextOf, TableTexts};
pub use tables::{
    ARABIC, CHINESE, CZECH, DUTCH, ENGLISH, FRENCH, GERMAN, HINDI, ITALIAN, JAPANESE, KOREAN,
    POLISH, PORTUGUESE, RUSSIAN, SPANISH, SWEDISH, TURKISH, UKRAINIAN,
};
pub use template::TemplateFault;
