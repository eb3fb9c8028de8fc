//! Languages, each with its tag and the table of its texts.
ghost use Rattle.std.specs.Prelude.{◌≡◌, map};
ghost use Rattle.garde_catalog.specs.Lines.{line_of};
ghost use Rattle.garde_catalog.specs.Shipped.{AreGoodTables, SHIPPED, tagged};

use crate::lines::Entry;
use crate::tables::{
    ARABIC, CHINESE, CZECH, DUTCH, ENGLISH, FRENCH, GERMAN, HINDI, ITALIAN, JAPANESE, KOREAN,
    POLISH, PORTUGUESE, RUSSIAN, SPANISH, SWEDISH, TURKISH, UKRAINIAN,
};

/// A language: its tag and the table of its texts.
#[derive(Clone, Copy, Debug)]
pub struct Language {
    /// The tag (BCP 47).
    pub tag: &'static str,
    /// The texts.
    pub table: &'static [Entry<'static>],
}

// A language of this tag.
fn tagged(tag: &'static str, table: &'static [Entry<'static>]) -> Language
    ensures { tagged result ≡ (tag.now, map line_of table.now) }
{
    Language { tag, table }
}

/// The languages that are shipped, each under its tag. Portuguese of any country is that of Brazil,
/// and Chinese of any country is in simplified characters, so these have several tags. A catalog is made
/// of each of their tables.
pub fn languages() -> [Language; 22]
    ensures tables { map tagged result ≡ SHIPPED }
    ensures good { AreGoodTables result }
{
    // A proof looks at all of a table where it is named, so each is named once.
    let portuguese: &[Entry<'_>] = &PORTUGUESE;
    let chinese: &[Entry<'_>] = &CHINESE;
    [
        tagged("en", &ENGLISH),
        tagged("de", &GERMAN),
        tagged("fr", &FRENCH),
        tagged("es", &SPANISH),
        tagged("it", &ITALIAN),
        tagged("pt-BR", portuguese),
        tagged("pt", portuguese),
        tagged("nl", &DUTCH),
        tagged("sv", &SWEDISH),
        tagged("pl", &POLISH),
        tagged("cs", &CZECH),
        tagged("ru", &RUSSIAN),
        tagged("uk", &UKRAINIAN),
        tagged("tr", &TURKISH),
        tagged("ja", &JAPANESE),
        tagged("zh-Hans", chinese),
        tagged("zh-CN", chinese),
        tagged("zh-SG", chinese),
        tagged("zh", chinese),
        tagged("ko", &KOREAN),
        tagged("ar", &ARABIC),
        tagged("hi", &HINDI),
    ]
}
