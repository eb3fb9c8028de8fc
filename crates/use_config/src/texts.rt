//! The texts of faults, in a file behind `--catalog`.

use crate::check::{Input, Printing, check};
use crate::options::{Options, written_in};
use anyhow::Result;
use garde::I18n;
use garde_catalog::{Catalog, Entry, Language, Table, TableTexts, languages};
use garde_command::read_input;
use garde_places::{Format, Printed};
use garde_schema::{Closed, FormI18n, Object, ReadError, Scratch, read_json};

/// The table of texts that is read, all of them or some.
#[derive(Drop)]
struct Texts {
    form: TableTexts,
    table: Option<Table>,
}

impl Input for Texts {
    fn judge<H: I18n + FormI18n>(
        &mut self,
        rt: &HostRuntime,
        json: &[u8],
        h: &H,
    ) -> Result<Option<ReadError>> {
        let alloc = rt.alloc();
        let mut scratch = Scratch::new(alloc);
        match read_json(alloc, json, &mut scratch, &Object(Closed(self.form)), h) {
            Ok(table) => {
                self.table = Some(table);
                Ok(None)
            }
            Err(error) => Ok(Some(error)),
        }
    }
}

/// The texts of the language of a tag, for those that a file lacks.
pub fn fallback(tag: Option<&str>) -> Option<&'static [Entry<'static>]> {
    let language = Language::named(tag?, &languages())?;
    Some(language.table)
}

/// Reads the texts of a file. Where it has faults, each is printed with its place, and there is no
/// table.
pub fn read_texts(
    rt: &HostRuntime,
    options: &Options<'_>,
    catalog: &Catalog<'_>,
    file: &str,
) -> Result<Option<Table>> {
    let body = read_input(rt, Some(file))?;
    let mut texts = Texts {
        form: match options.spoken.tag {
            Some(_) => TableTexts::some(),
            None => TableTexts::all(),
        },
        table: None,
    };
    let format = match options.asked.printed() {
        Some(printed) => printed.format,
        None => Format::Short,
    };
    let printed = Some(Printed { format, file });
    let printing = Printing { printed, catalog };
    check(rt, printing, written_in(Some(file)), &body, &mut texts)?;
    Ok(texts.table)
}
