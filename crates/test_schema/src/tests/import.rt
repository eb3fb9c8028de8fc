//! An import into a table in memory.
use crate::tests::OrEnd;
use example_import::item::{Flaw, Item, Sink, Source};
use example_import::memory::MemoryTable;
use example_import::row::Row;
use example_import::run::{Batch, Progress, import};
use garde::{DefaultI18n, Report};
use garde_csv::Fault;
use std::alloc::{AllocError, Global};
use std::fmt::Write;
use std::process::Abort;
use std::rt::HostRuntime;

/// A list whose items are taken from the end of a vector.
#[derive(Drop)]
struct Items {
    items: Vec<Item>,
}

impl Source for Items {
    ghost use Rattle.std.specs.Prelude.{⊤};

    type Error = AllocError;

    ghost gives = { λ _ _ _. ⊤ };

    fn next(&mut self) -> Result<Option<Item>, AllocError> {
        Ok(self.items.pop())
    }
}

/// The faults, a line each.
#[derive(Drop)]
struct Lines {
    text: String,
}

impl Sink for Lines {
    ghost use Rattle.std.specs.Prelude.{⊤};

    type Error = AllocError;

    ghost tells = { λ _ _ _. ⊤ };

    fn tell(&mut self, report: &Report) -> Result<(), AllocError> {
        write!(self.text, "{report}")
    }
}

/// A row of this code, name and quantity, or a record that is none.
#[derive(Clone, Copy)]
enum Record {
    Row(&'static str, &'static str, Option<u64>),
    Broken(Flaw),
}

/// A record of each kind.
const RECORDS: &[Record] = &[
    Record::Row("P3", "Nut", Some(10_000)),
    Record::Broken(Flaw::Record(Fault::OpenQuote { line: 7 })),
    Record::Row("P1", "", Some(1)),
    Record::Row("P1", "Other screw", Some(1)),
    Record::Broken(Flaw::Lengths),
    Record::Row("4", "Bolt", None),
    Record::Row("P1", "Screw", Some(1)),
];

/// An item of this record.
fn item(rt: &impl Abort, alloc: Global, record: Record) -> Item {
    match record {
        Record::Row(code, name, quantity) => Item::Row(Row {
            code: String::from_str(alloc, code).or_end(rt),
            name: String::from_str(alloc, name).or_end(rt),
            quantity,
            price: Some(5),
            page: None,
        }),
        Record::Broken(flaw) => Item::Broken(flaw),
    }
}

/// A list with an item of each kind.
fn list(rt: &impl Abort, alloc: Global) -> Items {
    let mut items = Vec::new(alloc);
    for record in RECORDS {
        items.push(item(rt, alloc, *record)).or_end(rt);
    }
    Items { items }
}

const REPORT: &str = "[1].code: value does not begin with \"P\"
[1].quantity: not a number of pieces
[2]: not as many fields as in the header
[3].code: stored before
[4].name: length is lower than 1
[4].code: stored before
[5]: a quote in line 7 is not closed
";

/// Batches, how many rows are stored under each, and the names of those that are kept, a line each.
static CASES: [(Batch, usize, &str); 4] = [
    (Batch::Items(0), 2, "Screw\nNut\n"),
    (Batch::Items(1), 2, "Screw\nNut\n"),
    (Batch::Items(3), 2, "Screw\nNut\n"),
    (Batch::All, 0, ""),
];

/// The names of these rows, a line each.
fn names(rt: &impl Abort, alloc: Global, rows: &[Row]) -> String {
    let mut names = String::new(alloc);
    for row in rows {
        names.push_str(row.name.as_str()).or_end(rt);
        names.push('\n').or_end(rt);
    }
    names
}

/// Whether a table keeps rows of these names and has no other.
fn keeps(rt: &impl Abort, alloc: Global, table: &MemoryTable, kept: &str) -> bool {
    names(rt, alloc, table.kept_rows()).as_str() == kept && table.rows.len() == table.kept
}

/// Whether an import ended after seven items, of which it stored so many.
fn has_stored<E: Drop>(answer: Result<Progress, E>, stored: usize) -> bool {
    match answer {
        Ok(done) => done.items == 7 && done.stored == stored,
        Err(_) => false,
    }
}

/// Whether an import under this batch, which reports to this sink, counts so many stored rows, and keeps
/// those of these names and leaves no other.
fn stores(
    rt: &impl Abort,
    alloc: Global,
    out: &mut Lines,
    (batch, stored, kept): (Batch, usize, &str),
) -> bool {
    let mut table = MemoryTable::new(alloc);
    let mut list = list(rt, alloc);
    let answer = import(alloc, &mut table, &mut list, out, batch, &DefaultI18n);
    has_stored(answer, stored) && keeps(rt, alloc, &table, kept)
}

/// Whether an import under this batch reports all faults, counts so many stored rows, and keeps
/// those of these names and leaves no other.
fn imports(rt: &impl Abort, alloc: Global, case: (Batch, usize, &str)) -> bool {
    let mut out = Lines {
        text: String::new(alloc),
    };
    stores(rt, alloc, &mut out, case) && out.text.as_str() == REPORT
}

#[test]
fn imports_into_memory(rt: HostRuntime) {
    for case in &CASES {
        assert!(rt; imports(&rt, rt.alloc(), *case));
    }
}
