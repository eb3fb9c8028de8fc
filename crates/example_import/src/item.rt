//! A list that is read an item at a time, and where its faults go.
ghost use Rattle.std.specs.Prelude.{Some, IfOk, OnOk};
ghost use Rattle.example_import.specs.Import.{flaw_text};

use crate::row::Row;
use garde::Report;
use garde_csv::Fault;
use std::fmt;

/// Why a record of a list is no row, where the records behind it can be read.
#[derive(Clone, Copy)]
pub enum Flaw {
    /// It has more or fewer fields than the header.
    Lengths,
    /// Its quotes are not those of RFC 4180, or it is not UTF-8.
    Record(Fault),
}

/// The message of its fault, which has no text of the list.
impl fmt::Display for Flaw {
    ghost output = { λ flaw. Some (flaw_text flaw) };

    fn fmt<W: fmt::Write>(&self, f: &mut fmt::Formatter<W>) -> fmt::Result {
        match self {
            Flaw::Lengths => f.write_str("not as many fields as in the header"),
            Flaw::Record(fault) => write!(f, "{fault}"),
        }
    }
}

/// What a list has under an index.
#[derive(Drop)]
pub enum Item {
    Row(Row),
    Broken(Flaw),
}

/// A list that is read an item at a time.
pub trait Source {
    ghost use Rattle.std.specs.Prelude.{Option};
    ghost use Rattle.example_import.specs.declared.item.Item.{Item};

    /// Why no more can be read.
    type Error;

    /// The list as it was gave this item, or its end, and it is the other one now.
    ghost gives: { Self → Option Item → Self → Type 0 };

    /// The next item, or `None` at the end of the list.
    fn next(&mut self) -> Result<Option<Item>, Self::Error>
        ensures { IfOk result (λ next. gives self.old next self.new) };
}

/// What takes the report of one item after the other.
pub trait Sink {
    ghost use Rattle.std.specs.Prelude.{List};
    ghost use Rattle.garde.specs.Words.{Entry};

    /// Why a report was not taken.
    type Error;

    /// It took this report, and it is the other one now.
    ghost tells: { Self → List Entry → Self → Type 0 };

    /// Takes the report of an item, which is empty where the item has no fault.
    fn tell(&mut self, report: &Report) -> Result<(), Self::Error>
        ensures { OnOk result (tells self.old report.now self.new) };
}
