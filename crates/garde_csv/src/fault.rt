//! What is wrong with the quotes of a record.
ghost use Rattle.std.specs.Prelude.{Some};
ghost use Rattle.garde_csv.specs.Texts.{fault_text};

use std::fmt;

/// What is wrong with a record. A line is a line of the text, from 1, and ends with a line feed.
#[derive(Clone, Copy, Debug, PartialEq, Eq)]
pub enum Fault {
    /// The list ends inside of a quoted cell. The quote began in this line.
    OpenQuote { line: u64 },
    /// Text stands behind the closing quote of a cell, as in `"a"b`. The quote began in this line.
    /// RFC 4180, section 2, rules 5 to 7: a quote in a quoted cell is written as two.
    TextBehindQuote { line: u64 },
    /// A quote stands in this line in a cell that does not begin with one, as in `a"b`.
    /// RFC 4180, section 2, rule 5: such a cell has no quote.
    QuoteInside { line: u64 },
    /// A cell is not UTF-8.
    NotUtf8,
}

/// Prints the fault without any text of the list.
impl fmt::Display for Fault {
    ghost output = { λ fault. Some (fault_text fault) };

    fn fmt<W: fmt::Write>(&self, f: &mut fmt::Formatter<W>) -> fmt::Result {
        match self {
            Fault::OpenQuote { line } => write!(f, "a quote in line {line} is not closed"),
            Fault::TextBehindQuote { line } => {
                write!(f, "text behind a closing quote in line {line}")
            }
            Fault::QuoteInside { line } => {
                write!(f, "a quote in line {line} inside of a cell without quotes")
            }
            Fault::NotUtf8 => f.write_str("not UTF-8"),
        }
    }
}
