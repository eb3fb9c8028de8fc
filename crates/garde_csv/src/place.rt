//! Where the reading of a list stands.

/// Where the reading stands in a record.
#[derive(Clone, Copy, Debug, PartialEq, Eq)]
pub(crate) enum Place {
    /// At the beginning of a record, or of an empty line.
    RecordStart,
    /// The same behind a carriage return, which a line feed may follow.
    AfterReturn,
    /// At the beginning of a cell that is not the first one.
    CellStart,
    /// In a cell without quotes.
    Plain,
    /// Between quotes.
    Quoted,
    /// Behind a quote between quotes: the closing one, or the first of two that stand for one.
    Closed,
}

/// What a byte does.
#[derive(Clone, Copy, Debug, PartialEq, Eq)]
pub(crate) enum Action {
    /// It belongs to no cell.
    Skip,
    /// It is a byte of the cell.
    Keep,
    /// It ends the cell.
    EndCell,
    /// It ends the record.
    EndRecord,
}
