//! A place in a body, as C sees it.

/// Where a fault is in a body: of an unknown or a repeated member its name, and else its value. A byte
/// order mark is not counted.
#[repr(C)]
#[derive(Clone, Copy, Debug, Drop)]
pub struct Place {
    /// The line, from 1 on.
    pub line: u64,
    /// The column, in characters from 1 on.
    pub column: u64,
}
