//! How a check ended.

/// How a check ended. `as u8` gives the number that C sees.
#[derive(Clone, Copy, Debug, PartialEq, Eq)]
pub enum Status {
    /// There is no fault.
    Valid = 0,
    /// There are faults of form or of the rules.
    Faults = 1,
    /// The bytes are no JSON text.
    NoJson = 2,
    /// Out of memory.
    Memory = 3,
    /// Not even one fault was asked for.
    WrongArgument = 4,
}
