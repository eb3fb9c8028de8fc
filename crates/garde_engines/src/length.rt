//! The lengths of a value, by the unit that is counted.
pub mod bytes;
pub mod chars;
pub mod graphemes;
pub mod simple;
mod urls;
pub mod utf16;

pub use bytes::HasBytes;
pub use chars::HasChars;
pub use graphemes::HasGraphemes;
pub use simple::HasSimpleLength;
pub use utf16::HasUtf16CodeUnits;
