//! What a valid value is known to have, and code that relies on it with no test.

pub mod basket;
pub mod bill;
pub mod level;
pub mod made;
pub mod page;
pub mod panel;
pub mod parcel;
pub mod seat;
pub mod tariff;
pub mod words;
