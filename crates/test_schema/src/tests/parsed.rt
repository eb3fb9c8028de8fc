//! Texts that are parsed.

mod addresses;
mod booking;
mod clocks;
mod dates;
mod layouts;
mod texts;
mod urls;
mod uuids;
