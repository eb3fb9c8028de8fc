//! Parsers of texts by the toolchain's crates, for `Parsed` of `garde_form`: addresses, UUIDs, dates
//! and times; and for `ParsedInMemory`: URLs.
#![tactic(auto)]

mod in_text;
mod ip_addresses;
pub mod laws;
mod layout;
mod moments;
mod parse_in_memory;
mod parsed_in_memory;
mod urls;
mod uuids;

pub use in_text::InText;
pub use ip_addresses::{Ip, Ipv4, Ipv6};
pub use layout::Layout;
pub use moments::{Date, DateTime, Time, Timestamp};
pub use parse_in_memory::ParseInMemory;
pub use parsed_in_memory::ParsedInMemory;
pub use urls::Url;
pub use uuids::Uuid;
