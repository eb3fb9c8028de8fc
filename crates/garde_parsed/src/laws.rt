//! The laws of the texts that are accepted.
//!
//! Each function does nothing. Its contract is the law, of every text and every value.
ghost use Rattle.garde_parsed.specs.Addresses.{Ipv4Law, Ipv6Law};
ghost use Rattle.garde_parsed.specs.Moments.{DateLaw, DateTimeLaw, TimeLaw, TimestampLaw};

/// `Ipv4` reads an address in a text exactly if the standard library's grammar says that the text
/// writes this address.
pub fn ipv4_addresses()
    ensures { Ipv4Law }
{}

/// `Ipv6` reads an address in a text exactly if the standard library's grammar says that the text
/// writes this address.
pub fn ipv6_addresses()
    ensures { Ipv6Law }
{}

/// `Date` reads a date in a text exactly if the grammar of `jiff` reads its parts there.
pub fn dates()
    ensures { DateLaw }
{}

/// `Time` reads a time of day in a text exactly if the grammar of `jiff` reads its parts there.
pub fn times()
    ensures { TimeLaw }
{}

/// `DateTime` reads a date and a time of day in a text exactly if the grammar of `jiff` reads their
/// parts there.
pub fn date_times()
    ensures { DateTimeLaw }
{}

/// `Timestamp` reads a timestamp in a text exactly if the grammar of `jiff` reads its nanoseconds
/// there.
pub fn timestamps()
    ensures { TimestampLaw }
{}
