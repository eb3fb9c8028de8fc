//! Laws of lengths and of addresses.
ghost use Rattle.garde_engines.specs.Counts.{UnitsLaw};
ghost use Rattle.garde_engines.specs.IpText.{AddressesLaw};

/// A text has no more characters than code units of UTF-16, and no more of these than bytes.
///
/// The function does nothing. Its contract is this law, of every text.
pub fn units()
    ensures { UnitsLaw }
{}

/// The test of a text by its cuts, which the contracts of the rule `ip` cite, is true exactly of the
/// addresses of the grammar, of every kind.
///
/// The function does nothing. Its contract is this law, of every kind and text.
pub fn addresses()
    ensures { AddressesLaw }
{}
