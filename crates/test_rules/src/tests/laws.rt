//! The laws of paths and of addresses, called.
use garde_engines::laws::addresses;
use garde_report::laws::plain_paths;

#[test]
fn the_law_of_plain_paths_is_called(_rt: HostRuntime) {
    plain_paths();
}

#[test]
fn the_law_of_addresses_is_called(_rt: HostRuntime) {
    addresses();
}
