//! UUIDs: the value of each text, or the whole report.

const NO_UUID: &str = "not a UUID\n";

const ONE: &str = "f81d4fae-7dec-11d0-a765-00a0c91e6bf6";

// The texts of RFC 9562, sections 4 and 5 and appendix A, the other forms of one of
// them, and texts that are none.
pub(super) static UUIDS: [(&str, &str); 24] = [
    (ONE, ONE),
    ("urn:uuid:f81d4fae-7dec-11d0-a765-00a0c91e6bf6", ONE),
    ("URN:UUID:F81D4FAE-7DEC-11D0-A765-00A0C91E6BF6", ONE),
    ("{f81d4fae-7dec-11d0-a765-00a0c91e6bf6}", ONE),
    ("f81d4fae7dec11d0a76500a0c91e6bf6", ONE),
    (
        "00000000-0000-0000-0000-000000000000",
        "00000000-0000-0000-0000-000000000000",
    ),
    (
        "FFFFFFFF-FFFF-FFFF-FFFF-FFFFFFFFFFFF",
        "ffffffff-ffff-ffff-ffff-ffffffffffff",
    ),
    (
        "C232AB00-9414-11EC-B3C8-9F6BDECED846",
        "c232ab00-9414-11ec-b3c8-9f6bdeced846",
    ),
    (
        "919108f7-52d1-4320-9bac-f847db4148a8",
        "919108f7-52d1-4320-9bac-f847db4148a8",
    ),
    (
        "017F22E2-79B0-7CC3-98C4-DC0C0C07398F",
        "017f22e2-79b0-7cc3-98c4-dc0c0c07398f",
    ),
    ("", NO_UUID),
    ("f81d4fae-7dec-11d0-a765-00a0c91e6bf", NO_UUID),
    ("f81d4fae-7dec-11d0-a765-00a0c91e6bf66", NO_UUID),
    ("g81d4fae-7dec-11d0-a765-00a0c91e6bf6", NO_UUID),
    ("f81d4fae-7dec-11d0-a76500a0c91e6bf6", NO_UUID),
    ("f81d-4fae-7dec-11d0-a765-00a0c91e6bf6", NO_UUID),
    ("f81d4fae7-dec-11d0-a765-00a0c91e6bf6", NO_UUID),
    ("f81d4fae_7dec_11d0_a765_00a0c91e6bf6", NO_UUID),
    ("{f81d4fae-7dec-11d0-a765-00a0c91e6bf6", NO_UUID),
    ("(f81d4fae-7dec-11d0-a765-00a0c91e6bf6)", NO_UUID),
    ("urn:uuid:f81d4fae7dec11d0a76500a0c91e6bf6", NO_UUID),
    ("urn:uid::f81d4fae-7dec-11d0-a765-00a0c91e6bf6", NO_UUID),
    (" f81d4fae-7dec-11d0-a765-00a0c91e6bf6", NO_UUID),
    ("f81d4fae-7dec-11d0-a765-00a0c91e6b\u{e9}", NO_UUID),
];
