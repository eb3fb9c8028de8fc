//! Texts of the layouts of RFC 3339, and addresses of either version: the value of each, or the whole
//! report.

const NO_DATE: &str = "not a date\n";

const NO_TIME: &str = "not a time\n";

const NO_BOTH: &str = "not a date and time\n";

const NO_TIMESTAMP: &str = "not a timestamp\n";

// `full-date` of RFC 3339, section 5.6; and other texts that `jiff` reads.
pub(super) static DATES: [(&str, &str); 5] = [
    ("2026-11-25", "2026-11-25"),
    ("20261125", NO_DATE),
    ("2026-11-25T22:15:30", NO_DATE),
    ("2026-02-30", NO_DATE),
    ("2026-11-2x", NO_DATE),
];

// `partial-time` of RFC 3339, also without seconds; and other texts that `jiff` reads.
pub(super) static TIMES: [(&str, &str); 8] = [
    ("23:20:50.52", "23:20:50.52"),
    ("23:20:50", "23:20:50"),
    ("23:20", "23:20:00"),
    ("23:59:60", NO_TIME),
    ("T1130", NO_TIME),
    ("23:20:50,5", NO_TIME),
    ("23:20:50+01:00", NO_TIME),
    ("29:00", NO_TIME),
];

// A date and a time behind `T`; and other texts that `jiff` reads.
pub(super) static DATE_TIMES: [(&str, &str); 5] = [
    ("2026-11-25T22:15:30.5", "2026-11-25T22:15:30.5"),
    ("2026-11-25T22:15", NO_BOTH),
    ("2026-11-25 22:15:30", NO_BOTH),
    ("2026-11-25", NO_BOTH),
    ("2026-11-25T22:15:30+01:00", NO_BOTH),
];

// `date-time` of RFC 3339, in capitals; and other texts that `jiff` reads.
pub(super) static TIMESTAMPS: [(&str, &str); 9] = [
    ("1996-12-19T16:39:57-08:00", "1996-12-20T00:39:57Z"),
    ("1985-04-12T23:20:50.52Z", "1985-04-12T23:20:50.52Z"),
    ("1985-04-12T23:20:50+23:59", "1985-04-11T23:21:50Z"),
    ("1985-04-12T23:20:50+24:00", NO_TIMESTAMP),
    ("1990-12-31T23:59:60Z", NO_TIMESTAMP),
    ("1985-04-12t23:20:50z", NO_TIMESTAMP),
    ("1985-04-12 23:20:50Z", NO_TIMESTAMP),
    ("1985-04-12T23:20Z", NO_TIMESTAMP),
    ("1985-04-12T23:20:50Z[UTC]", NO_TIMESTAMP),
];

// What `jiff` reads as a date.
pub(super) static ANY: [(&str, &str); 2] = [
    ("20261125", "2026-11-25"),
    ("2026-11-25T22:15:30", "2026-11-25"),
];

// Addresses of either version, and texts that are none.
pub(super) static ADDRESSES: [(&str, &str); 4] = [
    ("192.0.2.1", "192.0.2.1"),
    ("2001:DB8::1", "2001:db8::1"),
    ("localhost", "not an IPv4 address\n"),
    ("12345::", "not an IPv6 address\n"),
];
