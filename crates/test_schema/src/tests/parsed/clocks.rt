//! Times of day, and timestamps: the value of each text, or the whole report.

const NO_TIME: &str = "not a time\n";

// `partial-time` of RFC 3339, section 5.6; the other forms of ISO 8601 that `jiff` reads; and texts
// that are none, one of which is as well a month and a day.
pub(super) static TIMES: [(&str, &str); 20] = [
    ("23:20:50.52", "23:20:50.52"),
    ("00:00:00", "00:00:00"),
    ("23:59:59.999999999", "23:59:59.999999999"),
    ("23:59:60", "23:59:59"),
    ("23:20", "23:20:00"),
    ("t23:20", "23:20:00"),
    ("T1130", "11:30:00"),
    ("1985-04-12T23:20:50", "23:20:50"),
    ("23:20:50+01:00", "23:20:50"),
    ("1130", NO_TIME),
    ("24:00:00", NO_TIME),
    ("23:60", NO_TIME),
    ("23:20:61", NO_TIME),
    ("2:15", NO_TIME),
    ("23:20:50.1234567890", NO_TIME),
    ("23:20:50Z", NO_TIME),
    ("23.20", NO_TIME),
    ("11:20 pm", NO_TIME),
    ("1985-04-12", NO_TIME),
    ("", NO_TIME),
];

const NO_TIMESTAMP: &str = "not a timestamp\n";

// The five texts of RFC 3339, section 5.8, each with the moment that this section names (a leap
// second is the second before); and texts that are none.
pub(super) static TIMESTAMPS: [(&str, &str); 19] = [
    ("1985-04-12T23:20:50.52Z", "1985-04-12T23:20:50.52Z"),
    ("1996-12-19T16:39:57-08:00", "1996-12-20T00:39:57Z"),
    ("1990-12-31T23:59:60Z", "1990-12-31T23:59:59Z"),
    ("1990-12-31T15:59:60-08:00", "1990-12-31T23:59:59Z"),
    ("1937-01-01T12:00:27.87+00:20", "1937-01-01T11:40:27.87Z"),
    ("1985-04-12t23:20:50.52z", "1985-04-12T23:20:50.52Z"),
    ("1985-04-12 23:20:50Z", "1985-04-12T23:20:50Z"),
    ("1970-01-01T00:00:00-00:00", "1970-01-01T00:00:00Z"),
    ("1985-04-12T23:20:50.52", NO_TIMESTAMP),
    ("1985-04-12", NO_TIMESTAMP),
    ("1985-04-12Z", NO_TIMESTAMP),
    ("23:20:50Z", NO_TIMESTAMP),
    ("1985-02-29T00:00:00Z", NO_TIMESTAMP),
    ("1985-04-12T24:00:00Z", NO_TIMESTAMP),
    ("1985-04-12T23:20:50+1:00", NO_TIMESTAMP),
    ("1985-04-12T23:20:50+01:60", NO_TIMESTAMP),
    ("482196050", NO_TIMESTAMP),
    ("Fri, 12 Apr 1985 23:20:50 GMT", NO_TIMESTAMP),
    ("", NO_TIMESTAMP),
];
