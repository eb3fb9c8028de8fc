//! Where in a TOML text the tokens of its JSON stand, beside places that were counted by hand.

use garde_toml::{TomlError, toml_to_json, toml_to_json_with_places};
use std::alloc::Global;
use std::process::Abort;

/// A byte order mark, dotted keys, headers, an array of tables, CR LF, comments, texts over lines, and
/// bare values.
const SETTINGS: &str =
    "\u{feff}name = \"k\u{e4}se\" # a name\r\nlimits . most = 1\n[[route]]\npath = '''\n'''\n[ route.'a b' ]\nx = [1,\n inf]\n[[route]]\n[server]\ntls = { cert = 1979-05-27, key = {} }\n";

/// What it is in JSON, with the keys of each table in their order.
const JSON: &str =
    "{\"limits\":{\"most\":1},\"name\":\"k\u{e4}se\",\"route\":[{\"a b\":{\"x\":[1,[-0,\"inf\"]]},\"path\":\"\"},{}],\"server\":{\"tls\":{\"cert\":[-0,\"1979-05-27\"],\"key\":{}}}}";

/// The line and the column of each of its tokens.
static PLACES: [(usize, usize); 43] = [
    (1, 1),
    (2, 1),
    (2, 1),
    (2, 10),
    (2, 17),
    (2, 1),
    (1, 1),
    (1, 8),
    (3, 3),
    (3, 1),
    (3, 1),
    (6, 9),
    (6, 1),
    (7, 1),
    (7, 5),
    (7, 6),
    (8, 2),
    (8, 2),
    (8, 2),
    (8, 2),
    (7, 5),
    (6, 1),
    (4, 1),
    (4, 8),
    (3, 1),
    (9, 1),
    (9, 1),
    (3, 1),
    (10, 2),
    (10, 1),
    (11, 1),
    (11, 7),
    (11, 9),
    (11, 16),
    (11, 16),
    (11, 16),
    (11, 16),
    (11, 28),
    (11, 34),
    (11, 34),
    (11, 7),
    (10, 1),
    (1, 1),
];

// Whether the tokens of the settings have these places.
fn stands(rt: &impl Abort, alloc: Global, places: &[(usize, usize)]) -> bool {
    let Ok(placed) = toml_to_json_with_places(alloc, SETTINGS) else {
        rt.abort()
    };
    if placed.json.as_str() != JSON || placed.places.len() != places.len() {
        return false;
    }
    for (index, place) in placed.places.iter().enumerate() {
        if places.get(index) != Some(&(place.line, place.column)) {
            return false;
        }
    }
    true
}

#[test]
fn tokens_stand_where_they_are_counted(rt: HostRuntime) {
    assert!(rt; stands(&rt, rt.alloc(), &PLACES) && TomlError::TooDeep.stop("").is_none());
}

/// A text that is no TOML, the line and the column where it stops, and why.
static STOPS: [(&str, usize, usize, &str); 3] = [
    (
        "\u{feff}[server]\n\u{e4}",
        2,
        1,
        "invalid key, expected letters, numbers, `-`, `_` or a quoted key",
    ),
    ("\u{feff}a 1", 1, 4, "key with no value, expected `=`"),
    ("a = '\u{e4}\u{1f600}", 1, 8, "invalid string"),
];

// Whether a text stops there.
fn stops(alloc: Global, row: &(&str, usize, usize, &str)) -> bool {
    let Err(error) = toml_to_json(alloc, row.0) else {
        return false;
    };
    match error.stop(row.0) {
        Some(stop) => {
            (stop.place.line, stop.place.column) == (row.1, row.2) && stop.why == row.3
        }
        None => false,
    }
}

#[test]
fn texts_stop_where_they_are_counted(rt: HostRuntime) {
    for row in &STOPS {
        assert!(rt; stops(rt.alloc(), row));
    }
}
