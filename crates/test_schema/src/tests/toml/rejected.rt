//! Texts that are not turned into JSON: what the error prints of each.

use crate::tests::long_text::Long;
use garde_toml::{TomlError, toml_to_json};
use std::alloc::{AllocError, Global};

// Whether a text was printed, and its first line is this.
fn begins(printed: Result<String, AllocError>, line: &str) -> bool {
    match printed {
        Ok(printed) => printed.as_str().lines().next() == Some(line),
        Err(_) => false,
    }
}

// Whether a text is rejected, and this is printed of it, up to the first line feed.
fn is_rejected(alloc: Global, text: &Long, line: &str) -> bool {
    match text.text(alloc) {
        Ok(text) => match toml_to_json(alloc, text.as_str()) {
            Ok(_) => false,
            Err(error) => begins(error.to_string(alloc), line),
        },
        Err(_) => false,
    }
}

static PLACES: [(Long, &str); 11] = [
    (
        Long::Text("[server]\nport 80"),
        "TOML parse error at line 2, column 6",
    ),
    (
        Long::Text("a = 1\na = 2"),
        "TOML parse error at line 2, column 1",
    ),
    (
        Long::Text("a.b = 1\n[a]\n"),
        "TOML parse error at line 2, column 1",
    ),
    (
        Long::Text("a = 2023-02-29"),
        "TOML parse error at line 1, column 5",
    ),
    (
        Long::Text("a = 24:00:00"),
        "TOML parse error at line 1, column 5",
    ),
    (
        Long::Text("a = 9223372036854775808"),
        "TOML parse error at line 1, column 5",
    ),
    (
        Long::Text("a = 007"),
        "TOML parse error at line 1, column 5",
    ),
    (Long::Text("a = 'b"), "TOML parse error at line 1, column 7"),
    (
        Long::Text("a = [1, 2"),
        "TOML parse error at line 1, column 10",
    ),
    (
        Long::Text("{\"a\": 1}"),
        "TOML parse error at line 1, column 1",
    ),
    (
        Long::Repeated("[", (79, "a."), "a]\n", (48, "b."), "b = 1\n"),
        "tables and arrays nest deeper than 128",
    ),
];

#[test]
fn tells_the_line_and_the_column(rt: HostRuntime) {
    for (row, (text, line)) in PLACES.iter().enumerate() {
        assert!(rt; is_rejected(rt.alloc(), text, line), "row {row}");
    }
}

// A table below eighty tables, with tables below it, and a value there. The root, eighty tables of the
// header, and those of the key make 128 levels with 47. A date, a time, `nan` and `inf` count as one more.
static LEVELS: [(Long, bool); 8] = [
    (
        Long::Repeated("[", (79, "a."), "a]\n", (47, "b."), "b = 1\n"),
        true,
    ),
    (
        Long::Repeated("[", (79, "a."), "a]\n", (48, "b."), "b = 1\n"),
        false,
    ),
    (
        Long::Repeated("[", (79, "a."), "a]\n", (46, "b."), "b = 1979-05-27\n"),
        true,
    ),
    (
        Long::Repeated("[", (79, "a."), "a]\n", (47, "b."), "b = 1979-05-27\n"),
        false,
    ),
    (
        Long::Repeated("[", (79, "a."), "a]\n", (46, "b."), "b = inf\n"),
        true,
    ),
    (
        Long::Repeated("[", (79, "a."), "a]\n", (47, "b."), "b = -nan\n"),
        false,
    ),
    (
        Long::Repeated("[", (79, "a."), "a]\n", (46, "b."), "b = [1.5]\n"),
        true,
    ),
    (
        Long::Repeated("[", (79, "a."), "a]\n", (46, "b."), "b = [07:32:00]\n"),
        false,
    ),
];

// Whether a text is taken, or else nests too deep.
fn is_taken(alloc: Global, text: &Long) -> Option<bool> {
    match text.text(alloc) {
        Ok(text) => match toml_to_json(alloc, text.as_str()) {
            Ok(_) => Some(true),
            Err(TomlError::TooDeep) => Some(false),
            Err(_) => None,
        },
        Err(_) => None,
    }
}

#[test]
fn rejects_more_than_128_levels(rt: HostRuntime) {
    for (row, (text, takes)) in LEVELS.iter().enumerate() {
        assert!(rt; is_taken(rt.alloc(), text) == Some(*takes), "row {row}");
    }
}
