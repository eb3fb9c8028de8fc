//! Reads that report at most so many faults of form and of rules.

use super::long_text::Long;
use super::{OrEnd, is_text};
use garde::fields::Is;
use garde::{DefaultI18n, length, range};
use garde_schema::{
    Closed, FirstReadError, List, Member, Object, Scratch, Text, U8, Whole, read_json_first,
};
use std::alloc::{AllocError, Global};
use std::process::Abort;

// What the bytes are as a name and a list of ages, or at most so many of their faults.
fn told(alloc: Global, bytes: &[u8], most: usize) -> Result<String, AllocError> {
    let form = Object(Closed((
        Member("name", Text(Is(length!(min = 2)))),
        Member("ages", List(Whole(U8, Is(range!(min = 18))))),
    )));
    let mut scratch = Scratch::new(alloc);
    match read_json_first(alloc, bytes, &mut scratch, &form, most, &DefaultI18n) {
        Ok((name, ages)) => format!(in alloc; "{} {:?}", name.text(), ages.as_slice()),
        Err(FirstReadError::All(report)) => format!(in alloc; "all\n{report}"),
        Err(error) => error.to_string(alloc),
    }
}

// A body of the name "a", two ages that are none, and an unknown member: four faults.
const FOUR: &str = "{\"name\":\"a\",\"x\":0,\"ages\":[17,true,18]}";

// A body, how many faults are wanted at most, and what is told.
static READS: [(Long, usize, &str); 11] = [
    (
        Long::Text("{\"name\":\"Ada\",\"ages\":[18,19]}"),
        0,
        "Ada [18, 19]",
    ),
    (
        Long::Text("{\"name\":\"Ada\",\"ages\":[]}"),
        usize::MAX,
        "Ada []",
    ),
    (Long::Text(FOUR), 0, "there are more\n"),
    (
        Long::Text(FOUR),
        1,
        "name: length is lower than 2\nthere are more\n",
    ),
    (
        Long::Text(FOUR),
        3,
        "name: length is lower than 2\nages[0]: lower than 18\nages[1]: not a whole number\nthere are more\n",
    ),
    (
        Long::Text(FOUR),
        4,
        "all\nname: length is lower than 2\nages[0]: lower than 18\nages[1]: not a whole number\nx: not known here\n",
    ),
    (
        Long::Text(FOUR),
        5,
        "all\nname: length is lower than 2\nages[0]: lower than 18\nages[1]: not a whole number\nx: not known here\n",
    ),
    (
        Long::Text(FOUR),
        usize::MAX,
        "all\nname: length is lower than 2\nages[0]: lower than 18\nages[1]: not a whole number\nx: not known here\n",
    ),
    (Long::Text("[]"), 1, "all\nnot an object\n"),
    (
        Long::Text("{\"name\":Ada}"),
        1,
        "not JSON at line 1 column 9",
    ),
    (
        Long::Repeated(
            "{\"name\":\"Ada\",\"ages\":[0",
            (9_999, ",0"),
            "]}",
            (0, ""),
            "",
        ),
        9,
        "ages[0]: lower than 18\nages[1]: lower than 18\nages[2]: lower than 18\nages[3]: lower than 18\nages[4]: lower than 18\nages[5]: lower than 18\nages[6]: lower than 18\nages[7]: lower than 18\nages[8]: lower than 18\nthere are more\n",
    ),
];

// Whether this is told of a body where at most so many faults are wanted.
fn is_told(rt: &impl Abort, alloc: Global, body: &Long, most: usize, expected: &str) -> bool {
    let body = body.text(alloc).or_end(rt);
    is_text(told(alloc, body.as_str().as_bytes(), most), expected)
}

#[test]
fn tells_at_most_so_many_faults(rt: HostRuntime) {
    for (row, (body, most, expected)) in READS.iter().enumerate() {
        assert!(rt;
            is_told(&rt, rt.alloc(), body, *most, expected),
            "row {row}"
        );
    }
}

// What at most one fault of the bytes prints as all of them.
fn told_whole(alloc: Global, bytes: &[u8]) -> Result<String, AllocError> {
    let mut scratch = Scratch::new(alloc);
    let form = List(Whole(U8, ()));
    match read_json_first(alloc, bytes, &mut scratch, &form, 1, &DefaultI18n) {
        Ok(numbers) => format!(in alloc; "{:?}", numbers.as_slice()),
        Err(error) => format!(in alloc; "{}", error.into_whole()),
    }
}

// A body, and what is told.
static WHOLES: [(&str, &str); 4] = [
    ("[1]", "[1]"),
    ("[1,true]", "[1]: not a whole number\n"),
    ("[true,1,true]", "[0]: not a whole number\n"),
    ("[1,]", "not JSON at line 1 column 4"),
];

#[test]
fn tells_an_error_as_one_of_a_read_that_asks_for_all_faults(rt: HostRuntime) {
    for (body, text) in &WHOLES {
        assert!(rt; is_text(told_whole(rt.alloc(), body.as_bytes()), text));
    }
}
