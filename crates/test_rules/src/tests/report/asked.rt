//! What words of a command line ask for, and the lines of faults under the name of their file.

use crate::tests::report::samples::{places_in_lines, report_of};
use crate::tests::{OrEnd, is_text};
use garde_command::{Asked, Spoken, Word, parted};
use garde_places::{Format, Place, Printed, faults_of, listed_faults_of, stop_of_utf8};
use garde_report::{Path, Report};
use garde_tape::without_mark;
use std::alloc::Global;
use std::process::Abort;

/// What words ask for: a file, and the format and the name in what is printed.
type Answer = (Option<&'static str>, Option<(Format, &'static str)>);

/// Words, and what they ask for: nothing where they cannot be followed.
static ASKED: [(&[&str], Option<Answer>); 14] = [
    (&[], Some((None, None))),
    (&["-"], Some((None, Some((Format::Short, "<stdin>"))))),
    (&["a"], Some((Some("a"), Some((Format::Short, "a"))))),
    (
        &["./20"],
        Some((Some("./20"), Some((Format::Short, "./20")))),
    ),
    (&["--format", "plain"], Some((None, None))),
    (&["--format", "plain", "a"], Some((Some("a"), None))),
    (
        &["a", "--format", "json"],
        Some((Some("a"), Some((Format::Json, "a")))),
    ),
    (
        &["--format", "github"],
        Some((None, Some((Format::GitHub, "<stdin>")))),
    ),
    (
        &["--format", "short", "json"],
        Some((Some("json"), Some((Format::Short, "json")))),
    ),
    (&["--format"], None),
    (&["--format", "xml"], None),
    (&["--format", "-"], None),
    (&["--format", "json", "--format", "json"], None),
    (&["-", "a"], None),
];

// The words of a command line with two options.
fn words_of(rt: &impl Abort, alloc: Global, texts: &[&str]) -> Vec<Word> {
    let mut owned = Vec::new(alloc);
    for text in texts {
        let text = String::from_str(alloc, text).or_end(rt);
        owned.push(text).or_end(rt);
    }
    parted(alloc, owned, &["--format", "--language"]).or_end(rt)
}

// What words ask for, if all of them are taken.
fn asked_by<'w>(words: &'w [Word]) -> Option<Asked<'w>> {
    let mut asked = Asked::new();
    for word in words {
        if asked.take(word) != Ok(true) {
            return None;
        }
    }
    Some(asked)
}

// Whether faults are printed in this format and under this name.
fn is_printed(printed: Option<Printed<'_>>, wanted: Option<(Format, &str)>) -> bool {
    match (printed, wanted) {
        (Some(it), Some((format, file))) => it.format == format && it.file == file,
        (None, None) => true,
        _ => false,
    }
}

// Whether words ask for this.
fn ask_for(words: &[Word], wanted: Option<Answer>) -> bool {
    match (asked_by(words), wanted) {
        (Some(asked), Some((file, printed))) => {
            asked.file() == file && is_printed(asked.printed(), printed)
        }
        (None, None) => true,
        _ => false,
    }
}

// Whether these are six words for the program itself, of which the last one has this value.
fn are_left(words: &[Word], value: &str) -> bool {
    for word in words {
        if Asked::new().take(word) != Ok(false) {
            return false;
        }
    }
    match words {
        [_, _, _, _, _, last] => last.value_or_empty() == value,
        _ => false,
    }
}

#[test]
fn words_ask_for_a_file_and_a_format(rt: HostRuntime) {
    let alloc = rt.alloc();
    for (words, wanted) in &ASKED {
        assert!(rt; ask_for(&words_of(&rt, alloc, words), *wanted));
    }
    let others = ["", "20", "-1", "--", "--help", "--language", "a"];
    assert!(rt; are_left(&words_of(&rt, alloc, &others), "a"));
}

/// Words, and the tag that they ask for: nothing where they cannot be followed.
static SPOKEN: [(&[&str], Option<Option<&str>>); 6] = [
    (&["-", "--", "de"], Some(None)),
    (&["20", "--language", "de-AT"], Some(Some("de-AT"))),
    (&["--language"], Some(Some(""))),
    (&["--language", "--language"], Some(Some("--language"))),
    (&["--format", "--language", "de"], Some(None)),
    (&["--language", "de", "--language"], None),
];

// The tag that words ask for, if they can be followed.
fn tag_by<'w>(words: &'w [Word]) -> Option<Option<&'w str>> {
    let mut spoken = Spoken::new();
    for word in words {
        if spoken.take(word).is_err() {
            return None;
        }
    }
    Some(spoken.tag)
}

#[test]
fn words_ask_for_a_language(rt: HostRuntime) {
    for (words, wanted) in &SPOKEN {
        assert!(rt; tag_by(&words_of(&rt, rt.alloc(), words)) == *wanted);
    }
}

/// A text whose members do not stand in the order of the faults.
const TEXT: &str = "{\"b\":1,\n\"a\":2}";

static FAULTS: [(&str, &str); 2] = [("a>", "lower"), ("b>", "higher")];

const FOR_PEOPLE: &str = "f:1:6: error: b: higher\nf:2:5: error: a: lower\n";

const FOR_PROGRAMS: &str = "\
{\"file\":\"f\",\"path\":\"a\",\"pointer\":\"/a\",\"line\":2,\"column\":5,\"detail\":\"lower\",\"code\":\"custom\",\"params\":{}}
{\"file\":\"f\",\"path\":\"b\",\"pointer\":\"/b\",\"line\":1,\"column\":6,\"detail\":\"higher\",\"code\":\"custom\",\"params\":{}}
";

// Whether the faults of a report of the text are printed so in a format.
fn print_as(alloc: Global, report: &Report, format: Format, text: &str) -> bool {
    match faults_of(alloc, TEXT, report) {
        Ok(mut faults) => {
            let printed = Printed { format, file: "f" };
            is_text(printed.lines(alloc, &mut faults), text)
        }
        Err(_) => false,
    }
}

// The line of the second fault, by a list of places whose lines count the tokens of the text.
fn listed_line(rt: &impl Abort, alloc: Global, report: &Report) -> Option<usize> {
    let places = places_in_lines(rt, alloc, 10, 16);
    match listed_faults_of(alloc, TEXT, places, report) {
        Ok(faults) => match faults.as_slice() {
            [_, second] => Some(second.place.line),
            _ => None,
        },
        Err(_) => None,
    }
}

#[test]
fn faults_are_sorted_for_people(rt: HostRuntime) {
    let alloc = rt.alloc();
    let report = report_of(&rt, alloc, &FAULTS);
    assert!(rt;
        print_as(alloc, &report, Format::Json, FOR_PROGRAMS)
            && print_as(alloc, &report, Format::Short, FOR_PEOPLE)
            && listed_line(&rt, alloc, &report) == Some(12)
    );
}

#[test]
fn a_fault_of_no_report_is_printed(rt: HostRuntime) {
    let printed = Printed {
        format: Format::GitHub,
        file: "f",
    };
    let place = Place { line: 2, column: 1 };
    let message = "\u{1f}not_csv\u{1f}50%\u{1f}";
    let line = printed.line(rt.alloc(), place, &Path::empty(), message);
    assert!(rt; is_text(line, "::error file=f,line=2,col=1::50%25\n"));
}

#[test]
fn bytes_stop_being_utf8(rt: HostRuntime) {
    match stop_of_utf8(b"a\n\xc3\xa4\xff") {
        Some(stop) => assert!(rt; stop.place == Place { line: 2, column: 2 }),
        None => rt.abort(),
    }
    assert!(rt; stop_of_utf8("\u{e4}".as_bytes()).is_none());
}

#[test]
fn a_byte_order_mark_is_left_out(rt: HostRuntime) {
    assert!(rt; without_mark(b"\xef\xbb\xbfa") == b"a".as_slice());
    assert!(rt; without_mark(b"\xef\xbb") == b"\xef\xbb".as_slice());
}
