//! Reports that are read from a text with no tree of `serde_json`.

use crate::tests::OrEnd;
use crate::tests::report::samples::{append, path_of, path_to};
use crate::tests::report::written::{is_answer, is_read_back};
use garde_json::{report_from_json_text, report_from_tree, report_to_json_text};
use garde_report::Report;
use garde_tape::{Scratch, Tree, parse};
use std::alloc::Global;
use std::process::Abort;

/// The path of a key, and of another one with more bytes than lie in a node.
const LIST: &str = "list>a key that has more bytes than lie in a node>";

const LONG: &str =
    "a message that has more bytes than lie in an error, and \u{e9}, \", \\ and \u{1f}";

// Adds two faults: one at a short path and one at a long one, with texts that lie on the heap.
fn add_faults(rt: &impl Abort, alloc: Global, report: &mut Report, index: usize) {
    let list = path_of(rt, alloc, LIST);
    append(rt, alloc, report, list.join(alloc, index).or_end(rt), LONG);
    append(rt, alloc, report, path_to(rt, alloc, index % 40), "short");
}

// Whether the text of a report is rejected without its last brace, and with a value behind it.
fn is_refused_at_its_end(rt: &impl Abort, alloc: Global, report: &Report) -> bool {
    let mut text = report_to_json_text(alloc, report).or_end(rt);
    let cut = text.as_str().strip_suffix("}").unwrap_or("{\"errors\":[]}");
    let is_refused = is_answer(rt, alloc, report_from_json_text(alloc, cut), None);
    text.push_str("[]").or_end(rt);
    is_refused && is_answer(rt, alloc, report_from_json_text(alloc, text.as_str()), None)
}

/// Texts that are no JSON, and texts of reports with a member twice.
static NO_JSON: [&str; 17] = [
    "",
    " ",
    "{",
    "{\"errors\":[]",
    "{\"errors\":[]}}",
    "{\"errors\":[]} []",
    "{\"errors\":[],}",
    "{errors:[]}",
    "{'errors':[]}",
    "\u{feff}{\"errors\":[]}",
    "{\"errors\":[[[],{\"message\":\"\\ud800\"}]]}",
    "{\"errors\":[[[],{\"message\":\"\\x\"}]]}",
    "{\"errors\":[[[],{\"message\":\"a\nb\"}]]}",
    "{\"errors\":[],\"errors\":[]}",
    "{\"errors\":[],\"\\u0065rrors\":[]}",
    "{\"errors\":[[[],{\"message\":\"x\",\"message\":\"x\"}]]}",
    "{\"errors\":[[[],{\"message\":1,\"message\":\"x\"}]]}",
];

#[test]
fn what_is_no_json_is_refused(rt: HostRuntime) {
    let alloc = rt.alloc();
    for text in &NO_JSON {
        let read = report_from_json_text(alloc, text);
        assert!(rt; is_answer(&rt, alloc, read, None), "at {text}");
    }
}

#[test]
fn ten_thousand_faults_are_read_back(rt: HostRuntime) {
    let mut report = Report::new(rt.alloc());
    for index in 0..5000usize {
        add_faults(&rt, rt.alloc(), &mut report, index);
    }
    assert!(rt;
        report.len() == 10_000
            && is_read_back(&rt, rt.alloc(), &report)
            && is_refused_at_its_end(&rt, rt.alloc(), &report)
    );
}

/// The text of a report, and its lines.
static IN_TURN: [(&str, &str); 3] = [
    ("{\"errors\":[]}", ""),
    (
        "{\"errors\":[[[[\"key\",\"a\\tb\"]],{\"message\":\"c\\u0064\"}]]}",
        "a\tb: cd\n",
    ),
    ("{\"errors\":[[[],{\"message\":\"x\"}]]}", "x\n"),
];

#[test]
fn one_scratch_serves_many_texts(rt: HostRuntime) {
    let mut scratch = Scratch::new(rt.alloc());
    for (text, lines) in &IN_TURN {
        let tape = parse(rt.alloc(), text, &mut scratch).or_end(&rt);
        let read = report_from_tree(rt.alloc(), &Tree::root(&tape));
        assert!(rt; is_answer(&rt, rt.alloc(), read, Some(lines)), "at {text}");
    }
}
