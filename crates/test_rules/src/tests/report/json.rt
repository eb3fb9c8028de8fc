//! Written forms, and trees that are none.

use crate::tests::report::samples::{path_of, report_of};
use crate::tests::report::written::{is_read, is_there_and_back};
use crate::tests::{OrEnd, is_text};
use garde_json::{JsonRefused, first_to_json_text, path_from_json, path_to_json};
use garde_report::{Path, Report};
use serde_json::Value;
use std::alloc::Global;
use std::process::Abort;

// Whether a path is written as this text, and is read back from its tree.
fn is_path_there_and_back(rt: &impl Abort, alloc: Global, path: &Path, text: &str) -> bool {
    let tree = path_to_json(alloc, path).or_end(rt);
    match path_from_json(alloc, &tree) {
        Ok(read) => read == *path && is_text(tree.to_string(alloc), text),
        Err(_) => false,
    }
}

#[test]
fn a_path_is_written_and_read_back(rt: HostRuntime) {
    let alloc = rt.alloc();
    let text = r#"[["key","a"],["index","0"]]"#;
    let other = Value::from_str(alloc, r#"{"key":"a"}"#).or_end(&rt);
    assert!(rt;
        is_path_there_and_back(&rt, alloc, &path_of(&rt, alloc, "a>#0>"), text)
            && matches!(&path_from_json(alloc, &other), Err(JsonRefused::Form))
    );
}

/// The path and the message of each fault of a report, and the text of the report.
static WRITTEN: [(&[(&str, &str)], &str); 4] = [
    (&[], r#"{"errors":[]}"#),
    (
        &[("a>#0>", "lorem"), ("b>c>", "dolor")],
        r#"{"errors":[[[["key","a"],["index","0"]],{"message":"lorem"}],[[["key","b"],["key","c"]],{"message":"dolor"}]]}"#,
    ),
    (
        &[
            ("a>#0>", "lorem"),
            ("a>#1>", "ispum"),
            ("a>#2>", "dolor"),
            ("b>c>", "dolor"),
        ],
        r#"{"errors":[[[["key","a"],["index","0"]],{"message":"lorem"}],[[["key","a"],["index","1"]],{"message":"ispum"}],[[["key","a"],["index","2"]],{"message":"dolor"}],[[["key","b"],["key","c"]],{"message":"dolor"}]]}"#,
    ),
    (
        &[("#7>a\"b>", "not ASCII: \u{e9}\n"), ("?>", "x"), ("", "")],
        "{\"errors\":[[[[\"index\",\"7\"],[\"key\",\"a\\\"b\"]],{\"message\":\"not ASCII: \u{e9}\\n\"}],[[[\"none\",\"\"]],{\"message\":\"x\"}],[[],{\"message\":\"\"}]]}",
    ),
];

// Whether the text of the first faults of more is that of the report with one member more, and no
// report is read in it.
fn says_more(rt: &impl Abort, alloc: Global, report: &Report, text: &str) -> bool {
    let written = first_to_json_text(alloc, report).or_end(rt);
    let whole = text.strip_suffix("}").unwrap_or(text);
    match written.as_str().strip_prefix(whole) {
        Some(more) => more == ",\"more\":true}" && is_read(rt, alloc, written.as_str(), None),
        None => false,
    }
}

#[test]
fn a_report_is_written_and_read_back(rt: HostRuntime) {
    for (faults, text) in &WRITTEN {
        let report = report_of(&rt, rt.alloc(), faults);
        assert!(rt;
            is_there_and_back(&rt, rt.alloc(), &report, text)
                && says_more(&rt, rt.alloc(), &report, text)
        );
    }
}

/// JSON texts, and the lines of the report that is read in each, or none.
static READ: [(&str, Option<&str>); 23] = [
    ("null", None),
    ("{}", None),
    ("[[]]", None),
    (r#"{"errors":{}}"#, None),
    (
        r#"{"errors":[[[["key","a"],["index","0"]],{"message":"lorem"}],[[["key","b"],["key","c"]],{"message":"dolor"}]],"count":2}"#,
        None,
    ),
    (r#"{"errors":[[]]}"#, None),
    (r#"{"errors":[[[],{"message":"x"},"y"]]}"#, None),
    (r#"{"errors":[[[],{"message":1}]]}"#, None),
    (r#"{"errors":[[[],{"message":1.5}]]}"#, None),
    (r#"{"errors":[[[["key"]],{"message":"x"}]]}"#, None),
    (r#"{"errors":[[[["none","",""]],{"message":"x"}]]}"#, None),
    (
        r#"{"errors":[[[["Key","a"],["index","0"]],{"message":"lorem"}],[[["key","b"],["key","c"]],{"message":"dolor"}]]}"#,
        None,
    ),
    (r#"{"errors":[[[["Index","0"]],{"message":"x"}]]}"#, None),
    (
        r#"{"errors":[[[["key","a"],["index",0]],{"message":"lorem"}],[[["key","b"],["key","c"]],{"message":"dolor"}]]}"#,
        None,
    ),
    (r#"{"errors":[[[{"key":"a"}],{"message":"x"}]]}"#, None),
    (r#"{"errors":[[[],{"message":"x","code":"y"}]]}"#, None),
    // Any text stands with any kind.
    (r#"{"errors":[[[],{"message":""}]]}"#, Some("\n")),
    (
        r#"{"errors":[[[["none","a.b"]],{"message":"x"}]]}"#,
        Some("a.b: x\n"),
    ),
    (
        r#"{"errors":[[[["index","b"],["key",""]],{"message":"x"}]]}"#,
        Some("[b].: x\n"),
    ),
    // Escapes and blanks.
    (
        r#"{"errors":[[[["key","a\"b\/\\"],["index","\u0037"]],{"message":"not ASCII: \u00e9\t."}]]}"#,
        Some("a\"b/\\[7]: not ASCII: \u{e9}\t.\n"),
    ),
    (
        r#"{"\u0065rrors":[[[["k\u0065y","\u0000"]],{"mess\u0061ge":"\ud83d\ude00"}]]}"#,
        Some("\0: \u{1f600}\n"),
    ),
    (
        " {\n\t\"errors\" : [ [ [ ] , { \"message\" : \" x \" } ] ] }\r\n",
        Some(" x \n"),
    ),
    (
        r#"{"errors":[[[["key","list"],["index","\u0031\u0030"],["key","a key of more bytes than lie in a node: \ud83d\udd11"],["index","18446744073709551616"],["key","e"],["key","f"],["key","\u0067"],["key","h"],["key","i"],["key","j\/k"],["index","11"],["key",""]],{"message":"a message of more bytes than lie in an error, \u0022\u005c\b\f\n\r\t\u0022 and \u00E9"}],[[["key","list"],["index","12"]],{"message":"as long as the one before it, \ud83d\ude00 and a \\ in it"}]]}"#,
        Some(
            "list[10].a key of more bytes than lie in a node: \u{1f511}[18446744073709551616].e.f.g.h.i.j/k[11].: a message of more bytes than lie in an error, \"\\\u{8}\u{c}\n\r\t\" and \u{e9}\nlist[12]: as long as the one before it, \u{1f600} and a \\ in it\n",
        ),
    ),
];

#[test]
fn every_other_tree_is_refused(rt: HostRuntime) {
    for (text, lines) in &READ {
        assert!(rt; is_read(&rt, rt.alloc(), text, *lines), "at {text}");
    }
}
