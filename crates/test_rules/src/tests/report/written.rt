//! Reports that are written in JSON and read back, by trees and by texts.

use crate::tests::{OrEnd, has_text, is_text};
use garde_json::{
    JsonRefused, report_from_json, report_from_json_text, report_to_json, report_to_json_text,
};
use garde_report::Report;
use serde_json::Value;
use std::alloc::Global;
use std::process::Abort;

/// Whether a report was read, and has the faults of this one.
fn is_report(read: Result<Report, JsonRefused>, report: &Report) -> bool {
    match read {
        Ok(read) => read.iter().eq(report.iter()),
        Err(_) => false,
    }
}

/// Whether a report was read that prints these lines, or the form was rejected where there are none.
pub fn is_answer(
    rt: &impl Abort,
    alloc: Global,
    read: Result<Report, JsonRefused>,
    wanted: Option<&str>,
) -> bool {
    match (read, wanted) {
        (Ok(read), Some(lines)) => has_text(rt, alloc, &read, lines),
        (Err(JsonRefused::Form), None) => true,
        _ => false,
    }
}

/// Whether this is read from a text, and from the tree of the text.
pub fn is_read(rt: &impl Abort, alloc: Global, text: &str, wanted: Option<&str>) -> bool {
    let tree = Value::from_str(alloc, text).or_end(rt);
    is_answer(rt, alloc, report_from_json(alloc, &tree), wanted)
        && is_answer(rt, alloc, report_from_json_text(alloc, text), wanted)
}

/// Whether the tree of a report is written as this text, and the report is read back from it.
fn has_tree(rt: &impl Abort, alloc: Global, report: &Report, text: &str) -> bool {
    let tree = report_to_json(alloc, report).or_end(rt);
    is_report(report_from_json(alloc, &tree), report) && is_text(tree.to_string(alloc), text)
}

/// Whether both writers give this text of a report, and each reader the report again: from its tree, from
/// the text, and from the tree of the text.
pub fn is_there_and_back(rt: &impl Abort, alloc: Global, report: &Report, text: &str) -> bool {
    let tree = Value::from_str(alloc, text).or_end(rt);
    is_report(report_from_json(alloc, &tree), report)
        && is_report(report_from_json_text(alloc, text), report)
        && has_tree(rt, alloc, report, text)
        && is_text(report_to_json_text(alloc, report), text)
}

/// Whether each reader gives a report of its text again, which is that of its tree.
pub fn is_read_back(rt: &impl Abort, alloc: Global, report: &Report) -> bool {
    let text = report_to_json_text(alloc, report).or_end(rt);
    is_there_and_back(rt, alloc, report, text.as_str())
}
