//! Reports and their written form, also where memory runs out.

use super::told::reads;
use garde::{Error, Path, Report};
use garde_json::{JsonRefused, report_from_json, report_from_json_text, report_to_json};
use serde_json::Value;
use std::alloc::{AllocError, Global};
use test_memory::{Met, Scarce};

/// A report of these messages at a key.
pub fn report_of(alloc: Global, key: &str, messages: &[&str]) -> Result<Report, AllocError> {
    let mut report = Report::new(alloc);
    for message in messages {
        report.append(Path::new(alloc, key)?, Error::new(alloc, message)?)?;
    }
    Ok(report)
}

/// Whether a report has these messages and no others.
pub fn has(report: &Report, messages: &[&str]) -> bool {
    let found = report.iter().map(|(_, error)| error.message());
    found.eq(messages.iter().copied())
}

/// The messages of a report.
const FOUR: &[&str] = &["v", "w", "x", "y"];

/// These messages, and one more.
const FIVE: &[&str] = &["v", "w", "x", "y", "z"];

/// A fault more in a report.
pub fn append(alloc: Global, memory: &mut Scarce) -> Result<Met, AllocError> {
    let mut report = report_of(alloc, "a", FOUR)?;
    let path = Path::new(alloc, "a")?;
    let error = Error::new(alloc, "z")?;
    memory.begin();
    let answer = report.append(path, error);
    memory.end();
    Ok(match answer {
        Ok(()) if has(&report, FIVE) => Met::Ample,
        Err(AllocError) if has(&report, FOUR) => Met::Want,
        _ => Met::Wrong,
    })
}

/// The copy of a report.
pub fn copy(alloc: Global, memory: &mut Scarce) -> Result<Met, AllocError> {
    let report = report_of(alloc, "a", FOUR)?;
    memory.begin();
    let answer: Result<Report, AllocError> = report.clone();
    memory.end();
    let stands = has(&report, FOUR);
    Ok(match answer {
        Ok(other) if stands && has(&other, FOUR) => Met::Ample,
        Err(AllocError) if stands => Met::Want,
        _ => Met::Wrong,
    })
}

/// A report as a tree.
const FORM: &str =
    r#"{"errors":[[[["key","a"]],{"message":"lorem"}],[[["key","a"]],{"message":"dolor"}]]}"#;

/// The tree of a report.
pub fn write(alloc: Global, memory: &mut Scarce) -> Result<Met, AllocError> {
    let report = report_of(alloc, "a", &["lorem", "dolor"])?;
    memory.begin();
    let answer = report_to_json(alloc, &report);
    memory.end();
    if !has(&report, &["lorem", "dolor"]) {
        return Ok(Met::Wrong);
    }
    match &answer {
        Ok(tree) => Ok(Met::Ample.when(reads(alloc, tree, FORM)?)),
        Err(AllocError) => Ok(Met::Want),
    }
}

// What the answer comes to that should be the report of a tree.
fn found(answer: Result<Report, JsonRefused>) -> Met {
    match answer {
        Ok(report) => Met::Ample.when(has(&report, &["lorem", "dolor"])),
        Err(JsonRefused::Memory) => Met::Want,
        Err(_) => Met::Wrong,
    }
}

/// The report of a tree.
pub fn read(alloc: Global, memory: &mut Scarce) -> Result<Met, AllocError> {
    let Ok(tree) = Value::from_str(alloc, FORM) else {
        return Err(AllocError);
    };
    memory.begin();
    let answer = report_from_json(alloc, &tree);
    memory.end();
    let met = found(answer);
    Ok(met.when(reads(alloc, &tree, FORM)?))
}

/// The report of the text of a tree.
pub fn read_text(alloc: Global, memory: &mut Scarce) -> Result<Met, AllocError> {
    memory.begin();
    let answer = report_from_json_text(alloc, FORM);
    memory.end();
    Ok(found(answer))
}
