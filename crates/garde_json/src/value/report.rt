//! Errors, faults and reports as JSON trees.
ghost use Rattle.std.specs.Prelude.{◌≡◌, ◌≢◌, List, IfOk, Err};
ghost use Rattle.serde_json.specs.View.{view};
ghost use Rattle.garde_json.specs.First.{entries_json};
ghost use Rattle.garde_json.specs.Form.{Reads};
ghost use Rattle.garde_json.specs.Json.{error_json, entry_json, report_json};
ghost use Rattle.garde_report.specs.Report.{Entry};
ghost use Rattle.garde_json.specs.declared.refused.JsonRefused.{JsonRefused};

use super::form::{pair, sole_member};
use super::path::{path_in, path_to_json};
use crate::JsonRefused;
use crate::read::{both, with_fault};
use garde_report::{Error, Path, Report};
use serde_json::{Value, json};
use std::alloc::{AllocError, Global};

fn error_to_json(alloc: Global, error: &Error) -> Result<Value, AllocError>
    ensures { IfOk result (λ tree. view tree ≡ error_json error.now) }
{
    let message = error.message();
    json!(in alloc; {"message": message})
}

fn error_in(alloc: Global, tree: &Value) -> Option<Result<Error, AllocError>>
    ensures { Reads error_json (view tree.now) result }
{
    let message = sole_member(tree, "message")?;
    Some(Error::new(alloc, message.as_str()?))
}

fn entry_to_json(alloc: Global, path: &Path, error: &Error) -> Result<Value, AllocError>
    ensures { IfOk result (λ tree. view tree ≡ entry_json (path.now, error.now)) }
{
    let path = path_to_json(alloc, path)?;
    let error = error_to_json(alloc, error)?;
    json!(in alloc; [path, error])
}

fn entry_in(alloc: Global, tree: &Value) -> Option<Result<(Path, Error), AllocError>>
    ensures { Reads entry_json (view tree.now) result }
{
    let (path_tree, error_tree) = pair(tree)?;
    let path = path_in(alloc, path_tree)?;
    let error = error_in(alloc, error_tree)?;
    Some(both(path, error))
}

/// The written form of a report.
pub fn report_to_json(alloc: Global, report: &Report) -> Result<Value, AllocError>
    ensures { IfOk result (λ tree. view tree ≡ report_json report.now) }
{
    let mut errors = Vec::new(alloc);
    for (path, error) in report.iter() {
        errors.push(entry_to_json(alloc, path, error)?)?;
    }
    let errors = Value::Array(errors);
    json!(in alloc; {"errors": errors})
}

// The report of these faults, where there is memory for it.
fn faults_in(alloc: Global, tree: &Value) -> Option<Result<Report, AllocError>>
    ensures { Reads entries_json (view tree.now) result }
{
    let mut report = Ok(Report::new(alloc));
    for entry in tree.as_array()? {
        let fault = entry_in(alloc, entry)?;
        report = with_fault(report, fault);
    }
    Some(report)
}

fn report_in(alloc: Global, tree: &Value) -> Option<Result<Report, AllocError>>
    ensures { Reads report_json (view tree.now) result }
{
    let errors = sole_member(tree, "errors")?;
    faults_in(alloc, errors)
}

/// The report whose written form a tree is. `Form` is returned exactly where no report has that
/// form, whatever memory there is.
pub fn report_from_json(alloc: Global, tree: &Value) -> Result<Report, JsonRefused>
    ensures ok { IfOk result (λ report. report_json report ≡ view tree.now) }
    ensures form { result ≡ Err JsonRefused.Form
        → (report : List Entry) → view tree.now ≢ report_json report }
    ensures refused { ((report : List Entry) → view tree.now ≢ report_json report)
        → result ≡ Err JsonRefused.Form }
{
    match report_in(alloc, tree) {
        Some(Ok(report)) => Ok(report),
        Some(Err(_)) => Err(JsonRefused::Memory),
        None => Err(JsonRefused::Form),
    }
}
