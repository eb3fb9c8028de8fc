//! Reports that are read from a text.
ghost use Rattle.std.specs.Prelude.{◌≡◌, ◌≢◌, ◌<◌, ◌∷◌, [], ◌++◌, ℕ, List, length, Some, Ok, Err, IfOk};
ghost use Rattle.std.specs.Prelude.{IsOk, IsOkAnd, IfSome};
ghost use Rattle.json.specs.Json.{document};
ghost use Rattle.garde_json.specs.Json.{error_json, entry_json, report_json};
ghost use Rattle.garde_report.specs.Report.{Entry};
ghost use Rattle.garde_json.specs.First.{entries_json};
ghost use Rattle.garde_json.specs.Form.{array_tree, Reads, report_tree, spelled};
ghost use Rattle.garde_json.specs.declared.refused.JsonRefused.{JsonRefused as Refused};

use crate::JsonRefused;
use crate::form::{pair, sole_member, text_in};
use crate::path::path_in;
use crate::stream::whole_report;
use garde_report::{Error, Path, Report};
use garde_tape::Tree;
use json::{Reader, Scratch};
use std::alloc::{AllocError, Global};

fn error_in(alloc: Global, tree: &Tree<'_, '_>) -> Option<Result<Error, AllocError>>
    ensures { Reads (spelled error_json) tree.now result }
{
    let message = sole_member(tree, "message")?;
    Some(Error::new(alloc, text_in(&message)?))
}

// Both, where there was memory for both.
pub(crate) fn both(
    path: Result<Path, AllocError>,
    error: Result<Error, AllocError>,
) -> Result<(Path, Error), AllocError>
    ensures { IfOk result (λ fault. IsOkAnd path (λ p. fault.0 ≡ p)
        × IsOkAnd error (λ e. fault.1 ≡ e)) }
{
    Ok((path?, error?))
}

fn entry_in(alloc: Global, tree: &Tree<'_, '_>) -> Option<Result<(Path, Error), AllocError>>
    ensures { Reads (spelled entry_json) tree.now result }
{
    let (path_tree, error_tree) = pair(tree)?;
    let path = path_in(alloc, &path_tree)?;
    let error = error_in(alloc, &error_tree)?;
    Some(both(path, error))
}

// The report with one fault more, where there was memory for both.
pub(crate) fn with_fault(
    report: Result<Report, AllocError>,
    fault: Result<(Path, Error), AllocError>,
) -> Result<Report, AllocError>
    ensures { IfOk result (λ longer. IsOkAnd report (λ faults. IsOkAnd fault (λ last.
        longer ≡ faults ++ last ∷ []))) }
{
    let mut report = report?;
    let (path, error) = fault?;
    report.append(path, error)?;
    Ok(report)
}

// The report of these faults, where there is memory for it. No fault needs none.
fn faults_in(alloc: Global, tree: &Tree<'_, '_>) -> Option<Result<Report, AllocError>>
    ensures read { Reads (spelled entries_json) tree.now result }
    ensures empty { tree.now ≡ array_tree entry_json [] → IfSome result (λ made. IsOk made) }
{
    let mut items = tree.items()?;
    let mut report = Ok(Report::new(alloc));
    while let Some(item) = items.next() {
        let fault = entry_in(alloc, &item)?;
        report = with_fault(report, fault);
    }
    Some(report)
}

fn report_in(alloc: Global, tree: &Tree<'_, '_>) -> Option<Result<Report, AllocError>>
    ensures read { Reads (spelled report_json) tree.now result }
    ensures empty { tree.now ≡ report_tree [] → IfSome result (λ made. IsOk made) }
{
    let errors = sole_member(tree, "errors")?;
    faults_in(alloc, &errors)
}

/// The report whose written form a tree of a text is. `Form` is returned exactly where no report has
/// that form, whatever memory there is. The report with no fault needs no memory.
///
/// An object of the form has each of its members once. So a member that comes twice is no form of a
/// report, where a tree of `serde_json` keeps the last of both.
pub fn report_from_tree(alloc: Global, tree: &Tree<'_, '_>) -> Result<Report, JsonRefused>
    ensures ok { IfOk result (λ report. tree.now ≡ report_tree report) }
    ensures form { result ≡ Err Refused.Form → (report : List Entry) → tree.now ≢ report_tree report }
    ensures refused { ((report : List Entry) → tree.now ≢ report_tree report)
        → result ≡ Err Refused.Form }
    ensures empty { tree.now ≡ report_tree [] → IsOk result }
{
    match report_in(alloc, tree) {
        Some(Ok(report)) => Ok(report),
        Some(Err(_)) => Err(JsonRefused::Memory),
        None => Err(JsonRefused::Form),
    }
}

/// The report whose written form a text is: that of the tree which the text spells, as
/// `report_from_tree` reads it. A text that is no JSON, nested no deeper than 128, is `Form` too.
///
/// The text is read once, token by token, and no tree is made; the messages and the texts of the
/// components are copied into the report, and nowhere else.
#[tactic(auto, using(crate::proofs::Whole::text_is, crate::proofs::Whole::text_is_none))]
pub fn report_from_json_text(alloc: Global, text: &str) -> Result<Report, JsonRefused>
    ensures ok { IfOk result (λ report. document text.now ≡ Some (report_tree report)) }
    ensures form { result ≡ Err Refused.Form
        → (report : List Entry) → document text.now ≢ Some (report_tree report) }
    ensures memory { result ≡ Err Refused.Memory → 0 < length text.now }
{
    if text.is_empty() {
        return Err(JsonRefused::Form);
    }
    let mut scratch = Scratch::new(alloc);
    let Ok(mut reader) = Reader::new(text, &mut scratch) else {
        return Err(JsonRefused::Memory);
    };
    match whole_report(alloc, &mut reader) {
        Some(Ok(report)) => Ok(report),
        Some(Err(_)) => Err(JsonRefused::Memory),
        None => Err(JsonRefused::Form),
    }
}
