//! The problem details of bytes (RFC 9457).
ghost use Rattle.std.specs.Prelude.{◌≡◌, IfOk, option_map, string_bytes};
ghost use Rattle.garde_problem.specs.Problem.{json_text};
ghost use Rattle.garde_schema.specs.FirstRead.{first_read_error_text};
ghost use Rattle.garde_schema.specs.declared.first_read_error.FirstReadError.TheVariants.{Parse};
ghost use Rattle.garde_library.specs.Checked.{details, first_faults, no_json, text_of};

use garde::Report;
use garde_problem::{Problem, problem_to_json_text};
use garde_schema::{FirstReadError, ParseError};
use std::alloc::{AllocError, Global};

// The text of details with a title, a status, perhaps a sentence, and the faults.
fn json_of<'p>(
    alloc: Global,
    title: &'p str,
    status: u16,
    detail: Option<&'p str>,
    report: &Report,
) -> Result<String, AllocError>
    ensures { IfOk result (λ text. string_bytes text
        ≡ json_text (details title.now status (option_map (λ s. s.now) detail.entry) report.now)) }
{
    let problem = Problem {
        type_uri: None,
        title,
        status,
        detail,
        instance: None,
    };
    problem_to_json_text(alloc, report, &problem)
}

// The details of bytes with more faults than these.
fn of_first(alloc: Global, title: &str, report: &Report) -> Result<String, AllocError>
    ensures { IfOk result (λ text. string_bytes text ≡ json_text (first_faults title.now report.now)) }
{
    json_of(alloc, title, 422, Some("there are more"), report)
}

// The details of bytes that are no JSON text, for this reason.
fn of_reason(alloc: Global, reason: &str) -> Result<String, AllocError>
    ensures { IfOk result (λ text. string_bytes text ≡ json_text (no_json reason.now)) }
{
    let report = Report::new(alloc);
    json_of(
        alloc,
        "the body is no JSON text",
        400,
        Some(reason),
        &report,
    )
}

// The details of bytes that are no JSON text, with the reason and its place.
fn of_no_json(alloc: Global, error: &ParseError) -> Result<String, AllocError>
    ensures { IfOk result (λ text. string_bytes text
        ≡ json_text (no_json (first_read_error_text (Parse error.now)))) }
{
    let reason = format!(in alloc; "{error}")?;
    of_reason(alloc, reason.as_str())
}

/// The details of the result of reading. Of valid bytes, and where memory ran out, there are none: the
/// text is empty.
pub fn details_of(
    alloc: Global,
    title: &str,
    read: &Result<(), FirstReadError>,
) -> Result<String, AllocError>
    ensures { IfOk result (λ text. string_bytes text ≡ text_of title.now read.now) }
{
    match read {
        Ok(()) => Ok(String::new(alloc)),
        Err(FirstReadError::All(report)) => json_of(alloc, title, 422, None, report),
        Err(FirstReadError::First(report)) => of_first(alloc, title, report),
        Err(FirstReadError::Parse(error)) => of_no_json(alloc, error),
        Err(FirstReadError::Memory) => Ok(String::new(alloc)),
    }
}
