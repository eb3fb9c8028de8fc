//! What is answered to a body in JSON that spells no valid value.
ghost use Rattle.std.specs.Prelude.{◌++◌, [], OnOk};
ghost use Rattle.garde_catalog.specs.Parse.{catalog_parse_text};
ghost use Rattle.garde_service.specs.Json.{TellsError, faults_text, no_json_text, problem_fields, voice};
ghost use Rattle.garde_service.specs.Said.{language_fields};
ghost use Rattle.http_server.specs.Response.{IsBlank, IsResponse};

use crate::problems::PROBLEM_TYPE;
use crate::put::{put_language, put_text};
use garde::Report;
use garde_catalog::Catalog;
use garde_problem::{Problem, problem_to_json_text};
use garde_schema::{FirstReadError, ParseError};
use http::StatusCode;
use http_server::Response;
use std::alloc::{AllocError, Global};

/// Answers with problem details in the language of this tag, which is one that a field may have: with
/// another one it fails.
fn put_in_language(
    alloc: Global,
    tag: &str,
    status: StatusCode,
    text: &str,
    response: &mut Response,
) -> Result<(), AllocError>
    requires { IsBlank response.old }
    ensures { OnOk result (IsResponse status (problem_fields ++ language_fields tag.now) text.now
        response.new) }
{
    put_text(response, status, PROBLEM_TYPE, text)?;
    put_language(alloc, tag, response)
}

/// Answers with the report of a body, under this title.
fn put_report(
    alloc: Global,
    tag: &str,
    title: &str,
    report: &Report,
    response: &mut Response,
) -> Result<(), AllocError>
    requires { IsBlank response.old }
    ensures { OnOk result (IsResponse 422 (problem_fields ++ language_fields tag.now)
        (faults_text title.now report.now) response.new) }
{
    let problem = Problem {
        type_uri: None,
        title,
        status: 422,
        detail: None,
        instance: None,
    };
    let text = problem_to_json_text(alloc, report, &problem)?;
    let status = StatusCode::UNPROCESSABLE_ENTITY;
    put_in_language(alloc, tag, status, text.as_str(), response)
}

/// Answers that the body is not read as JSON, for this reason.
fn put_reason(
    alloc: Global,
    tag: &str,
    reason: &str,
    report: &Report,
    response: &mut Response,
) -> Result<(), AllocError>
    requires { IsBlank response.old }
    ensures { OnOk result (IsResponse 400 (problem_fields ++ language_fields tag.now)
        (no_json_text reason.now report.now) response.new) }
{
    let problem = Problem {
        type_uri: None,
        title: "the body is not read as JSON",
        status: 400,
        detail: Some(reason),
        instance: None,
    };
    let text = problem_to_json_text(alloc, report, &problem)?;
    put_in_language(alloc, tag, StatusCode::BAD_REQUEST, text.as_str(), response)
}

/// Answers that the body is not read as JSON, and why.
fn put_no_json(
    alloc: Global,
    catalog: &Catalog<'static>,
    tag: &str,
    error: &ParseError,
    response: &mut Response,
) -> Result<(), AllocError>
    requires { IsBlank response.old }
    ensures { OnOk result (IsResponse 400 (problem_fields ++ language_fields tag.now)
        (no_json_text (catalog_parse_text catalog.now error.now) []) response.new) }
{
    let detail = catalog.parse_error(alloc, error)?;
    let report = Report::new(alloc);
    put_reason(alloc, tag, detail.as_str(), &report, response)
}

/// Answers a body that spells no valid value, in the language of this catalog and this tag: by 422 with
/// every fault under this title, or by 400. A report that is cut off has more faults than memory has
/// room for.
pub fn put_error(
    alloc: Global,
    catalog: &Catalog<'static>,
    tag: &str,
    title: &str,
    error: &FirstReadError,
    response: &mut Response,
) -> Result<(), AllocError>
    requires { IsBlank response.old }
    ensures { OnOk result (TellsError title.now (voice catalog.now tag.now) error.now
        response.new) }
{
    match error {
        FirstReadError::All(report) => put_report(alloc, tag, title, report, response),
        FirstReadError::Parse(error) => put_no_json(alloc, catalog, tag, error, response),
        _ => Err(AllocError),
    }
}
