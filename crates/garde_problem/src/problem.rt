//! The problem details of a report, as JSON text.
ghost use Rattle.std.specs.Prelude.{◌≡◌, [], ◌∷◌, IfOk, OnOk, codes, string_bytes};
ghost use Rattle.json.specs.Json.{array, object};
ghost use Rattle.json.specs.Token.{key, string};
ghost use Rattle.json.specs.Tree.{json_tokens};
ghost use Rattle.garde_problem.specs.Coded.{params_in, seen};
ghost use Rattle.garde_problem.specs.Pointer.{path_pointer};
ghost use Rattle.garde_problem.specs.Problem.{AreWritten, fault_json, faults_json, json_text};
ghost use Rattle.garde_problem.specs.Problem.{optional_tokens, params_members, parts_tokens, problem_json};

use crate::coded::{Coded, Params};
use crate::pointer::JsonPointer;
use garde_report::{Error, Path, Report};
use json::Writer;
use std::alloc::{AllocError, Global};

/// How many bytes of text a fault has that is not long, and what stands around all of them.
const FAULT: usize = 160;

/// What a client of an HTTP API reads of a request as a whole: the members of RFC 9457, section 3.1.
/// `title` and `status` are always written, the others where they are given.
#[derive(Clone, Copy, Debug)]
pub struct Problem<'a> {
    /// The URI reference of the kind of problem, written as `type`. A problem without one is of the
    /// type `about:blank`.
    pub type_uri: Option<&'a str>,
    /// A short text about the kind of problem.
    pub title: &'a str,
    /// The status code of the response.
    pub status: u16,
    /// A text about this very problem.
    pub detail: Option<&'a str>,
    /// The URI reference of this very problem.
    pub instance: Option<&'a str>,
}

/// The compact text of the problem details of a report, for a body of the media type
/// `application/problem+json`. The member `errors` is an array of the faults in order. Each is an
/// object with the `pointer` to its place, which is a JSON Pointer, and with what `Coded::of` gives of
/// its message: the sentence as `detail`, the `code`, and `params`, an object of texts. No tree is
/// made.
pub fn problem_to_json_text(
    alloc: Global,
    report: &Report,
    problem: &Problem<'_>,
) -> Result<String, AllocError>
    ensures { IfOk result (λ text. string_bytes text
        ≡ json_text (problem_json problem.now report.now)) }
{
    let room = report.len().saturating_mul(FAULT).saturating_add(FAULT);
    let mut out = Writer::new(Vec::with_capacity(alloc, room)?);
    write_problem(alloc, report, problem, &mut out)?;
    match String::from_utf8(out.into_inner()) {
        Ok(text) => Ok(text),
        Err(_) => unreachable!(),
    }
}

fn write_problem(
    alloc: Global,
    report: &Report,
    problem: &Problem<'_>,
    out: &mut Writer,
) -> Result<(), AllocError>
    ensures { OnOk result (AreWritten (json_tokens (problem_json problem.now report.now))
        out.old out.new) }
{
    out.begin_object()?;
    write_optional("type", problem.type_uri, out)?;
    write_member("title", problem.title, out)?;
    out.key("status")?;
    out.u64(u64::from(problem.status))?;
    write_optional("detail", problem.detail, out)?;
    write_optional("instance", problem.instance, out)?;
    out.key("errors")?;
    write_faults(alloc, report, out)?;
    out.end_object()?;
    Ok(())
}

// Writes the array of the faults.
fn write_faults(alloc: Global, report: &Report, out: &mut Writer) -> Result<(), AllocError>
    ensures { OnOk result (AreWritten (json_tokens (array (faults_json report.now)))
        out.old out.new) }
{
    out.begin_array()?;
    let mut pointer = String::new(alloc);
    for (path, error) in report.iter() {
        write_fault(alloc, path, error, &mut pointer, out)?;
    }
    out.end_array()?;
    Ok(())
}

// Writes a fault. Its pointer is made in a text that is kept for the next one.
fn write_fault(
    alloc: Global,
    path: &Path,
    error: &Error,
    pointer: &mut String,
    out: &mut Writer,
) -> Result<(), AllocError>
    ensures { OnOk result (AreWritten (json_tokens (fault_json (path.now, error.now)))
        out.old out.new) }
{
    out.begin_object()?;
    write_pointer(alloc, path, pointer, out)?;
    write_message(&Coded::of(error.message()), out)?;
    out.end_object()?;
    Ok(())
}

// Writes the members of a message.
fn write_message(message: &Coded<'_>, out: &mut Writer) -> Result<(), AllocError>
    ensures { OnOk result (AreWritten (parts_tokens (seen message.now)) out.old out.new) }
{
    write_member("detail", message.detail, out)?;
    write_member("code", message.code, out)?;
    out.key("params")?;
    write_params(message.params, out)?;
    Ok(())
}

// Writes parameters as an object of texts.
fn write_params(mut params: Params<'_>, out: &mut Writer) -> Result<(), AllocError>
    ensures { OnOk result (AreWritten
        (json_tokens (object (params_members (params_in params.entry.text.now))))
        out.old out.new) }
{
    out.begin_object()?;
    while let Some((name, value)) = params.next() {
        write_member(name, value, out)?;
    }
    out.end_object()?;
    Ok(())
}

fn write_pointer(
    alloc: Global,
    path: &Path,
    pointer: &mut String,
    out: &mut Writer,
) -> Result<(), AllocError>
    ensures { OnOk result (AreWritten
        (key (codes "pointer") ∷ string (path_pointer path.now) ∷ []) out.old out.new) }
{
    pointer.clear();
    write!(pointer, "{}", JsonPointer(alloc, path))?;
    write_member("pointer", pointer.as_str(), out)
}

fn write_member(name: &str, text: &str, out: &mut Writer) -> Result<(), AllocError>
    ensures { OnOk result (AreWritten (key name.now ∷ string text.now ∷ []) out.old out.new) }
{
    out.key(name)?;
    out.string(text)
}

fn write_optional(name: &str, text: Option<&str>, out: &mut Writer) -> Result<(), AllocError>
    ensures { OnOk result (AreWritten (optional_tokens name.now text.entry) out.old out.new) }
{
    match text {
        Some(text) => write_member(name, text, out),
        None => Ok(()),
    }
}
