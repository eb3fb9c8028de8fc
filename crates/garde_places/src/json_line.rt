//! A fault as a line of JSON.
ghost use Rattle.std.specs.Prelude.{◌≡◌, [], ◌∷◌, IfOk, OnOk, Some, codes, decimal, string_bytes};
ghost use Rattle.json.specs.Json.{object};
ghost use Rattle.json.specs.Token.{key, number as number_token, string};
ghost use Rattle.json.specs.Tree.{json_tokens};
ghost use Rattle.garde_problem.specs.Coded.{params_in, seen};
ghost use Rattle.garde_problem.specs.Problem.{AreWritten, json_text, params_members, parts_tokens};
ghost use Rattle.garde_problem.specs.Escaped.{escaped_path_text};
ghost use Rattle.garde_problem.specs.Pointer.{path_pointer};
ghost use Rattle.garde_places.specs.JsonLine.{fault_json};

use crate::fault::Fault;
use garde_problem::{Coded, Escaped, JsonPointer, Params};
use garde_report::Path;
use json::Writer;
use std::alloc::{AllocError, Global};
use std::fmt;

/// A fault of the file of this name, which prints as the compact text of a JSON object, with no line
/// feed behind: `file`, `path`, `pointer`, `line` and `column`, then `detail`, `code` and `params` as
/// the problem details of `garde_problem` have them.
///
/// `path` is the path as `Short` prints it, and `pointer` is a JSON Pointer (RFC 6901). The other texts
/// are as they are, so a program reads them without loss. JSON writes no line feed, so each fault is one
/// line. Printing allocates.
#[derive(Clone, Copy, Debug)]
pub struct JsonLine<'a, 'r>(pub Global, pub &'a str, pub &'a Fault<'r>);

impl fmt::Display for JsonLine<'_, '_> {
    ghost output = { λ line. Some (json_text (fault_json line.1.now line.2.now)) };

    fn fmt<W: fmt::Write>(&self, f: &mut fmt::Formatter<W>) -> fmt::Result {
        let JsonLine(alloc, file, fault) = *self;
        let text = line_of(alloc, file, fault)?;
        f.write_str(text.as_str())
    }
}

fn line_of(alloc: Global, file: &str, fault: &Fault<'_>) -> Result<String, AllocError>
    ensures { IfOk result (λ text. string_bytes text ≡ json_text (fault_json file.now fault.now)) }
{
    let mut out = Writer::new(Vec::new(alloc));
    write_fault(alloc, file, fault, &mut out)?;
    match String::from_utf8(out.into_inner()) {
        Ok(text) => Ok(text),
        Err(_) => unreachable!(),
    }
}

fn write_fault(
    alloc: Global,
    file: &str,
    fault: &Fault<'_>,
    out: &mut Writer,
) -> Result<(), AllocError>
    ensures { OnOk result (AreWritten (json_tokens (fault_json file.now fault.now)) out.old out.new) }
{
    out.begin_object()?;
    write_member("file", file, out)?;
    write_path(alloc, fault.path, out)?;
    write_pointer(alloc, fault.path, out)?;
    write_number("line", fault.place.line, out)?;
    write_number("column", fault.place.column, out)?;
    write_message(&Coded::of(fault.error.message()), out)?;
    out.end_object()?;
    Ok(())
}

fn write_path(alloc: Global, path: &Path, out: &mut Writer) -> Result<(), AllocError>
    ensures { OnOk result (AreWritten
        (key (codes "path") ∷ string (escaped_path_text path.now) ∷ []) out.old out.new) }
{
    let shown = format!(in alloc; "{}", Escaped(alloc, path))?;
    write_member("path", shown.as_str(), out)
}

fn write_pointer(alloc: Global, path: &Path, out: &mut Writer) -> Result<(), AllocError>
    ensures { OnOk result (AreWritten
        (key (codes "pointer") ∷ string (path_pointer path.now) ∷ []) out.old out.new) }
{
    let pointer = format!(in alloc; "{}", JsonPointer(alloc, path))?;
    write_member("pointer", pointer.as_str(), out)
}

fn write_number(name: &str, number: usize, out: &mut Writer) -> Result<(), AllocError>
    ensures { OnOk result (AreWritten
        (key name.now ∷ number_token (decimal number) ∷ []) out.old out.new) }
{
    out.key(name)?;
    out.u64(number as u64)
}

fn write_message(message: &Coded<'_>, out: &mut Writer) -> Result<(), AllocError>
    ensures { OnOk result (AreWritten (parts_tokens (seen message.now)) out.old out.new) }
{
    write_member("detail", message.detail, out)?;
    write_member("code", message.code, out)?;
    out.key("params")?;
    write_params(message.params, out)?;
    Ok(())
}

// Writes parameters as an object of texts.
fn write_params(mut params: Params<'_>, out: &mut Writer) -> Result<(), AllocError>
    ensures { OnOk result (AreWritten
        (json_tokens (object (params_members (params_in params.entry.text.now))))
        out.old out.new) }
{
    out.begin_object()?;
    while let Some((name, value)) = params.next() {
        write_member(name, value, out)?;
    }
    out.end_object()
}

fn write_member(name: &str, text: &str, out: &mut Writer) -> Result<(), AllocError>
    ensures { OnOk result (AreWritten (key name.now ∷ string text.now ∷ []) out.old out.new) }
{
    out.key(name)?;
    out.string(text)
}
