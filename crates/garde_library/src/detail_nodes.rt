//! The nodes of problem details.
ghost use Rattle.std.specs.Prelude.{◌≡◌, [], ◌∷◌, IfOk, OnOk, Some, codes, length, option_map, pos};
ghost use Rattle.std.specs.Fmt.{decimal};
ghost use Rattle.json.specs.Json.{array, object};
ghost use Rattle.garde_problem.specs.Coded.{params_in};
ghost use Rattle.garde_problem.specs.Pointer.{path_pointer};
ghost use Rattle.garde_problem.specs.Problem.{fault_json, faults_json, params_members};
ghost use Rattle.garde_schema.specs.FirstRead.{first_read_error_text};
ghost use Rattle.garde_schema.specs.declared.first_read_error.FirstReadError.TheVariants.{Parse};
ghost use Rattle.garde_tape.specs.Number.{signed_of};
ghost use Rattle.garde_library.specs.Checked.{details, details_json, no_json};
ghost use Rattle.garde_library.specs.Nodes.{AreAdded, Spells, a_list, a_number, a_text, an_object};
ghost use Rattle.garde_library.specs.Nodes.{item_marks, marks, member_marks, members_with, sentence_marks};
ghost use Rattle.garde_library.specs.Value.{SpellIf};

use crate::node::{LIST, OBJECT, TEXT, WHOLE};
use crate::walk::{Nodes, Walk};
use garde::{Error, Path, Report};
use garde_problem::{Coded, JsonPointer, Params};
use garde_schema::{FirstReadError, ParseError};
use std::alloc::{AllocError, Global};

// Nodes of a fault with one parameter, and bytes of its texts where they are not long. What is around all
// faults takes no more.
const NODES: usize = 11;

const TEXTS: usize = 120;

// A text, which is kept in the room.
fn push_text(walk: &mut Walk<'_>, text: &str) -> Result<(), AllocError>
    ensures { OnOk result (AreAdded (a_text text.now ∷ []) walk.old walk.new) }
{
    walk.push_found(TEXT, text, None)
}

fn push_list(walk: &mut Walk<'_>, count: u64) -> Result<(), AllocError>
    ensures { OnOk result (AreAdded (a_list count ∷ []) walk.old walk.new) }
{
    walk.push_plain(LIST, count)
}

fn push_object(walk: &mut Walk<'_>, count: u64) -> Result<(), AllocError>
    ensures { OnOk result (AreAdded (an_object count ∷ []) walk.old walk.new) }
{
    walk.push_plain(OBJECT, count)
}

fn push_status(walk: &mut Walk<'_>, status: u16) -> Result<(), AllocError>
    requires { signed_of 64 (decimal status) ≡ Some (pos status) }
    ensures { OnOk result (AreAdded (a_number (decimal status) ∷ []) walk.old walk.new) }
{
    walk.push_plain(WHOLE, u64::from(status))
}

// A member whose value is a text.
fn push_member(walk: &mut Walk<'_>, name: &str, text: &str) -> Result<(), AllocError>
    ensures { OnOk result (AreAdded (a_text name.now ∷ a_text text.now ∷ []) walk.old walk.new) }
{
    push_text(walk, name)?;
    push_text(walk, text)
}

fn push_pairs(walk: &mut Walk<'_>, params: Params<'_>) -> Result<(), AllocError>
    ensures { OnOk result (AreAdded (member_marks (params_members (params_in params.entry.text.now)))
        walk.old walk.new) }
{
    let mut left = params;
    while let Some((name, value)) = left.next() {
        push_member(walk, name, value)?;
    }
    Ok(())
}

// How many parameters a message has.
fn count_params(params: Params<'_>) -> Result<u64, AllocError>
    ensures { IfOk result (λ count. count ≡ length (params_in params.entry.text.now)) }
{
    let mut left = params;
    let mut count = 0u64;
    while let Some(param) = left.next() {
        let _ = param;
        let Some(more) = count.checked_add(1) else {
            return Err(AllocError);
        };
        count = more;
    }
    Ok(count)
}

fn push_params(walk: &mut Walk<'_>, params: Params<'_>) -> Result<(), AllocError>
    ensures { OnOk result (AreAdded (marks (object (params_members (params_in params.entry.text.now))))
        walk.old walk.new) }
{
    let count = count_params(params)?;
    push_object(walk, count)?;
    push_pairs(walk, params)
}

// The pointer of a fault, which is made in a text that is kept for the next one.
fn push_pointer(
    walk: &mut Walk<'_>,
    alloc: Global,
    path: &Path,
    pointer: &mut String,
) -> Result<(), AllocError>
    ensures { OnOk result (AreAdded (a_text (codes "pointer") ∷ a_text (path_pointer path.now) ∷ [])
        walk.old walk.new) }
{
    pointer.clear();
    write!(pointer, "{}", JsonPointer(alloc, path))?;
    push_member(walk, "pointer", pointer.as_str())
}

fn push_fault(
    walk: &mut Walk<'_>,
    alloc: Global,
    path: &Path,
    error: &Error,
    pointer: &mut String,
) -> Result<(), AllocError>
    ensures { OnOk result (AreAdded (marks (fault_json (path.now, error.now))) walk.old walk.new) }
{
    let message = Coded::of(error.message());
    push_object(walk, 4)?;
    push_pointer(walk, alloc, path, pointer)?;
    push_member(walk, "detail", message.detail)?;
    push_member(walk, "code", message.code)?;
    push_text(walk, "params")?;
    push_params(walk, message.params)
}

fn push_each(walk: &mut Walk<'_>, alloc: Global, report: &Report) -> Result<(), AllocError>
    ensures { OnOk result (AreAdded (item_marks (faults_json report.now)) walk.old walk.new) }
{
    let mut pointer = String::new(alloc);
    for (path, error) in report.iter() {
        push_fault(walk, alloc, path, error, &mut pointer)?;
    }
    Ok(())
}

fn push_faults(walk: &mut Walk<'_>, alloc: Global, report: &Report) -> Result<(), AllocError>
    ensures { OnOk result (AreAdded (marks (array (faults_json report.now))) walk.old walk.new) }
{
    push_list(walk, report.len() as u64)?;
    push_each(walk, alloc, report)
}

// The sentence that details may have.
fn push_sentence(walk: &mut Walk<'_>, detail: Option<&str>) -> Result<(), AllocError>
    ensures { OnOk result (AreAdded (sentence_marks (option_map (λ s. s.now) detail.entry)) walk.old walk.new) }
{
    match detail {
        Some(text) => push_member(walk, "detail", text),
        None => Ok(()),
    }
}

// How many members details have.
fn count_members(detail: Option<&str>) -> u64
    ensures { result ≡ members_with (option_map (λ s. s.now) detail.entry) }
{
    match detail {
        Some(_) => 4,
        None => 3,
    }
}

// Details with a title, a status, perhaps a sentence, and the faults.
fn push_details(
    walk: &mut Walk<'_>,
    alloc: Global,
    title: &str,
    status: u16,
    detail: Option<&str>,
    report: &Report,
) -> Result<(), AllocError>
    requires { signed_of 64 (decimal status) ≡ Some (pos status) }
    ensures { OnOk result (AreAdded
        (marks (details title.now status (option_map (λ s. s.now) detail.entry) report.now))
        walk.old walk.new) }
{
    let count = count_members(detail);
    push_object(walk, count)?;
    push_member(walk, "title", title)?;
    push_text(walk, "status")?;
    push_status(walk, status)?;
    push_sentence(walk, detail)?;
    push_text(walk, "errors")?;
    push_faults(walk, alloc, report)
}

// The nodes of these details.
fn nodes_of(
    alloc: Global,
    title: &str,
    status: u16,
    detail: Option<&str>,
    report: &Report,
) -> Result<Nodes, AllocError>
    requires { signed_of 64 (decimal status) ≡ Some (pos status) }
    ensures { IfOk result (λ made. Spells [] made.room.items made.nodes.items
        (details title.now status (option_map (λ s. s.now) detail.entry) report.now)) }
{
    let faults = report.len().saturating_add(1);
    let mut walk = Walk {
        body: b"",
        from: 0,
        nodes: Vec::with_capacity(alloc, faults.saturating_mul(NODES))?,
        room: Vec::with_capacity(alloc, faults.saturating_mul(TEXTS))?,
    };
    push_details(&mut walk, alloc, title, status, detail, report)?;
    let Walk { nodes, room, .. } = walk;
    Ok(Nodes { nodes, room })
}

// Those of bytes that are no JSON text, for this reason.
fn of_reason(alloc: Global, reason: &str) -> Result<Nodes, AllocError>
    ensures { IfOk result (λ made. Spells [] made.room.items made.nodes.items (no_json reason.now)) }
{
    let report = Report::new(alloc);
    nodes_of(
        alloc,
        "the body is no JSON text",
        400,
        Some(reason),
        &report,
    )
}

// Those of bytes that are no JSON text, with the reason and its place.
fn of_no_json(alloc: Global, error: &ParseError) -> Result<Nodes, AllocError>
    ensures { IfOk result (λ made. Spells [] made.room.items made.nodes.items
        (no_json (first_read_error_text (Parse error.now)))) }
{
    let reason = format!(in alloc; "{error}")?;
    of_reason(alloc, reason.as_str())
}

// No nodes.
fn no_nodes(alloc: Global) -> Nodes
    ensures nodes { result.nodes.items ≡ [] }
    ensures room { result.room.items ≡ [] }
{
    Nodes {
        nodes: Vec::new(alloc),
        room: Vec::new(alloc),
    }
}

/// The nodes of the details of the result of reading. Of valid bytes, and where memory ran out, there are
/// none.
pub(crate) fn nodes_of_details(
    alloc: Global,
    title: &str,
    read: &Result<(), FirstReadError>,
) -> Result<Nodes, AllocError>
    ensures { IfOk result (λ made. SpellIf (details_json title.now read.now)
        made.room.items made.nodes.items) }
{
    match read {
        Ok(()) => Ok(no_nodes(alloc)),
        Err(FirstReadError::All(report)) => nodes_of(alloc, title, 422, None, report),
        Err(FirstReadError::First(report)) => {
            nodes_of(alloc, title, 422, Some("there are more"), report)
        }
        Err(FirstReadError::Parse(error)) => of_no_json(alloc, error),
        Err(FirstReadError::Memory) => Ok(no_nodes(alloc)),
    }
}
