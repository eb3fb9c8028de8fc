//! Reports that are read token by token.
ghost use Rattle.std.specs.Prelude.{◌≡◌, ◌≢◌, ◌∷◌, [], ◌++◌, List, IfOk, IsOkAnd, MatchOption};
ghost use Rattle.json.specs.Token.{Token};
ghost use Rattle.garde_json.specs.First.{entries_json};
ghost use Rattle.garde_json.specs.Form.{Reads};
ghost use Rattle.garde_json.specs.Json.{part_json, path_json, error_json, entry_json, report_json};
ghost use Rattle.garde_json.specs.Next.{ReadsNext};
ghost use Rattle.garde_json.specs.Tokens.{tokens_of, tree_tokens};
ghost use Rattle.garde_report.specs.Part.{Part, part};

use crate::kind::kind_named;
use crate::next::{
    ends_list, ends_object, has_key, is_at_end, next_text, opens_list, opens_object,
};
use crate::path::joined;
use crate::read::{both, with_fault};
use garde_report::{Error, Kind, Path, Report};
use json::Reader;
use std::alloc::{AllocError, Global};

// The kind and the text of a component.
fn next_component<'a>(reader: &mut Reader<'a>) -> Option<(Kind, &'a str)>
    ensures { MatchOption result ((p : Part) (rest : List Token) → reader.old ≢ tree_tokens (part_json p) ++ rest)
        (λ both. reader.old ≡ tree_tokens (part_json (part both.0 both.1.now)) ++ reader.new) }
{
    if !opens_list(reader) {
        return None;
    }
    let kind = kind_named(next_text(reader)?)?;
    let text = next_text(reader)?;
    if !ends_list(reader) {
        return None;
    }
    Some((kind, text))
}

// The path that is next, where there is memory for it. All of it is read where there is none.
fn next_path(alloc: Global, reader: &mut Reader<'_>) -> Option<Result<Path, AllocError>>
    ensures { ReadsNext path_json reader.old reader.new result }
{
    if !opens_list(reader) {
        return None;
    }
    let mut path = Ok(Path::empty());
    'components: while !ends_list(reader) {
        let (kind, text) = next_component(reader)?;
        path = joined(alloc, path, kind, text);
    }
    Some(path)
}

// The error that is next, where there is memory for it.
fn next_error(alloc: Global, reader: &mut Reader<'_>) -> Option<Result<Error, AllocError>>
    ensures { ReadsNext error_json reader.old reader.new result }
{
    if !opens_object(reader) || !has_key(reader, "message") {
        return None;
    }
    let message = next_text(reader)?;
    if !ends_object(reader) {
        return None;
    }
    Some(Error::new(alloc, message))
}

// The fault that is next, where there is memory for it.
fn next_entry(alloc: Global, reader: &mut Reader<'_>) -> Option<Result<(Path, Error), AllocError>>
    ensures { ReadsNext entry_json reader.old reader.new result }
{
    if !opens_list(reader) {
        return None;
    }
    let path = next_path(alloc, reader)?;
    let error = next_error(alloc, reader)?;
    if !ends_list(reader) {
        return None;
    }
    Some(both(path, error))
}

// The faults that are next, where there is memory for them.
fn next_entries(alloc: Global, reader: &mut Reader<'_>) -> Option<Result<Report, AllocError>>
    ensures { ReadsNext entries_json reader.old reader.new result }
{
    if !opens_list(reader) {
        return None;
    }
    let mut report = Ok(Report::new(alloc));
    'entries: while !ends_list(reader) {
        let fault = next_entry(alloc, reader)?;
        report = with_fault(report, fault);
    }
    Some(report)
}

/// The report that all tokens are, where there is memory for it.
pub(crate) fn whole_report(
    alloc: Global,
    reader: &mut Reader<'_>,
) -> Option<Result<Report, AllocError>>
    ensures { Reads (tokens_of report_json) reader.old result }
{
    if !opens_object(reader) {
        return None;
    }
    if !has_key(reader, "errors") {
        return None;
    }
    let report = next_entries(alloc, reader)?;
    if !ends_object(reader) {
        return None;
    }
    if !is_at_end(reader) {
        return None;
    }
    Some(report)
}
