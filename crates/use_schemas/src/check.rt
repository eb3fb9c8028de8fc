//! What is answered to the bytes of a body by the bytes of a schema.
ghost use Rattle.std.specs.Prelude.{◌≡◌, IfErr, IfOk};
ghost use Rattle.garde_tape.specs.Reading.{json_of};
ghost use Rattle.use_schemas.specs.Checked.{AreFaultsBy, IsCheckedBy, IsListedBy, IsUnread, IsValueBy, IsVerdictBy};
ghost use Rattle.use_schemas.specs.Rules.{IsRulesOf};

use crate::rules::{Rules, rules_text};
use crate::voice::Voice;
use garde::DefaultI18n;
use garde_library::{
    Node, Place, Status, check_json, check_json_with_nodes, give_no_faults, give_nothing,
    is_valid_json, list_json, out_of_memory, value_of_json,
};
use garde_problem::WithCodes;
use garde_schema::{ParseError, Scratch, Tape, Tree, parse_bytes};
use std::alloc::Global;

/// The title of the problem details.
pub const TITLE: &str = "the body has faults";

// Reads the rules, or tells how they are not read.
fn read_rules<'a>(
    alloc: Global,
    schema: &'a [u8],
    scratch: &'a mut Scratch,
) -> Result<Tape<'a>, Status>
    ensures ok { IfOk result (λ tape. IsRulesOf schema.now (json_of tape)) }
    ensures err { IfErr result (λ status. IsUnread schema.now status) }
{
    match parse_bytes(alloc, rules_text(schema), scratch) {
        Ok(tape) => Ok(tape),
        Err(ParseError::Memory) => Err(Status::Memory),
        Err(_) => Err(Status::WrongArgument),
    }
}

/// Checks the bytes of a body by a schema. `out` gets the problem details of what is wrong, cut where it
/// ends, and `len` says how long they are as a whole: `garde_library::check_json` says more.
pub fn check_by(
    alloc: Global,
    schema: &[u8],
    of_schema: &mut Scratch,
    body: &[u8],
    scratch: &mut Scratch,
    most: usize,
    language: &[u8],
    out: &mut [u8],
    len: &mut usize,
) -> Status
    ensures { IsCheckedBy schema.now language.now most body.now out.old out.new len.new result }
{
    match read_rules(alloc, schema, of_schema) {
        Ok(tape) => {
            let rules = Rules::of(schema, Tree::root(&tape));
            let h = WithCodes(Voice::of(alloc, language));
            check_json(alloc, body, scratch, &rules, most, &h, TITLE, out, len)
        }
        Err(status) => {
            let _ = out_of_memory(out, len);
            status
        }
    }
}

/// Checks the bytes of a body by a schema, and reports what is wrong in lines: `garde_library::list_json`
/// says more.
pub fn list_by(
    alloc: Global,
    schema: &[u8],
    of_schema: &mut Scratch,
    body: &[u8],
    scratch: &mut Scratch,
    most: usize,
    language: &[u8],
    out: &mut [u8],
    len: &mut usize,
) -> Status
    ensures { IsListedBy schema.now language.now most body.now out.old out.new len.new result }
{
    match read_rules(alloc, schema, of_schema) {
        Ok(tape) => {
            let rules = Rules::of(schema, Tree::root(&tape));
            let h = Voice::of(alloc, language);
            list_json(alloc, body, scratch, &rules, most, &h, out, len)
        }
        Err(status) => {
            let _ = out_of_memory(out, len);
            status
        }
    }
}

/// Whether the bytes of a body meet a schema, or how they do not. Reading ends at the first fault.
pub fn is_valid_by(
    alloc: Global,
    schema: &[u8],
    of_schema: &mut Scratch,
    body: &[u8],
    scratch: &mut Scratch,
) -> Status
    ensures { IsVerdictBy schema.now body.now result }
{
    match read_rules(alloc, schema, of_schema) {
        Ok(tape) => {
            let rules = Rules::of(schema, Tree::root(&tape));
            is_valid_json(alloc, body, scratch, &rules, &DefaultI18n)
        }
        Err(status) => status,
    }
}

/// Whether the bytes of a body meet a schema, as `is_valid_by` says, and then the JSON value that was
/// judged: `garde_library::value_of_json` says more.
pub fn value_by(
    alloc: Global,
    schema: &[u8],
    of_schema: &mut Scratch,
    body: &[u8],
    scratch: &mut Scratch,
    nodes: &mut [Node],
    count: &mut usize,
    texts: &mut [u8],
    len: &mut usize,
) -> Status
    ensures { IsValueBy schema.now body.now nodes.old nodes.new count.new texts.old texts.new len.new result }
{
    match read_rules(alloc, schema, of_schema) {
        Ok(tape) => {
            let rules = Rules::of(schema, Tree::root(&tape));
            value_of_json(
                alloc,
                body,
                scratch,
                &rules,
                &DefaultI18n,
                nodes,
                count,
                texts,
                len,
            )
        }
        Err(status) => {
            give_nothing(nodes, count, texts, len);
            status
        }
    }
}

/// Does what `check_by` does, and hands over the details as nodes too, and the places of the faults:
/// `garde_library::check_json_with_nodes` says more.
pub fn faults_by(
    alloc: Global,
    schema: &[u8],
    of_schema: &mut Scratch,
    body: &[u8],
    scratch: &mut Scratch,
    most: usize,
    language: &[u8],
    out: &mut [u8],
    size: &mut usize,
    nodes: &mut [Node],
    count: &mut usize,
    texts: &mut [u8],
    len: &mut usize,
    places: &mut [Place],
    found: &mut usize,
) -> Status
    ensures { AreFaultsBy schema.now language.now most body.now out.old out.new size.new
        nodes.old nodes.new count.new texts.old texts.new len.new places.old places.new found.new result }
{
    match read_rules(alloc, schema, of_schema) {
        Ok(tape) => {
            let rules = Rules::of(schema, Tree::root(&tape));
            let h = WithCodes(Voice::of(alloc, language));
            check_json_with_nodes(
                alloc, body, scratch, &rules, most, &h, TITLE, out, size, nodes, count, texts, len,
                places, found,
            )
        }
        Err(status) => {
            give_no_faults(out, size, nodes, count, texts, len, places, found);
            status
        }
    }
}
