//! Checks bodies in JSON by a JSON Schema (draft 2020-12) that is handed over with each, and reports every
//! fault as problem details (RFC 9457).
//!
//! With no schema, which is one of length 0, a body has to be a schema itself: judge each schema this way
//! before you use it. Of one with faults nothing is promised but that each call returns. Where a schema is
//! no JSON text, the status is SCHEMA_WRONG_ARGUMENT, and nothing is handed over.
//!
//! What the caller owes, since nothing checks it:
//! 1. A pointer and its length name memory that is there, and is not NULL, also where the length is 0.
//! 2. `out`, `len` and `checker` overlap neither each other nor `schema`, `body` and `language`, and
//!    nothing else reads or writes them during the call, nor writes `schema`, `body` and `language`.
//! 3. A checker begins with all bytes 0, is used by one thread at a time, is not copied, and is
//!    written by these functions alone.
//! 4. `malloc`, `realloc` and `free` belong together, and no call comes from a signal handler or
//!    from the forked child of a process with threads.
//!
//! No function keeps anything from one call to the next, but for the room that a checker holds, and any
//! number of threads may call at the same time, with one schema too.
#![tactic(auto)]

mod check;
mod checker;
mod rules;
mod voice;

ghost use Rattle.std.specs.Prelude.{◌≡◌, ◌⊎◌};
ghost use Rattle.garde_library.specs.Codes.{IsCode};
ghost use Rattle.garde_library.specs.declared.status.Status.TheVariants.{Memory, Valid};
ghost use Rattle.use_schemas.specs.Checked.{AreFaultsBy, IsCheckedBy, IsListedBy, IsValueBy, IsVerdictBy};

use crate::check::{check_by, faults_by, is_valid_by, list_by, value_by};
use crate::checker::Checker;
use garde_library::{Node, Place, Status, give_no_faults, give_nothing, out_of_memory};
use garde_schema::Scratch;
use std::alloc::Global;

/// The version of this interface: SCHEMA_VERSION, where the header belongs to the library.
#[unsafe(no_mangle)]
pub extern "C" fn schema_version() -> u32
    ensures { result ≡ 1 }
{
    1
}

/// Checks the bytes of a body, and returns a status. `out` gets the problem details of what is wrong, as
/// UTF-8 with no 0 at the end, cut where it ends; the rest of it stays as it was. `len` gets the length of
/// the details as a whole: where it is greater than `out_len`, call again with more room. Of SCHEMA_VALID,
/// SCHEMA_MEMORY and SCHEMA_WRONG_ARGUMENT there are no details, and `len` is 0.
///
/// The details have `most` faults at most (SIZE_MAX: all), in the order of the schema. Where there are
/// more, their member `detail` is "there are more". Sentences are in the language of the tag `language`, as
/// "de", of 18, and English of any other and of none.
#[unsafe(no_mangle)]
pub extern "C" fn schema_check(
    alloc: Global,
    schema: &[u8],
    body: &[u8],
    most: usize,
    language: &[u8],
    out: &mut [u8],
    len: &mut usize,
) -> u8
    ensures { IsCode (λ s. IsCheckedBy schema.now language.now most body.now out.old out.new len.new s) result }
{
    let mut of_schema = Scratch::new(alloc);
    let mut of_body = Scratch::new(alloc);
    let status = check_by(
        alloc,
        schema,
        &mut of_schema,
        body,
        &mut of_body,
        most,
        language,
        out,
        len,
    );
    status as u8
}

/// Returns the status of the bytes of a body, and no details: SCHEMA_VALID, SCHEMA_FAULTS, SCHEMA_NO_JSON,
/// SCHEMA_MEMORY, or SCHEMA_WRONG_ARGUMENT. Reading ends at the first fault.
#[unsafe(no_mangle)]
pub extern "C" fn schema_is_valid(alloc: Global, schema: &[u8], body: &[u8]) -> u8
    ensures { IsCode (λ s. IsVerdictBy schema.now body.now s) result }
{
    let mut of_schema = Scratch::new(alloc);
    let mut of_body = Scratch::new(alloc);
    is_valid_by(alloc, schema, &mut of_schema, body, &mut of_body) as u8
}

/// Makes the room of a checker for bodies of `body_len` bytes, and returns SCHEMA_VALID or SCHEMA_MEMORY. A
/// call may be left out: `schema_check_with` makes the room that it lacks.
#[unsafe(no_mangle)]
pub extern "C" fn schema_reserve(alloc: Global, checker: &mut Checker, body_len: u32) -> u8
    ensures { IsCode (λ s. (s ≡ Valid) ⊎ (s ≡ Memory)) result }
{
    match checker.reserve(alloc, body_len) {
        Ok(()) => Status::Valid as u8,
        Err(_) => Status::Memory as u8,
    }
}

/// Does what `schema_check` does, in the room of a checker, which is kept for the next call. The answer does
/// not depend on what was checked before, nor by which schema.
#[unsafe(no_mangle)]
pub extern "C" fn schema_check_with(
    alloc: Global,
    checker: &mut Checker,
    schema: &[u8],
    body: &[u8],
    most: usize,
    language: &[u8],
    out: &mut [u8],
    len: &mut usize,
) -> u8
    ensures { IsCode (λ s. IsCheckedBy schema.now language.now most body.now out.old out.new len.new s) result }
{
    let Ok(mut room) = checker.take_or_new(alloc) else {
        return out_of_memory(out, len) as u8;
    };
    let status = check_by(
        alloc,
        schema,
        &mut room.of_schema,
        body,
        &mut room.of_body,
        most,
        language,
        out,
        len,
    );
    checker.put(alloc, room);
    status as u8
}

/// Does what `schema_check_with` does, and reports what is wrong in lines: `out` gets a line
/// `path: message` for each fault, without codes, and the line `there are more` where there are. Of bytes
/// that are no JSON text the line says why, with line and column. It takes less time than problem details.
/// The name of an unknown member stands in its line as the body has it, a line feed or a code of a
/// terminal too: escape it before you show it.
#[unsafe(no_mangle)]
pub extern "C" fn schema_list_with(
    alloc: Global,
    checker: &mut Checker,
    schema: &[u8],
    body: &[u8],
    most: usize,
    language: &[u8],
    out: &mut [u8],
    len: &mut usize,
) -> u8
    ensures { IsCode (λ s. IsListedBy schema.now language.now most body.now out.old out.new len.new s) result }
{
    let Ok(mut room) = checker.take_or_new(alloc) else {
        return out_of_memory(out, len) as u8;
    };
    let status = list_by(
        alloc,
        schema,
        &mut room.of_schema,
        body,
        &mut room.of_body,
        most,
        language,
        out,
        len,
    );
    checker.put(alloc, room);
    status as u8
}

/// Returns what `schema_is_valid` returns, and of SCHEMA_VALID hands over the JSON value that was judged: its
/// nodes, in the order of the text, and in `texts` those of its texts that the body has with an escape. A
/// text lies in `body` or in `texts`, as its node says.
///
/// `nodes` and `texts` get as much as they have room for, and `nodes_used` and `texts_used` say how much it
/// is as a whole: where that is more, call again with more room. Of any other status both are 0.
#[unsafe(no_mangle)]
pub extern "C" fn schema_value_with(
    alloc: Global,
    checker: &mut Checker,
    schema: &[u8],
    body: &[u8],
    nodes: &mut [Node],
    nodes_used: &mut usize,
    texts: &mut [u8],
    texts_used: &mut usize,
) -> u8
    ensures { IsCode (λ s. IsValueBy schema.now body.now nodes.old nodes.new nodes_used.new
        texts.old texts.new texts_used.new s) result }
{
    let Ok(mut room) = checker.take_or_new(alloc) else {
        give_nothing(nodes, nodes_used, texts, texts_used);
        return Status::Memory as u8;
    };
    let status = value_by(
        alloc,
        schema,
        &mut room.of_schema,
        body,
        &mut room.of_body,
        nodes,
        nodes_used,
        texts,
        texts_used,
    );
    checker.put(alloc, room);
    status as u8
}

/// Does what `schema_check_with` does, and hands over the details as nodes too, as `schema_value_with` does:
/// their texts lie in `texts`. The value is an object. Its last member is `errors`, a list with an object for
/// each fault: `pointer`, `detail`, `code` and `params`, in this order.
///
/// Give `out_len` 0 if you do not ask for the details as text: then they are not written, and `len` is 0. Where
/// there are no details, `nodes_used` and `texts_used` are 0.
///
/// Of SCHEMA_FAULTS `places` gets where in the body each fault is, in the order of `errors`, as far as it has
/// room, and `places_used` says how many faults there are. Give `places_len` 0 if you do not ask: then
/// nothing is looked for, and `places_used` is 0.
#[unsafe(no_mangle)]
pub extern "C" fn schema_faults_with(
    alloc: Global,
    checker: &mut Checker,
    schema: &[u8],
    body: &[u8],
    most: usize,
    language: &[u8],
    out: &mut [u8],
    len: &mut usize,
    nodes: &mut [Node],
    nodes_used: &mut usize,
    texts: &mut [u8],
    texts_used: &mut usize,
    places: &mut [Place],
    places_used: &mut usize,
) -> u8
    ensures { IsCode (λ s. AreFaultsBy schema.now language.now most body.now out.old out.new len.new
        nodes.old nodes.new nodes_used.new texts.old texts.new texts_used.new
        places.old places.new places_used.new s) result }
{
    let Ok(mut room) = checker.take_or_new(alloc) else {
        give_no_faults(
            out,
            len,
            nodes,
            nodes_used,
            texts,
            texts_used,
            places,
            places_used,
        );
        return Status::Memory as u8;
    };
    let status = faults_by(
        alloc,
        schema,
        &mut room.of_schema,
        body,
        &mut room.of_body,
        most,
        language,
        out,
        len,
        nodes,
        nodes_used,
        texts,
        texts_used,
        places,
        places_used,
    );
    checker.put(alloc, room);
    status as u8
}

/// Frees the room of a checker, and leaves it as it began. A second call does nothing.
#[unsafe(no_mangle)]
pub extern "C" fn schema_free(alloc: Global, checker: &mut Checker) {
    checker.free(alloc);
}
