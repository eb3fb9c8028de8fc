//! Checks orders in JSON, and reports every fault as problem details (RFC 9457).
//!
//! What the caller owes, since nothing checks it:
//! 1. A pointer and its length name memory that is there, and is not NULL, also where the length is 0.
//! 2. `out`, `len` and `checker` overlap neither each other nor `body` and `language`, and nothing
//!    else reads or writes them during the call, nor writes `body` and `language`.
//! 3. A checker begins with all bytes 0, is used by one thread at a time, is not copied, and is
//!    written by these functions alone.
//! 4. `malloc`, `realloc` and `free` belong together, and no call comes from a signal handler or
//!    from the forked child of a process with threads.
//!
//! No function keeps anything from one call to the next, but for what a checker holds, and any number
//! of threads may call at the same time.
#![tactic(auto)]

ghost use Rattle.std.specs.Prelude.{◌≡◌, ◌⊎◌};
ghost use Rattle.example_order.specs.Language.{AreFaultsIn, IsCheckedIn, IsListedIn, IsOrder, IsValueOf, language_of};
ghost use Rattle.garde_library.specs.declared.status.Status.TheVariants.{Memory, Valid};
ghost use Rattle.garde_library.specs.Codes.{IsCode};

use example_order::{
    Body, Language, check_order, faults_of_order, is_order, list_order, value_of_order,
};
use garde::Stated;
use garde_library::{Node, Place, Room, Status, give_no_faults, give_nothing, out_of_memory};
use garde_schema::{Scratch, Spelled};
use std::alloc::Global;

/// The version of this interface: ORDER_VERSION, where the header belongs to the library.
#[unsafe(no_mangle)]
pub extern "C" fn order_version() -> u32
    ensures { result ≡ 4 }
{
    4
}

/// Checks the bytes of an order, and returns a status. `out` gets the problem details of what is
/// wrong, as UTF-8 with no 0 at the end, cut where it ends; the rest of it stays as it was. `len` gets
/// the length of the details as a whole: where it is greater than `out_len`, call again with more
/// room. Of ORDER_VALID, ORDER_MEMORY and ORDER_WRONG_ARGUMENT there are no details, and `len` is 0.
///
/// The details have `most` faults at most (SIZE_MAX: all), in the order of the form. Where there are
/// more, their member `detail` is "there are more". Sentences are Czech where `language` is "cs", and
/// English of any other and of none.
#[unsafe(no_mangle)]
pub extern "C" fn order_check(
    alloc: Global,
    body: &[u8],
    most: usize,
    language: &[u8],
    out: &mut [u8],
    len: &mut usize,
) -> u8
    ensures { IsCode (λ s. IsCheckedIn
        ⟦<Body<'static> as Spelled>⟧.spelled ⟦<Body<'static> as Stated>⟧.visits
        (language_of language.now) most body.now out.old out.new len.new s) result }
{
    let mut scratch = Scratch::new(alloc);
    let language = Language::of(language);
    let status = check_order(alloc, body, &mut scratch, most, language, out, len);
    status as u8
}

/// Returns the status of the bytes of an order, and no details: ORDER_VALID, ORDER_FAULTS,
/// ORDER_NO_JSON or ORDER_MEMORY. Reading ends at the first fault.
#[unsafe(no_mangle)]
pub extern "C" fn order_is_valid(alloc: Global, body: &[u8]) -> u8
    ensures { IsCode (λ s. IsOrder
        ⟦<Body<'static> as Spelled>⟧.spelled ⟦<Body<'static> as Stated>⟧.visits
        body.now s) result }
{
    let mut scratch = Scratch::new(alloc);
    is_order(alloc, body, &mut scratch) as u8
}

/// Makes the room of a checker for bodies of `body_len` bytes, and returns ORDER_VALID or
/// ORDER_MEMORY. A call may be left out: `order_check_with` makes the room that it lacks.
#[unsafe(no_mangle)]
pub extern "C" fn order_reserve(alloc: Global, checker: &mut Room, body_len: u32) -> u8
    ensures { IsCode (λ s. (s ≡ Valid) ⊎ (s ≡ Memory)) result }
{
    match checker.reserve(alloc, body_len) {
        Ok(()) => Status::Valid as u8,
        Err(_) => Status::Memory as u8,
    }
}

/// Does what `order_check` does, in the room of a checker, which is kept for the next call. The answer
/// does not depend on what was checked before.
#[unsafe(no_mangle)]
pub extern "C" fn order_check_with(
    alloc: Global,
    checker: &mut Room,
    body: &[u8],
    most: usize,
    language: &[u8],
    out: &mut [u8],
    len: &mut usize,
) -> u8
    ensures { IsCode (λ s. IsCheckedIn
        ⟦<Body<'static> as Spelled>⟧.spelled ⟦<Body<'static> as Stated>⟧.visits
        (language_of language.now) most body.now out.old out.new len.new s) result }
{
    let language = Language::of(language);
    let Ok(mut scratch) = checker.take_or_new(alloc) else {
        return out_of_memory(out, len) as u8;
    };
    let status = check_order(alloc, body, &mut scratch, most, language, out, len);
    checker.put(alloc, scratch);
    status as u8
}

/// Does what `order_check_with` does, and reports what is wrong in lines: `out` gets a line
/// `path: message` for each fault, without codes, and the line `there are more` where there are. Of bytes
/// that are no JSON text the line says why, with line and column. It takes less time than problem details.
/// The name of an unknown member stands in its line as the body has it, a line feed or a code of a
/// terminal too: escape it before you show it.
#[unsafe(no_mangle)]
pub extern "C" fn order_list_with(
    alloc: Global,
    checker: &mut Room,
    body: &[u8],
    most: usize,
    language: &[u8],
    out: &mut [u8],
    len: &mut usize,
) -> u8
    ensures { IsCode (λ s. IsListedIn
        ⟦<Body<'static> as Spelled>⟧.spelled ⟦<Body<'static> as Stated>⟧.visits
        (language_of language.now) most body.now out.old out.new len.new s) result }
{
    let language = Language::of(language);
    let Ok(mut scratch) = checker.take_or_new(alloc) else {
        return out_of_memory(out, len) as u8;
    };
    let status = list_order(alloc, body, &mut scratch, most, language, out, len);
    checker.put(alloc, scratch);
    status as u8
}

/// Returns what `order_is_valid` returns, and of ORDER_VALID hands over the JSON value that was judged: its
/// nodes, in the order of the text, and in `texts` those of its texts that the body has with an escape. A
/// text lies in `body` or in `texts`, as its node says.
///
/// `nodes` and `texts` get as much as they have room for, and `nodes_used` and `texts_used` say how much it
/// is as a whole: where that is more, call again with more room. Of any other status both are 0.
#[unsafe(no_mangle)]
pub extern "C" fn order_value_with(
    alloc: Global,
    checker: &mut Room,
    body: &[u8],
    nodes: &mut [Node],
    nodes_used: &mut usize,
    texts: &mut [u8],
    texts_used: &mut usize,
) -> u8
    ensures { IsCode (λ s. IsValueOf
        ⟦<Body<'static> as Spelled>⟧.spelled ⟦<Body<'static> as Stated>⟧.visits
        body.now nodes.old nodes.new nodes_used.new texts.old texts.new texts_used.new s) result }
{
    let Ok(mut scratch) = checker.take_or_new(alloc) else {
        give_nothing(nodes, nodes_used, texts, texts_used);
        return Status::Memory as u8;
    };
    let status = value_of_order(
        alloc,
        body,
        &mut scratch,
        nodes,
        nodes_used,
        texts,
        texts_used,
    );
    checker.put(alloc, scratch);
    status as u8
}

/// Does what `order_check_with` does, and hands over the details as nodes too, as `order_value_with` does:
/// their texts lie in `texts`. The value is an object. Its last member is `errors`, a list with an object for
/// each fault: `pointer`, `detail`, `code` and `params`, in this order.
///
/// Give `out_len` 0 if you do not ask for the details as text: then they are not written, and `len` is 0. Where
/// there are no details, `nodes_used` and `texts_used` are 0.
///
/// Of ORDER_FAULTS `places` gets where in the body each fault is, in the order of `errors`, as far as it has
/// room, and `places_used` says how many faults there are. Give `places_len` 0 if you do not ask: then
/// nothing is looked for, and `places_used` is 0.
#[unsafe(no_mangle)]
pub extern "C" fn order_faults_with(
    alloc: Global,
    checker: &mut Room,
    body: &[u8],
    most: usize,
    language: &[u8],
    out: &mut [u8],
    len: &mut usize,
    nodes: &mut [Node],
    nodes_used: &mut usize,
    texts: &mut [u8],
    texts_used: &mut usize,
    places: &mut [Place],
    places_used: &mut usize,
) -> u8
    ensures { IsCode (λ s. AreFaultsIn
        ⟦<Body<'static> as Spelled>⟧.spelled ⟦<Body<'static> as Stated>⟧.visits
        (language_of language.now) most body.now out.old out.new len.new
        nodes.old nodes.new nodes_used.new texts.old texts.new texts_used.new
        places.old places.new places_used.new s) result }
{
    let language = Language::of(language);
    let Ok(mut scratch) = checker.take_or_new(alloc) else {
        give_no_faults(
            out,
            len,
            nodes,
            nodes_used,
            texts,
            texts_used,
            places,
            places_used,
        );
        return Status::Memory as u8;
    };
    let status = faults_of_order(
        alloc,
        body,
        &mut scratch,
        most,
        language,
        out,
        len,
        nodes,
        nodes_used,
        texts,
        texts_used,
        places,
        places_used,
    );
    checker.put(alloc, scratch);
    status as u8
}

/// Frees the room of a checker, and leaves it as it began. A second call does nothing.
#[unsafe(no_mangle)]
pub extern "C" fn order_free(alloc: Global, checker: &mut Room) {
    checker.free(alloc);
}
