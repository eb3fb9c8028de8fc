//! What is answered to the bytes of an order, in the language that is asked for.
ghost use Rattle.example_order.specs.Language.{AreFaultsIn, IsCheckedIn, IsListedIn, IsOrder, IsValueOf};

use crate::body::{Body, TITLE};
use crate::czech::Czech;
use crate::language::Language;
use garde::{DefaultI18n, Stated};
use garde_library::{
    Node, Place, Status, check_body, check_body_with_nodes, is_valid_body, list_body, value_of_body,
};
use garde_problem::WithCodes;
use garde_schema::{Scratch, Spelled};
use std::alloc::Global;

/// Checks the bytes of an order. `out` gets the problem details of what is wrong, cut where it ends,
/// and `len` says how long they are as a whole: `garde_library::check_body` says more. Sentences are in this
/// language, beside codes.
pub fn check_order(
    alloc: Global,
    body: &[u8],
    scratch: &mut Scratch,
    most: usize,
    language: Language,
    out: &mut [u8],
    len: &mut usize,
) -> Status
    ensures { IsCheckedIn ⟦<Body<'static> as Spelled>⟧.spelled ⟦<Body<'static> as Stated>⟧.visits
        language most body.now out.old out.new len.new result }
{
    match language {
        Language::English => {
            let h = WithCodes(DefaultI18n);
            check_body::<Body<'_>, _>(alloc, body, scratch, most, &h, TITLE, out, len)
        }
        Language::Czech => {
            let h = WithCodes(Czech);
            check_body::<Body<'_>, _>(alloc, body, scratch, most, &h, TITLE, out, len)
        }
    }
}

/// Checks the bytes of an order, and reports what is wrong in lines: `garde_library::list_body` says
/// more. Sentences are in this language.
pub fn list_order(
    alloc: Global,
    body: &[u8],
    scratch: &mut Scratch,
    most: usize,
    language: Language,
    out: &mut [u8],
    len: &mut usize,
) -> Status
    ensures { IsListedIn ⟦<Body<'static> as Spelled>⟧.spelled ⟦<Body<'static> as Stated>⟧.visits
        language most body.now out.old out.new len.new result }
{
    match language {
        Language::English => {
            list_body::<Body<'_>, _>(alloc, body, scratch, most, &DefaultI18n, out, len)
        }
        Language::Czech => {
            list_body::<Body<'_>, _>(alloc, body, scratch, most, &Czech, out, len)
        }
    }
}

/// Whether the bytes are those of an order without a fault, or how they are not. Reading ends at the
/// first fault.
pub fn is_order(alloc: Global, body: &[u8], scratch: &mut Scratch) -> Status
    ensures { IsOrder ⟦<Body<'static> as Spelled>⟧.spelled ⟦<Body<'static> as Stated>⟧.visits
        body.now result }
{
    is_valid_body::<Body<'_>, _>(alloc, body, scratch, &DefaultI18n)
}

/// Does what `check_order` does, and hands over the details as nodes too, and the places of the faults:
/// `garde_library::check_body_with_nodes` says more.
pub fn faults_of_order(
    alloc: Global,
    body: &[u8],
    scratch: &mut Scratch,
    most: usize,
    language: Language,
    out: &mut [u8],
    size: &mut usize,
    nodes: &mut [Node],
    count: &mut usize,
    texts: &mut [u8],
    len: &mut usize,
    places: &mut [Place],
    found: &mut usize,
) -> Status
    ensures { AreFaultsIn ⟦<Body<'static> as Spelled>⟧.spelled ⟦<Body<'static> as Stated>⟧.visits
        language most body.now out.old out.new size.new nodes.old nodes.new count.new
        texts.old texts.new len.new places.old places.new found.new result }
{
    match language {
        Language::English => {
            let h = WithCodes(DefaultI18n);
            check_body_with_nodes::<Body<'_>, _>(
                alloc, body, scratch, most, &h, TITLE, out, size, nodes, count, texts, len, places,
                found,
            )
        }
        Language::Czech => {
            let h = WithCodes(Czech);
            check_body_with_nodes::<Body<'_>, _>(
                alloc, body, scratch, most, &h, TITLE, out, size, nodes, count, texts, len, places,
                found,
            )
        }
    }
}

/// Whether the bytes are those of an order without a fault, as `is_order` says, and then the JSON value that was
/// judged: `garde_library::value_of_body` says more.
pub fn value_of_order(
    alloc: Global,
    body: &[u8],
    scratch: &mut Scratch,
    nodes: &mut [Node],
    count: &mut usize,
    texts: &mut [u8],
    len: &mut usize,
) -> Status
    ensures { IsValueOf ⟦<Body<'static> as Spelled>⟧.spelled ⟦<Body<'static> as Stated>⟧.visits
        body.now nodes.old nodes.new count.new texts.old texts.new len.new result }
{
    value_of_body::<Body<'_>, _>(alloc, body, scratch, &DefaultI18n, nodes, count, texts, len)
}
