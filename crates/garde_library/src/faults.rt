//! The faults of bytes, handed over.
ghost use Rattle.std.specs.Prelude.{◌≡◌, IfOk, IsOk, string_bytes};
ghost use Rattle.garde_library.specs.Faults.{AreFaults, IsNoFault, text_in};
ghost use Rattle.garde_library.specs.declared.status.Status.TheVariants.{Valid};

use crate::answer::{hand_over, status_of};
use crate::detail_nodes::nodes_of_details;
use crate::details::details_of;
use crate::node::Node;
use crate::place::Place;
use crate::places::find_places;
use crate::status::Status;
use crate::value::give_nothing;
use garde_schema::FirstReadError;
use std::alloc::{AllocError, Global};

// The text of the details if there is room for a byte of it.
fn text_in(
    alloc: Global,
    room: usize,
    title: &str,
    read: &Result<(), FirstReadError>,
) -> Result<String, AllocError>
    ensures { IfOk result (λ text. string_bytes text ≡ text_in room title.now read.now) }
{
    if room == 0 {
        Ok(String::new(alloc))
    } else {
        details_of(alloc, title, read)
    }
}

/// Hands over the faults of the result of reading bytes, and returns its status: the text of the problem
/// details if there is room for a byte of it, their nodes, and the places if there is room for one.
pub(crate) fn give_faults(
    alloc: Global,
    bytes: &[u8],
    title: &str,
    read: &Result<(), FirstReadError>,
    out: &mut [u8],
    size: &mut usize,
    nodes: &mut [Node],
    count: &mut usize,
    texts: &mut [u8],
    len: &mut usize,
    places: &mut [Place],
    found: &mut usize,
) -> Status
    ensures given { AreFaults title.now bytes.now read.now out.old out.new size.new
        nodes.old nodes.new count.new texts.old texts.new len.new places.old places.new found.new result }
    ensures valid { result ≡ Valid → IsOk read.now }
{
    let text = text_in(alloc, out.len(), title, read);
    let made = nodes_of_details(alloc, title, read);
    let placed = find_places(alloc, bytes, read, places.len());
    if let (Ok(text), Ok(made), Ok(placed)) = (text, made, placed) {
        hand_over(text.as_str().as_bytes(), out, size);
        hand_over(made.nodes.as_slice(), nodes, count);
        hand_over(made.room.as_slice(), texts, len);
        hand_over(placed.as_slice(), places, found);
        status_of(read)
    } else {
        give_no_faults(out, size, nodes, count, texts, len, places, found);
        Status::Memory
    }
}

/// Hands over neither a text nor nodes nor places.
pub fn give_no_faults(
    out: &mut [u8],
    size: &mut usize,
    nodes: &mut [Node],
    count: &mut usize,
    texts: &mut [u8],
    len: &mut usize,
    places: &mut [Place],
    found: &mut usize,
)
    ensures { IsNoFault out.old out.new size.new
        nodes.old nodes.new count.new texts.old texts.new len.new places.old places.new found.new }
{
    hand_over(b"", out, size);
    give_nothing(nodes, count, texts, len);
    hand_over(&[], places, found);
}
