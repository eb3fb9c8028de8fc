//! The value of a body, handed over as nodes.
ghost use Rattle.std.specs.Prelude.{◌≡◌, IfOk};
ghost use Rattle.garde_tape.specs.Input.{without_mark};
ghost use Rattle.garde_schema.specs.Bytes.{OfDocument};
ghost use Rattle.garde_schema.specs.FirstRead.{AnswersFirstBytes};
ghost use Rattle.garde_schema.specs.Forms.{forget};
ghost use Rattle.garde_schema.specs.Spelling.{SpellsValid};
ghost use Rattle.garde_library.specs.Checked.{IsVerdict};
ghost use Rattle.garde_library.specs.Nodes.{Spells};
ghost use Rattle.garde_library.specs.Value.{IsGivenAs, IsNotGiven};
ghost use Rattle.garde_library.specs.declared.status.Status.{Status as AStatus};
ghost use Rattle.garde_library.specs.declared.status.Status.TheVariants.{Valid};

use crate::answer::{hand_over, status_of};
use crate::node::Node;
use crate::read_tree::ReadTree;
use crate::status::Status;
use crate::walk::{Nodes, nodes_of};
use garde::I18n;
use garde_schema::{FirstReadError, FormI18n, Scratch, Tree, parse_bytes};
use std::alloc::{AllocError, Global};

// Judges a body, and makes the nodes of a valid one if there is memory: of the tree that was judged.
fn judge<'a, B: ReadTree<'a>, H: I18n + FormI18n>(
    alloc: Global,
    bytes: &'a [u8],
    scratch: &'a mut Scratch,
    h: &H,
) -> Result<Result<Nodes, AllocError>, FirstReadError>
    ensures answer { AnswersFirstBytes (λ j. B.spelled.visits (H.form_text h.now) j) (H.text h.now)
        0 (without_mark bytes.now) (forget result) }
    ensures valid { IfOk result (λ _. SpellsValid B.spelled B.visits bytes.now) }
    ensures nodes { IfOk result (λ nodes. IfOk nodes (λ made. OfDocument (without_mark bytes.now)
        (λ j. Spells bytes.now made.room.items made.nodes.items j))) }
{
    let tape = parse_bytes(alloc, bytes, scratch)?;
    match B::read_tree(alloc, &Tree::root(&tape), 0, h) {
        Ok(_) => Ok(nodes_of(alloc, bytes, &tape)),
        Err(error) => Err(FirstReadError::from(error)),
    }
}

// Hands over the nodes of valid bytes and their texts; or nothing, where there was no memory for them.
pub(crate) fn give(
    bytes: &[u8],
    found: &Result<Nodes, AllocError>,
    nodes: &mut [Node],
    count: &mut usize,
    texts: &mut [u8],
    len: &mut usize,
) -> Status
    requires { IfOk found.now (λ made. OfDocument (without_mark bytes.now)
        (λ j. Spells bytes.now made.room.items made.nodes.items j)) }
    ensures { IsGivenAs Valid bytes.now
        nodes.old nodes.new count.new texts.old texts.new len.new result }
{
    // The bytes are read by the contract alone.
    let _ = bytes;
    match found {
        Ok(made) => {
            hand_over(made.nodes.as_slice(), nodes, count);
            hand_over(made.room.as_slice(), texts, len);
            Status::Valid
        }
        Err(_) => {
            give_nothing(nodes, count, texts, len);
            Status::Memory
        }
    }
}

/// Whether the bytes of a body have a fault, or how they are not read, as `is_valid_body` says. Where there is
/// none the JSON value that was judged is handed over: its nodes, and those of its texts that the bytes have
/// with an escape. It is as much of them as there is room for, and how many they are. Else, or where memory
/// runs out, nothing is handed over.
pub fn value_of_body<'a, B: ReadTree<'a>, H: I18n + FormI18n>(
    alloc: Global,
    bytes: &'a [u8],
    scratch: &'a mut Scratch,
    h: &H,
    nodes: &mut [Node],
    count: &mut usize,
    texts: &mut [u8],
    len: &mut usize,
) -> Status
    ensures { (judged : AStatus) × IsVerdict (λ j. B.spelled.visits (H.form_text h.now) j) (H.text h.now)
        bytes.now judged × (judged ≡ Valid → SpellsValid B.spelled B.visits bytes.now)
        × IsGivenAs judged bytes.now nodes.old nodes.new count.new texts.old texts.new len.new result }
{
    match judge::<B, H>(alloc, bytes, scratch, h) {
        Ok(found) => give(bytes, &found, nodes, count, texts, len),
        Err(error) => {
            give_nothing(nodes, count, texts, len);
            status_of(&Err(error))
        }
    }
}

/// Hands over neither nodes nor texts.
pub fn give_nothing(nodes: &mut [Node], count: &mut usize, texts: &mut [u8], len: &mut usize)
    ensures { IsNotGiven nodes.old nodes.new count.new texts.old texts.new len.new }
{
    hand_over(&[], nodes, count);
    hand_over(&[], texts, len);
}
