//! What is answered to bytes by a form, as nodes.
ghost use Rattle.std.specs.Prelude.{◌≡◌, IfOk};
ghost use Rattle.garde_tape.specs.Input.{without_mark};
ghost use Rattle.garde_schema.specs.Bytes.{OfDocument};
ghost use Rattle.garde_schema.specs.FirstRead.{AnswersFirstBytes};
ghost use Rattle.garde_schema.specs.Forms.{forget};
ghost use Rattle.garde_library.specs.Checked.{IsVerdict};
ghost use Rattle.garde_library.specs.Faults.{IsCheckedWithNodes};
ghost use Rattle.garde_library.specs.Nodes.{Spells};
ghost use Rattle.garde_library.specs.Value.{IsGivenAs};
ghost use Rattle.garde_library.specs.declared.status.Status.{Status as AStatus};

use crate::answer::{read, status_of};
use crate::faults::{give_faults, give_no_faults};
use crate::node::Node;
use crate::place::Place;
use crate::status::Status;
use crate::value::{give, give_nothing};
use crate::walk::{Nodes, nodes_of};
use garde::I18n;
use garde_schema::{FirstReadError, Form, FormI18n, Scratch, Tree, parse_bytes, read_first};
use std::alloc::{AllocError, Global};

/// Checks bytes by a form, as `check_json` does, and hands over the details as nodes too, with the place of
/// each fault in their order: as many as there is room for, and how many they are. With no room for a byte of
/// the details they are not written, and `size` is 0. With no room for a place none is looked for.
pub fn check_json_with_nodes<'a, F: Form<'a>, H: I18n + FormI18n>(
    alloc: Global,
    bytes: &'a [u8],
    scratch: &'a mut Scratch,
    form: &F,
    most: usize,
    h: &H,
    title: &str,
    out: &mut [u8],
    size: &mut usize,
    nodes: &mut [Node],
    count: &mut usize,
    texts: &mut [u8],
    len: &mut usize,
    places: &mut [Place],
    found: &mut usize,
) -> Status
    ensures { IsCheckedWithNodes (λ j. F.visits form.now (H.form_text h.now) j) (H.text h.now)
        most title.now bytes.now out.old out.new size.new nodes.old nodes.new count.new
        texts.old texts.new len.new places.old places.new found.new result }
{
    if most == 0 {
        give_no_faults(out, size, nodes, count, texts, len, places, found);
        return Status::WrongArgument;
    }
    let read = read(alloc, bytes, scratch, form, most, h);
    give_faults(
        alloc, bytes, title, &read, out, size, nodes, count, texts, len, places, found,
    )
}

// Judges bytes by a form, and makes the nodes of valid ones if there is memory: of the tree that was judged.
fn judge<'a, F: Form<'a>, H: I18n + FormI18n>(
    alloc: Global,
    bytes: &'a [u8],
    scratch: &'a mut Scratch,
    form: &F,
    h: &H,
) -> Result<Result<Nodes, AllocError>, FirstReadError>
    ensures answer { AnswersFirstBytes (λ j. F.visits form.now (H.form_text h.now) j) (H.text h.now)
        0 (without_mark bytes.now) (forget result) }
    ensures nodes { IfOk result (λ nodes. IfOk nodes (λ made. OfDocument (without_mark bytes.now)
        (λ j. Spells bytes.now made.room.items made.nodes.items j))) }
{
    let tape = parse_bytes(alloc, bytes, scratch)?;
    match read_first(alloc, form, &Tree::root(&tape), 0, h) {
        Ok(_) => Ok(nodes_of(alloc, bytes, &tape)),
        Err(error) => Err(FirstReadError::from(error)),
    }
}

/// Whether bytes have a fault by a form, or how they are not read, as `is_valid_json` says. Where there is none
/// the JSON value that was judged is handed over: its nodes, and those of its texts that the bytes have with an
/// escape. It is as much of them as there is room for, and how many they are. Else, or where memory runs out,
/// nothing is handed over.
pub fn value_of_json<'a, F: Form<'a>, H: I18n + FormI18n>(
    alloc: Global,
    bytes: &'a [u8],
    scratch: &'a mut Scratch,
    form: &F,
    h: &H,
    nodes: &mut [Node],
    count: &mut usize,
    texts: &mut [u8],
    len: &mut usize,
) -> Status
    ensures { (judged : AStatus) × IsVerdict (λ j. F.visits form.now (H.form_text h.now) j) (H.text h.now)
        bytes.now judged
        × IsGivenAs judged bytes.now nodes.old nodes.new count.new texts.old texts.new len.new result }
{
    match judge(alloc, bytes, scratch, form, h) {
        Ok(found) => give(bytes, &found, nodes, count, texts, len),
        Err(error) => {
            give_nothing(nodes, count, texts, len);
            status_of(&Err(error))
        }
    }
}
