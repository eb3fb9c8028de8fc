//! What is answered to the bytes of a body.
ghost use Rattle.std.specs.Prelude.{◌≡◌, IfOk};
ghost use Rattle.garde_tape.specs.Input.{without_mark};
ghost use Rattle.garde_schema.specs.FirstRead.{AnswersFirstBytes};
ghost use Rattle.garde_library.specs.Checked.{IsChecked, IsListed, IsVerdict};
ghost use Rattle.garde_library.specs.Faults.{IsCheckedWithNodes};
ghost use Rattle.garde_schema.specs.Spelling.{SpellsValid};
ghost use Rattle.garde_library.specs.declared.status.Status.TheVariants.{Valid};

use crate::answer::{hand_over, status_of, tell};
use crate::faults::{give_faults, give_no_faults};
use crate::node::Node;
use crate::place::Place;
use crate::read_tree::ReadTree;
use crate::status::Status;
use crate::telling::Telling;
use garde::I18n;
use garde_schema::{FirstReadError, FormI18n, Scratch, Tree, parse_bytes};
use std::alloc::Global;

/// Reads a body, and lets the value go.
fn read<'a, B: ReadTree<'a>, H: I18n + FormI18n>(
    alloc: Global,
    bytes: &'a [u8],
    scratch: &'a mut Scratch,
    most: usize,
    h: &H,
) -> Result<(), FirstReadError>
    ensures answer { AnswersFirstBytes (λ j. B.spelled.visits (H.form_text h.now) j) (H.text h.now)
        most (without_mark bytes.now) result }
    ensures valid { IfOk result (λ _. SpellsValid B.spelled B.visits bytes.now) }
{
    let tape = parse_bytes(alloc, bytes, scratch)?;
    match B::read_tree(alloc, &Tree::root(&tape), most, h) {
        Ok(_) => Ok(()),
        Err(error) => Err(FirstReadError::from(error)),
    }
}

/// Checks the bytes of a body. It answers as `check_json` does, and `Status::Valid` only where the
/// bytes spell a value of the type without a fault.
pub fn check_body<'a, B: ReadTree<'a>, H: I18n + FormI18n>(
    alloc: Global,
    bytes: &'a [u8],
    scratch: &'a mut Scratch,
    most: usize,
    h: &H,
    title: &str,
    out: &mut [u8],
    len: &mut usize,
) -> Status
    ensures answer { IsChecked (λ j. B.spelled.visits (H.form_text h.now) j) (H.text h.now)
        most title.now bytes.now out.old out.new len.new result }
    ensures valid { result ≡ Valid → SpellsValid B.spelled B.visits bytes.now }
{
    if most == 0 {
        hand_over(b"", out, len);
        return Status::WrongArgument;
    }
    let read = read::<B, H>(alloc, bytes, scratch, most, h);
    tell(alloc, Telling::Details(title), &read, out, len)
}

/// Checks the bytes of a body, as `check_body` does, and hands over the details as nodes too, with the place of
/// each fault in their order: as many as there is room for, and how many they are. With no room for a byte of
/// the details they are not written, and `size` is 0. With no room for a place none is looked for.
pub fn check_body_with_nodes<'a, B: ReadTree<'a>, H: I18n + FormI18n>(
    alloc: Global,
    bytes: &'a [u8],
    scratch: &'a mut Scratch,
    most: usize,
    h: &H,
    title: &str,
    out: &mut [u8],
    size: &mut usize,
    nodes: &mut [Node],
    count: &mut usize,
    texts: &mut [u8],
    len: &mut usize,
    places: &mut [Place],
    found: &mut usize,
) -> Status
    ensures answer { IsCheckedWithNodes (λ j. B.spelled.visits (H.form_text h.now) j) (H.text h.now)
        most title.now bytes.now out.old out.new size.new nodes.old nodes.new count.new
        texts.old texts.new len.new places.old places.new found.new result }
    ensures valid { result ≡ Valid → SpellsValid B.spelled B.visits bytes.now }
{
    if most == 0 {
        give_no_faults(out, size, nodes, count, texts, len, places, found);
        return Status::WrongArgument;
    }
    let read = read::<B, H>(alloc, bytes, scratch, most, h);
    give_faults(
        alloc, bytes, title, &read, out, size, nodes, count, texts, len, places, found,
    )
}

/// Checks the bytes of a body, and reports what is wrong in lines. It answers as `list_json` does, and
/// `Status::Valid` only where the bytes spell a value of the type without a fault.
pub fn list_body<'a, B: ReadTree<'a>, H: I18n + FormI18n>(
    alloc: Global,
    bytes: &'a [u8],
    scratch: &'a mut Scratch,
    most: usize,
    h: &H,
    out: &mut [u8],
    len: &mut usize,
) -> Status
    ensures answer { IsListed (λ j. B.spelled.visits (H.form_text h.now) j) (H.text h.now)
        most bytes.now out.old out.new len.new result }
    ensures valid { result ≡ Valid → SpellsValid B.spelled B.visits bytes.now }
{
    if most == 0 {
        hand_over(b"", out, len);
        return Status::WrongArgument;
    }
    let read = read::<B, H>(alloc, bytes, scratch, most, h);
    tell(alloc, Telling::Lines, &read, out, len)
}

/// Whether the bytes of a body have a fault, or how they are not read. Reading ends at the first fault.
pub fn is_valid_body<'a, B: ReadTree<'a>, H: I18n + FormI18n>(
    alloc: Global,
    bytes: &'a [u8],
    scratch: &'a mut Scratch,
    h: &H,
) -> Status
    ensures answer { IsVerdict (λ j. B.spelled.visits (H.form_text h.now) j) (H.text h.now)
        bytes.now result }
    ensures valid { result ≡ Valid → SpellsValid B.spelled B.visits bytes.now }
{
    let read = read::<B, H>(alloc, bytes, scratch, 0, h);
    status_of(&read)
}
