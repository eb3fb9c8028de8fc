//! What is answered to bytes.
ghost use Rattle.std.specs.Prelude.{◌≡◌, IsOk};
ghost use Rattle.garde_tape.specs.Input.{without_mark};
ghost use Rattle.garde_schema.specs.FirstRead.{AnswersFirstBytes};
ghost use Rattle.garde_library.specs.Checked.{IsChecked, IsHanded, IsListed, IsOutOfMemory, IsToldBy, IsVerdict, status_of, told};
ghost use Rattle.garde_library.specs.declared.status.Status.TheVariants.{Valid};

use crate::status::Status;
use crate::telling::{Telling, text_of};
use garde::I18n;
use garde_schema::{FirstReadError, Form, FormI18n, Scratch, read_json_first};
use std::alloc::Global;

/// Hands over items, for example the bytes of a text: as many as there is room for, and how many they
/// are.
pub(crate) fn hand_over<T: Copy>(items: &[T], out: &mut [T], len: &mut usize)
    ensures { IsHanded items.now out.old out.new len.new }
{
    *len = items.len();
    let room = items.len().min(out.len());
    out[..room].copy_from_slice(&items[..room]);
}

/// Says that memory ran out, and hands over nothing.
pub fn out_of_memory(out: &mut [u8], len: &mut usize) -> Status
    ensures { IsOutOfMemory out.old out.new len.new result }
{
    hand_over(b"", out, len);
    Status::Memory
}

/// The status of the result of reading.
pub(crate) fn status_of(read: &Result<(), FirstReadError>) -> Status
    ensures told { result ≡ status_of read.now }
    ensures valid { result ≡ Valid → IsOk read.now }
{
    match read {
        Ok(()) => Status::Valid,
        Err(FirstReadError::All(_) | FirstReadError::First(_)) => Status::Faults,
        Err(FirstReadError::Parse(_)) => Status::NoJson,
        Err(FirstReadError::Memory) => Status::Memory,
    }
}

/// Reads bytes by a form, and lets the value go.
pub(crate) fn read<'a, F: Form<'a>, H: I18n + FormI18n>(
    alloc: Global,
    bytes: &'a [u8],
    scratch: &'a mut Scratch,
    form: &F,
    most: usize,
    h: &H,
) -> Result<(), FirstReadError>
    ensures { AnswersFirstBytes (λ j. F.visits form.now (H.form_text h.now) j) (H.text h.now)
        most (without_mark bytes.now) result }
{
    match read_json_first(alloc, bytes, scratch, form, most, h) {
        Ok(_) => Ok(()),
        Err(error) => Err(error),
    }
}

/// Hands over a text of the result of reading.
pub(crate) fn tell(
    alloc: Global,
    telling: Telling<'_>,
    read: &Result<(), FirstReadError>,
    out: &mut [u8],
    len: &mut usize,
) -> Status
    ensures told { IsToldBy (told telling.entry) read.now out.old out.new len.new result }
    ensures valid { result ≡ Valid → IsOk read.now }
{
    match text_of(alloc, telling, read) {
        Ok(text) => {
            hand_over(text.as_str().as_bytes(), out, len);
            status_of(read)
        }
        Err(_) => out_of_memory(out, len),
    }
}

/// Checks bytes by a form. `out` gets the problem details of what is wrong under this title, cut where
/// it ends, and `len` says how long they are as a whole. Of valid bytes there are none, nor where
/// memory runs out.
///
/// The details have at most so many faults, with the messages of the handler: `WithCodes` of
/// `garde_problem` gives them codes beside sentences. Where there are more, the member `detail` says
/// so. That not even one fault is asked for is `Status::WrongArgument`.
pub fn check_json<'a, F: Form<'a>, H: I18n + FormI18n>(
    alloc: Global,
    bytes: &'a [u8],
    scratch: &'a mut Scratch,
    form: &F,
    most: usize,
    h: &H,
    title: &str,
    out: &mut [u8],
    len: &mut usize,
) -> Status
    ensures { IsChecked (λ j. F.visits form.now (H.form_text h.now) j) (H.text h.now)
        most title.now bytes.now out.old out.new len.new result }
{
    if most == 0 {
        hand_over(b"", out, len);
        return Status::WrongArgument;
    }
    let read = read(alloc, bytes, scratch, form, most, h);
    tell(alloc, Telling::Details(title), &read, out, len)
}

/// Checks bytes by a form, as `check_json` does, and reports what is wrong in lines: `out` gets a line
/// `path: message` for each fault, as a report prints itself, and `there are more` where there are. Of
/// bytes that are no JSON text the line says why, and where.
///
/// It takes less time than problem details, with a handler whose messages have no codes.
pub fn list_json<'a, F: Form<'a>, H: I18n + FormI18n>(
    alloc: Global,
    bytes: &'a [u8],
    scratch: &'a mut Scratch,
    form: &F,
    most: usize,
    h: &H,
    out: &mut [u8],
    len: &mut usize,
) -> Status
    ensures { IsListed (λ j. F.visits form.now (H.form_text h.now) j) (H.text h.now)
        most bytes.now out.old out.new len.new result }
{
    if most == 0 {
        hand_over(b"", out, len);
        return Status::WrongArgument;
    }
    let read = read(alloc, bytes, scratch, form, most, h);
    tell(alloc, Telling::Lines, &read, out, len)
}

/// Whether bytes have a fault by a form, or how they are not read. Reading ends at the first fault.
pub fn is_valid_json<'a, F: Form<'a>, H: I18n + FormI18n>(
    alloc: Global,
    bytes: &'a [u8],
    scratch: &'a mut Scratch,
    form: &F,
    h: &H,
) -> Status
    ensures { IsVerdict (λ j. F.visits form.now (H.form_text h.now) j) (H.text h.now)
        bytes.now result }
{
    let read = read(alloc, bytes, scratch, form, 0, h);
    status_of(&read)
}
