//! The bytes of a record, a run at a time.
ghost use Rattle.std.specs.Prelude.{◌≡◌, ◌≤◌, ◌<◌, ◌++◌, ◌∷◌, [], ℕ, List, drop, length, true, false, IfErr, IfOk, OnOk};
ghost use Rattle.csv.specs.Machine.{field_after, fields_after, is_end};
ghost use Rattle.csv.specs.Records.{fields_of, partial_of};
ghost use Rattle.garde_csv.specs.Lists.{is_cause};
ghost use Rattle.garde_csv.specs.Places.{action_of};
ghost use Rattle.garde_csv.specs.Quotes.{seen_of};
ghost use Rattle.garde_csv.specs.Steps.{Reads};

use crate::list_error::ListError;
use crate::place::Action;
use crate::run::run_end;
use crate::walk::Walk;
use csv::ByteRecord;

/// How much of a text was read.
#[derive(Clone, Copy)]
pub(crate) struct Fed {
    /// How many bytes.
    pub(crate) taken: usize,
    /// Whether the last one ended the record.
    pub(crate) ended: bool,
}

// Ends the cell whose last bytes are these. It is copied once, if it lies whole in the text.
#[inline(always)]
fn push_cell(run: &[u8], cell: &mut Vec<u8>, cells: &mut ByteRecord) -> Result<(), ListError>
    requires { partial_of cells.old ≡ [] }
    ensures fields { OnOk result (fields_of cells.new ≡ fields_of cells.old ++ (cell.old.items ++ run.now) ∷ []) }
    ensures field { OnOk result (cell.new.items ≡ []) }
    ensures partial { OnOk result (partial_of cells.new ≡ []) }
    ensures why { IfErr result (λ error. is_cause error ≡ true) }
{
    if cell.is_empty() {
        cells.push_field(run)?;
        return Ok(());
    }
    cell.extend_from_slice(run)?;
    cells.push_field(cell.as_slice())?;
    cell.clear();
    Ok(())
}

// Does with a run and the byte behind it what is to be done. The answer is whether the record has
// ended.
#[inline(always)]
fn apply(
    action: Action,
    run: &[u8],
    byte: u8,
    cell: &mut Vec<u8>,
    cells: &mut ByteRecord,
) -> Result<bool, ListError>
    requires { partial_of cells.old ≡ [] }
    ensures ends { IfOk result (λ ended. ended ≡ is_end (action_of action)) }
    ensures fields { OnOk result (fields_of cells.new ≡ fields_after (action_of action) (fields_of cells.old) (cell.old.items ++ run.now)) }
    ensures field { OnOk result (cell.new.items ≡ field_after (action_of action) byte (cell.old.items ++ run.now)) }
    ensures partial { OnOk result (partial_of cells.new ≡ []) }
    ensures why { IfErr result (λ error. is_cause error ≡ true) }
{
    match action {
        Action::EndCell | Action::EndRecord => {
            push_cell(run, cell, cells)?;
            Ok(action == Action::EndRecord)
        }
        Action::Skip => {
            cell.extend_from_slice(run)?;
            Ok(false)
        }
        Action::Keep => {
            cell.extend_from_slice(run)?;
            match cell.push(byte) {
                Ok(()) => Ok(false),
                Err(_) => Err(ListError::Memory),
            }
        }
    }
}

// Reads the run that begins a text, and the byte behind it.
#[inline(always)]
fn part(
    walk: &mut Walk,
    text: &[u8],
    cell: &mut Vec<u8>,
    cells: &mut ByteRecord,
) -> Result<Fed, ListError>
    requires { partial_of cells.old ≡ [] }
    ensures taken { IfOk result (λ fed. fed.taken ≤ length text.now) }
    ensures some { IfOk result (λ fed. 0 < length text.now → 0 < fed.taken) }
    ensures partial { OnOk result (partial_of cells.new ≡ []) }
    ensures why { IfErr result (λ error. is_cause error ≡ true) }
    ensures reads { IfOk result (λ fed. Reads (seen_of walk.old) (fields_of cells.old) cell.old.items text.now
        (seen_of walk.new) (fields_of cells.new) cell.new.items (drop fed.taken text.now) fed.ended) }
{
    let end = run_end(text);
    let run = &text[..end];
    walk.join(end);
    if end == text.len() {
        cell.extend_from_slice(run)?;
        return Ok(Fed {
            taken: end,
            ended: false,
        });
    }
    let byte = text[end];
    let action = walk.step(byte);
    let ended = apply(action, run, byte, cell, cells)?;
    Ok(Fed {
        taken: end + 1,
        ended,
    })
}

/// Reads a text up to the end of the record, or all of it. The cell at hand may have begun before.
#[inline(never)]
pub(crate) fn feed(
    walk: &mut Walk,
    text: &[u8],
    cell: &mut Vec<u8>,
    cells: &mut ByteRecord,
) -> Result<Fed, ListError>
    requires { partial_of cells.old ≡ [] }
    ensures taken { IfOk result (λ fed. fed.taken ≤ length text.now) }
    ensures partial { OnOk result (partial_of cells.new ≡ []) }
    ensures why { IfErr result (λ error. is_cause error ≡ true) }
    ensures reads { IfOk result (λ fed. Reads (seen_of walk.old) (fields_of cells.old) cell.old.items text.now
        (seen_of walk.new) (fields_of cells.new) cell.new.items (drop fed.taken text.now) fed.ended) }
{
    let mut at = 0;
    'parts: while at < text.len() {
        let fed = part(walk, &text[at..], cell, cells)?;
        at += fed.taken;
        if fed.ended {
            return Ok(Fed {
                taken: at,
                ended: true,
            });
        }
    }
    Ok(Fed {
        taken: at,
        ended: false,
    })
}
