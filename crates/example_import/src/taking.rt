//! What is made of one item of a list.
ghost use Rattle.std.specs.Prelude.{◌≡◌, false, [], ◌∷◌, ◌++◌, IfOk, OnOk, IsTrue};
ghost use Rattle.garde.specs.Visits.{Known};
ghost use Rattle.garde.specs.Words.{index_part};
ghost use Rattle.example_import.specs.Row.{row_visits};
ghost use Rattle.example_import.specs.Import.{flaw_text, stored_before, IsReport, Takes};

use crate::item::{Flaw, Item};
use crate::row::Row;
use crate::store::Store;
use garde::{Component, Error, I18n, Path, Report, Trail, Valid, Validate, ValidateError};
use std::alloc::{AllocError, Global};

/// Why an item was not taken.
#[derive(Drop)]
pub enum TakeError<E> {
    Memory,
    Store(E),
}

/// The trail to the item with this index.
fn trail_to<'a>(alloc: Global, index: usize) -> Result<Trail<'a>, AllocError>
    ensures { IfOk result (λ trail. trail.components ≡ index_part index ∷ []) }
{
    let mut trail = Trail::new(alloc);
    trail.push(Component::index(index))?;
    Ok(trail)
}

/// What the rules find in a row, under its index.
fn faults_of<H: I18n>(alloc: Global, index: usize, row: &Row, h: &H) -> Result<Report, AllocError>
    ensures report { IfOk result (λ report. IsReport (H.text h.now) index row.now false report) }
    ensures known { IfOk result (λ report. report ≡ [] → Known (row_visits row.now)) }
{
    let mut trail = trail_to(alloc, index)?;
    match row.validate_on(&(), &mut trail, h) {
        Ok(()) => Ok(Report::new(alloc)),
        Err(ValidateError::Report(report)) => Ok(report),
        Err(ValidateError::Memory) => Err(AllocError),
    }
}

/// Adds the fault of a row whose code the table has.
fn add_code_fault(alloc: Global, index: usize, report: &mut Report) -> Result<(), AllocError>
    ensures { OnOk result (report.new ≡ report.old ++ stored_before index ∷ []) }
{
    let row = Path::new(alloc, index)?;
    match row.join(alloc, "code") {
        Ok(code) => report.append(code, Error::new(alloc, "stored before")?),
        Err(_) => Err(AllocError),
    }
}

/// Every fault of a row, under its index: those of its rules, and then that of its code, if the
/// table has it.
fn report_of<H: I18n>(
    alloc: Global,
    index: usize,
    row: &Row,
    is_stored: bool,
    h: &H,
) -> Result<Report, AllocError>
    ensures report { IfOk result (λ report. IsReport (H.text h.now) index row.now is_stored report) }
    ensures known { IfOk result (λ report. report ≡ [] → Known (row_visits row.now)) }
{
    let mut report = faults_of(alloc, index, row, h)?;
    if is_stored {
        add_code_fault(alloc, index, &mut report)?;
    }
    Ok(report)
}

/// The report of a record that is no row.
fn report_of_flaw(alloc: Global, index: usize, flaw: Flaw) -> Result<Report, AllocError>
    ensures { IfOk result (λ report. report ≡ (index_part index ∷ [], flaw_text flaw) ∷ []) }
{
    let mut report = Report::new(alloc);
    let text = format!(in alloc; "{flaw}")?;
    report.append(Path::new(alloc, index)?, Error::new(alloc, text.as_str())?)?;
    Ok(report)
}

/// Puts a row into the table if it has no fault, and returns its report.
fn take_row<S: Store, H: I18n>(
    alloc: Global,
    store: &mut S,
    index: usize,
    row: Row,
    h: &H,
) -> Result<Report, TakeError<S::Error>>
    requires begun { S.is_sound store.old → IsTrue (S.has_begun store.old) }
    ensures sound { S.is_sound store.new → S.is_sound store.old }
    ensures ok { S.is_sound store.new → IfOk result (λ report.
        Takes (H.text h.now) index (S.lines store.old) (Item.Row row) report (S.lines store.new)) }
    ensures begun { S.is_sound store.new → OnOk result (IsTrue (S.has_begun store.new)) }
    ensures kept { S.is_sound store.new → S.kept store.new ≡ S.kept store.old }
{
    let is_stored = match store.has_code(row.code.as_str()) {
        Ok(is_stored) => is_stored,
        Err(error) => return Err(TakeError::Store(error)),
    };
    let report = match report_of(alloc, index, &row, is_stored, h) {
        Ok(report) => report,
        Err(_) => return Err(TakeError::Memory),
    };
    if report.is_empty() {
        match store.insert(&Valid::known(row, &())) {
            Ok(()) => {}
            Err(error) => return Err(TakeError::Store(error)),
        }
    }
    Ok(report)
}

/// Puts the row of an item into the table if it has no fault, and returns the report of the item.
pub fn take<S: Store, H: I18n>(
    alloc: Global,
    store: &mut S,
    index: usize,
    item: Item,
    h: &H,
) -> Result<Report, TakeError<S::Error>>
    requires begun { S.is_sound store.old → IsTrue (S.has_begun store.old) }
    ensures sound { S.is_sound store.new → S.is_sound store.old }
    ensures ok { S.is_sound store.new → IfOk result (λ report.
        Takes (H.text h.now) index (S.lines store.old) item report (S.lines store.new)) }
    ensures begun { S.is_sound store.new → OnOk result (IsTrue (S.has_begun store.new)) }
    ensures kept { S.is_sound store.new → S.kept store.new ≡ S.kept store.old }
{
    match item {
        Item::Row(row) => take_row(alloc, store, index, row, h),
        Item::Broken(flaw) => match report_of_flaw(alloc, index, flaw) {
            Ok(report) => Ok(report),
            Err(_) => Err(TakeError::Memory),
        },
    }
}
