//! Whether tables make a catalog, and what is wrong with them.
ghost use Rattle.std.specs.Prelude.{All, IfOk, IfErr, IsOk, OnOk};
ghost use Rattle.garde_catalog.specs.Catalog.{AreGood, AreTold, HasFault, IsFault, IsGood, IsListed, IsRefusal, IsTold, IsWrong, texts_of};
ghost use Rattle.garde_catalog.specs.Messages.{Message, message_of};

use crate::fault::{CatalogError, CatalogFault, Wrong};
use crate::lines::{Entry, text_of};
use crate::messages::{Message, messages};
use crate::template::check_template;
use std::alloc::{AllocError, Global};

// Whether a message has one text, which is a template, or what is wrong.
fn check(entries: &[Entry<'_>], others: &[Entry<'_>], message: &Message) -> Result<(), Wrong>
    ensures ok { OnOk result (IsGood entries.now others.now (message_of message.now)) }
    ensures err { IfErr result (IsWrong (texts_of entries.now others.now message.now.0.now)
        (message_of message.now)) }
{
    let (code, first, second) = *message;
    match check_template(text_of(entries, others, code)?, first, second) {
        Ok(()) => Ok(()),
        Err(fault) => Err(Wrong::Template(fault)),
    }
}

// Appends the fault of a message, if it has one.
fn add(
    entries: &[Entry<'_>],
    others: &[Entry<'_>],
    message: &Message,
    faults: &mut Vec<CatalogFault>,
) -> Result<(), AllocError>
    ensures told { OnOk result (IsTold entries.now others.now faults.new.items
        (message_of message.now)) }
    ensures kept { OnOk result ((m : Message) → HasFault faults.old.items m
        → HasFault faults.new.items m) }
    ensures faults { OnOk result (IsListed (message_of message.now)
        → All (IsFault entries.now others.now) faults.old.items
        → All (IsFault entries.now others.now) faults.new.items) }
    ensures good { IsGood entries.now others.now (message_of message.now) → IsOk result }
{
    if let Err(wrong) = check(entries, others, message) {
        let message = *message;
        faults.push(CatalogFault { message, wrong })?;
    }
    Ok(())
}

// The faults of a table, which takes from another one the texts of messages that it does not have.
fn faults_of(
    alloc: Global,
    entries: &[Entry<'_>],
    others: &[Entry<'_>],
) -> Result<Vec<CatalogFault>, AllocError>
    ensures told { IfOk result (λ faults. AreTold entries.now others.now faults.items) }
    ensures faults { IfOk result (λ faults. All (IsFault entries.now others.now) faults.items) }
    ensures good { AreGood entries.now others.now → IsOk result }
{
    let mut faults = Vec::new(alloc);
    let listed = messages();
    for message in listed {
        add(entries, others, message, &mut faults)?;
    }
    Ok(faults)
}

// That the tables are good, or why no catalog is made of them.
pub(crate) fn check_tables(
    alloc: Global,
    entries: &[Entry<'_>],
    others: &[Entry<'_>],
) -> Result<(), CatalogError>
    ensures ok { OnOk result (AreGood entries.now others.now) }
    ensures err { IfErr result (IsRefusal entries.now others.now) }
    ensures good { AreGood entries.now others.now → IsOk result }
{
    let faults = faults_of(alloc, entries, others)?;
    if faults.is_empty() {
        Ok(())
    } else {
        Err(CatalogError::Faults(faults))
    }
}
