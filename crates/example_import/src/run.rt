//! The import of a whole list.
ghost use Rattle.std.specs.Prelude.{◌≡◌, ◌⊎◌, ⊤, ℕ, ◌+◌, ◌-◌, ◌<◌, ◌≤◌, ◌^◌, None, List, IfOk, OnOk, OnErr, IfErr, IsTrue, MatchOption, MatchBool};
ghost use Rattle.example_import.specs.Line.{Line};
ghost use Rattle.example_import.specs.Run.{Ran, Goes, Ended, Halts, KeepsFront, StopsAt, is_full, is_all, new_run, counted, committed};

use crate::item::{Sink, Source};
use crate::store::Store;
use crate::taking::{TakeError, take};
use garde::I18n;
use std::alloc::Global;

/// When an import keeps what it stored.
#[derive(Clone, Copy, Debug)]
pub enum Batch {
    /// After every so many items of the list, and at its end.
    Items(usize),
    /// At the end of the list, if no item has a fault.
    All,
}

impl Batch {
    fn is_all(self) -> bool
        ensures { result ≡ is_all self }
    {
        match self {
            Batch::Items(_) => false,
            Batch::All => true,
        }
    }

    /// Whether what was stored is kept after so many items.
    fn is_full(self, items: usize) -> bool
        ensures { result ≡ is_full self items }
    {
        match self {
            Batch::Items(most) => most != 0 && items % most == 0,
            Batch::All => false,
        }
    }
}

/// How many items of a list were taken, and how many rows were stored of them.
#[derive(Clone, Copy)]
pub struct Progress {
    pub items: usize,
    pub stored: usize,
}

/// Why an import ended before the list did.
#[derive(Drop)]
pub enum Cause<L, S, R> {
    /// There is no memory for the report of the item that was read last. It was not handed on.
    Memory,
    /// The list cannot be read on. The reports of its items up to there were handed on.
    List(L),
    Store(S),
    Report(R),
    /// The list has 2^64 items.
    TooLong,
}

/// An import that ended before the list did: what the table keeps of it, and why.
#[derive(Drop)]
pub struct Stopped<L, S, R> {
    pub kept: Progress,
    pub cause: Cause<L, S, R>,
}

/// How many rows were stored so far, whether an item had a fault, and what is kept.
#[derive(Clone, Copy)]
pub struct Run {
    pub(crate) stored: usize,
    pub(crate) faulty: bool,
    pub(crate) kept: Progress,
}

impl Run {
    fn new() -> Run
        ensures { result ≡ new_run }
    {
        Run {
            stored: 0,
            faulty: false,
            kept: Progress {
                items: 0,
                stored: 0,
            },
        }
    }

    /// All that was stored of so many items is kept now.
    fn commit(&mut self, items: usize)
        ensures { self.new ≡ committed items self.old }
    {
        self.kept = Progress {
            items,
            stored: self.stored,
        };
    }

    fn stopped<L, S, R>(self, cause: Cause<L, S, R>) -> Stopped<L, S, R>
        ensures { (result.kept ≡ self.kept) × (result.cause ≡ cause) }
    {
        Stopped {
            kept: self.kept,
            cause,
        }
    }

    /// Counts an item with a fault, or one without, whose row was stored.
    fn count(&mut self, faulty: bool)
        requires { self.old.stored < 2 ^ 64 - 1 }
        ensures { self.new ≡ counted faulty self.old }
    {
        if faulty {
            self.faulty = true;
        } else {
            self.stored += 1;
        }
    }
}

/// Keeps what was stored of so many items, and begins again.
fn keep<S: Store>(store: &mut S, run: &mut Run, items: usize) -> Result<(), S::Error>
    ensures sound { S.is_sound store.new → S.is_sound store.old }
    ensures stored { run.new.stored ≡ run.old.stored }
    ensures ok { S.is_sound store.new → OnOk result ((S.lines store.new ≡ S.lines store.old)
        × (S.kept store.new ≡ S.lines store.old) × (run.new ≡ committed items run.old)) }
    ensures begun { S.is_sound store.new → OnOk result (IsTrue (S.has_begun store.new)) }
    ensures err { S.is_sound store.new → OnErr result
        (((S.kept store.new ≡ S.kept store.old) × (run.new ≡ run.old))
        ⊎ ((S.kept store.new ≡ S.lines store.old) × (run.new ≡ committed items run.old))) }
{
    match store.commit() {
        Ok(()) => run.commit(items),
        Err(error) => return Err(error),
    }
    store.begin()
}

/// Takes the next item of the list and hands on its report. The answer is whether it has a fault, or
/// `None` at the end of the list.
fn turn<S: Store, L: Source, R: Sink, H: I18n>(
    alloc: Global,
    store: &mut S,
    list: &mut L,
    out: &mut R,
    index: usize,
    h: &H,
) -> Result<Option<bool>, Cause<L::Error, S::Error, R::Error>>
    requires begun { S.is_sound store.old → IsTrue (S.has_begun store.old) }
    ensures sound { S.is_sound store.new → S.is_sound store.old }
    ensures ok { S.is_sound store.new → IfOk result (λ next. MatchOption next
        (L.gives list.old None list.new × (S.lines store.new ≡ S.lines store.old) × (out.new ≡ out.old))
        (Goes L.gives R.tells (H.text h.now) index list.old list.new out.old out.new (S.lines store.old) (S.lines store.new))) }
    ensures begun { S.is_sound store.new → OnOk result (IsTrue (S.has_begun store.new)) }
    ensures kept { S.is_sound store.new → S.kept store.new ≡ S.kept store.old }
    ensures err { IfErr result (λ cause. (items : ℕ)
        → StopsAt L.gives R.tells cause items list.old list.new out.old out.new) }
{
    let item = match list.next() {
        Ok(Some(item)) => item,
        Ok(None) => return Ok(None),
        Err(error) => return Err(Cause::List(error)),
    };
    let report = match take(alloc, store, index, item, h) {
        Ok(report) => report,
        Err(TakeError::Memory) => return Err(Cause::Memory),
        Err(TakeError::Store(error)) => return Err(Cause::Store(error)),
    };
    match out.tell(&report) {
        Ok(()) => Ok(Some(!report.is_empty())),
        Err(error) => Err(Cause::Report(error)),
    }
}

/// Takes the next item of the list, and keeps what was stored where so many items are full. The
/// answer is false at the end of the list.
fn step<S: Store, L: Source, R: Sink, H: I18n>(
    alloc: Global,
    store: &mut S,
    list: &mut L,
    out: &mut R,
    batch: Batch,
    index: usize,
    run: &mut Run,
    h: &H,
) -> Result<bool, Cause<L::Error, S::Error, R::Error>>
    requires begun { S.is_sound store.old → IsTrue (S.has_begun store.old) }
    requires index { index < 2 ^ 64 - 1 }
    requires stored { run.old.stored ≤ index }
    ensures sound { S.is_sound store.new → S.is_sound store.old }
    ensures stored { run.new.stored ≤ index + 1 }
    ensures on { S.is_sound store.new → IfOk result (λ more. MatchBool more
        ((before : List Line) (first : _) (start : _)
        → Ran L.gives R.tells (H.text h.now) batch before first list.old start out.old (S.lines store.old) (S.kept store.old) index run.old
        → Ran L.gives R.tells (H.text h.now) batch before first list.new start out.new (S.lines store.new) (S.kept store.new) (index + 1) run.new)
        (L.gives list.old None list.new × (S.lines store.new ≡ S.lines store.old) × (out.new ≡ out.old) × (run.new ≡ run.old))) }
    ensures begun { S.is_sound store.new → OnOk result (IsTrue (S.has_begun store.new)) }
    ensures end { S.is_sound store.new → IfOk result (λ more. MatchBool more ⊤ (S.kept store.new ≡ S.kept store.old)) }
    ensures err { S.is_sound store.new → OnErr result
        ((before : List Line) (first : _) (start : _)
        → Ran L.gives R.tells (H.text h.now) batch before first list.old start out.old (S.lines store.old) (S.kept store.old) index run.old
        → KeepsFront L.gives R.tells (H.text h.now) batch before first start (S.kept store.new) run.new.kept) }
    ensures halts { S.is_sound store.new → IfErr result (λ cause.
        (before : List Line) (first : _) (start : _)
        → Ran L.gives R.tells (H.text h.now) batch before first list.old start out.old (S.lines store.old) (S.kept store.old) index run.old
        → Halts L.gives R.tells (H.text h.now) cause before first list.new start out.new) }
{
    match turn(alloc, store, list, out, index, h) {
        Ok(Some(faulty)) => run.count(faulty),
        Ok(None) => return Ok(false),
        Err(cause) => return Err(cause),
    }
    if !batch.is_full(index + 1) {
        return Ok(true);
    }
    match keep(store, run, index + 1) {
        Ok(()) => Ok(true),
        Err(error) => Err(Cause::Store(error)),
    }
}

/// Takes one item of the list after the other, and returns how many they were.
fn take_all<S: Store, L: Source, R: Sink, H: I18n>(
    alloc: Global,
    store: &mut S,
    list: &mut L,
    out: &mut R,
    batch: Batch,
    run: &mut Run,
    h: &H,
) -> Result<usize, Cause<L::Error, S::Error, R::Error>>
    requires begun { S.is_sound store.old → IsTrue (S.has_begun store.old) }
    requires settled { S.is_sound store.old → S.kept store.old ≡ S.lines store.old }
    requires new { run.old ≡ new_run }
    ensures sound { S.is_sound store.new → S.is_sound store.old }
    ensures ok { S.is_sound store.new → IfOk result (λ items.
        (end : _) × L.gives end None list.new
        × Ran L.gives R.tells (H.text h.now) batch (S.lines store.old) list.old end out.old out.new (S.lines store.new) (S.kept store.new) items run.new) }
    ensures err { S.is_sound store.new → OnErr result
        (KeepsFront L.gives R.tells (H.text h.now) batch (S.lines store.old) list.old out.old (S.kept store.new) run.new.kept) }
    ensures halts { S.is_sound store.new → IfErr result (λ cause.
        Halts L.gives R.tells (H.text h.now) cause (S.lines store.old) list.old list.new out.old out.new) }
{
    'items: for index in 0..usize::MAX {
        match step(alloc, store, list, out, batch, index, run, h) {
            Ok(true) => {}
            Ok(false) => return Ok(index),
            Err(cause) => return Err(cause),
        }
    }
    Err(Cause::TooLong)
}

/// Imports a list into a table: stores each row that has no fault and whose code the table has not,
/// in the order of the list, and hands on the report of each item, with the texts of this handler. It
/// returns how many items there were, and how many rows were stored.
///
/// Where it ends before the list does, the table keeps what the first items of the list made of it,
/// so many as it returns. A caller that goes on with the table calls `rollback` first.
pub fn import<S: Store, L: Source, R: Sink, H: I18n>(
    alloc: Global,
    store: &mut S,
    list: &mut L,
    out: &mut R,
    batch: Batch,
    h: &H,
) -> Result<Progress, Stopped<L::Error, S::Error, R::Error>>
    requires settled { S.is_sound store.old → S.kept store.old ≡ S.lines store.old }
    ensures sound { S.is_sound store.new → S.is_sound store.old }
    ensures ok { S.is_sound store.new → IfOk result
        (Ended L.gives R.tells (H.text h.now) batch (S.lines store.old) list.old list.new out.old out.new (S.kept store.new)) }
    ensures err { S.is_sound store.new → IfErr result (λ stopped.
        KeepsFront L.gives R.tells (H.text h.now) batch (S.lines store.old) list.old out.old (S.kept store.new) stopped.kept) }
    ensures settled { S.is_sound store.new → OnOk result (S.kept store.new ≡ S.lines store.new) }
    ensures halts { S.is_sound store.new → IfErr result (λ stopped.
        Halts L.gives R.tells (H.text h.now) stopped.cause (S.lines store.old) list.old list.new out.old out.new) }
{
    let mut run = Run::new();
    match store.begin() {
        Ok(()) => {}
        Err(error) => return Err(run.stopped(Cause::Store(error))),
    }
    let items = match take_all(alloc, store, list, out, batch, &mut run, h) {
        Ok(items) => items,
        Err(cause) => return Err(run.stopped(cause)),
    };
    if batch.is_all() && run.faulty {
        return match store.rollback() {
            Ok(()) => Ok(Progress { items, stored: 0 }),
            Err(error) => Err(run.stopped(Cause::Store(error))),
        };
    }
    match store.commit() {
        Ok(()) => Ok(Progress {
            items,
            stored: run.stored,
        }),
        Err(error) => Err(run.stopped(Cause::Store(error))),
    }
}
