//! What is known of the record that is being read, but for its cells.
ghost use Rattle.std.specs.Prelude.{◌≡◌, ◌<◌, Some, if◌then◌else◌};
ghost use Rattle.csv.specs.Machine.{step};
ghost use Rattle.csv.specs.Reading.{default_config};
ghost use Rattle.garde_csv.specs.Places.{action_of, state_of};
ghost use Rattle.garde_csv.specs.Quotes.{end_fault, first_of, is_before, seen_after, seen_at_end, seen_joined, seen_of, unbegun};

use crate::fault::Fault;
use crate::place::{Action, Place};

/// How far a record was read, and what was found wrong with its quotes.
#[derive(Clone, Copy)]
pub(crate) struct Walk {
    pub(crate) place: Place,
    /// The line of the next byte, from 1.
    pub(crate) line: u64,
    /// The line in which the record begins.
    pub(crate) start: u64,
    /// The line of the quote before the cell at hand, where there is one.
    pub(crate) quote: u64,
    /// The first fault.
    pub(crate) fault: Option<Fault>,
}

impl Walk {
    /// At a place in a line, where no record has begun.
    pub(crate) fn new(place: Place, line: u64) -> Walk
        ensures { seen_of result ≡ unbegun (state_of place) line }
    {
        Walk {
            place,
            line,
            start: line,
            quote: line,
            fault: None,
        }
    }

    /// Whether no record has begun.
    #[inline]
    pub(crate) fn is_before(&self) -> bool
        ensures { result ≡ is_before (state_of self.now.place) }
    {
        matches!(self.place, Place::RecordStart | Place::AfterReturn)
    }

    // Keeps the line in which the record begins, where no byte of it was read.
    #[inline]
    fn begin(&mut self)
        ensures { self.new ≡ record self.old { start = if is_before (state_of self.old.place) then self.old.line else self.old.start } }
    {
        if self.is_before() {
            self.start = self.line;
        }
    }

    // Keeps the fault, where it is the first one.
    fn note(&mut self, fault: Fault)
        ensures { self.new ≡ record self.old { fault = first_of self.old.fault (Some fault) } }
    {
        self.fault = self.fault.or(Some(fault));
    }

    // Goes on behind a byte that is no quote, no comma and no end of a line.
    #[inline]
    fn join_one(&mut self)
        ensures { seen_of self.new ≡ seen_joined (seen_of self.old) }
    {
        self.begin();
        if self.place == Place::Closed {
            self.note(Fault::TextBehindQuote { line: self.quote });
        }
        if self.place != Place::Quoted {
            self.place = Place::Plain;
        }
    }

    /// Goes on behind so many bytes that are no quote, no comma and no end of a line. Each of them is
    /// a byte of the cell.
    #[inline]
    pub(crate) fn join(&mut self, count: usize)
        ensures none { count ≡ 0 → seen_of self.new ≡ seen_of self.old }
        ensures some { 0 < count → seen_of self.new ≡ seen_joined (seen_of self.old) }
    {
        if count > 0 {
            self.join_one();
        }
    }

    // Goes on behind a comma.
    #[inline]
    fn comma(&mut self) -> Action
        ensures seen { seen_of self.new ≡ seen_after (seen_of self.old) 44 }
        ensures action { action_of result ≡ (step default_config (state_of self.old.place) 44).1 }
    {
        self.begin();
        if self.place == Place::Quoted {
            return Action::Keep;
        }
        self.place = Place::CellStart;
        Action::EndCell
    }

    // Goes on behind a line feed.
    #[inline]
    fn line_feed(&mut self) -> Action
        ensures seen { seen_of self.new ≡ seen_after (seen_of self.old) 10 }
        ensures action { action_of result ≡ (step default_config (state_of self.old.place) 10).1 }
    {
        self.begin();
        self.line = self.line.saturating_add(1);
        match self.place {
            Place::Quoted => Action::Keep,
            Place::RecordStart | Place::AfterReturn => {
                self.place = Place::RecordStart;
                Action::Skip
            }
            _ => {
                self.place = Place::RecordStart;
                Action::EndRecord
            }
        }
    }

    // Goes on behind a carriage return.
    fn carriage_return(&mut self) -> Action
        ensures seen { seen_of self.new ≡ seen_after (seen_of self.old) 13 }
        ensures action { action_of result ≡ (step default_config (state_of self.old.place) 13).1 }
    {
        self.begin();
        match self.place {
            Place::Quoted => Action::Keep,
            Place::RecordStart | Place::AfterReturn => {
                self.place = Place::RecordStart;
                Action::Skip
            }
            _ => {
                self.place = Place::AfterReturn;
                Action::EndRecord
            }
        }
    }

    // Goes on behind a quote.
    fn quote(&mut self) -> Action
        ensures seen { seen_of self.new ≡ seen_after (seen_of self.old) 34 }
        ensures action { action_of result ≡ (step default_config (state_of self.old.place) 34).1 }
    {
        self.begin();
        match self.place {
            Place::Plain => {
                self.note(Fault::QuoteInside { line: self.line });
                Action::Keep
            }
            Place::Quoted => {
                self.place = Place::Closed;
                Action::Skip
            }
            Place::Closed => {
                self.place = Place::Quoted;
                Action::Keep
            }
            _ => {
                self.quote = self.line;
                self.place = Place::Quoted;
                Action::Skip
            }
        }
    }

    /// Goes on behind one more byte, and returns what it does: the same as in the toolchain's `csv`.
    #[inline]
    pub(crate) fn step(&mut self, byte: u8) -> Action
        ensures seen { seen_of self.new ≡ seen_after (seen_of self.old) byte }
        ensures action { action_of result ≡ (step default_config (state_of self.old.place) byte).1 }
    {
        match byte {
            b',' => self.comma(),
            b'\n' => self.line_feed(),
            b'\r' => self.carriage_return(),
            b'"' => self.quote(),
            _ => {
                self.join_one();
                Action::Keep
            }
        }
    }

    // The first fault of the record, where the list ends here.
    fn fault_at_end(&self) -> Option<Fault>
        ensures { result ≡ first_of self.now.fault (end_fault (state_of self.now.place) self.now.quote) }
    {
        let open = if self.place == Place::Quoted {
            Some(Fault::OpenQuote { line: self.quote })
        } else {
            None
        };
        self.fault.or(open)
    }

    /// The walk behind the record, where the list ends here.
    pub(crate) fn end(self) -> Walk
        ensures { seen_of result ≡ seen_at_end (seen_of self) }
    {
        let fault = self.fault_at_end();
        Walk {
            place: Place::RecordStart,
            fault,
            ..self
        }
    }
}
