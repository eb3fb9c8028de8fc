//! Dates, times of day, both, and timestamps.
ghost use Rattle.std.specs.Prelude.{◌≡◌};
ghost use Rattle.garde_form.specs.declared.text_type.TextKind.TheVariants.{Bare};
ghost use Rattle.garde_schema.specs.declared.fault.Wanted.TheVariants as wanted;
ghost use Rattle.garde_parsed.specs.Moments.{date_of, datetime_of, time_of, timestamp_of};

use garde_form::{TextKind, TextType};
use garde_schema::Wanted;

/// A text that writes a date, as `jiff::civil::Date` reads it: `2026-11-25`. A time of day may
/// follow, with an offset other than `Z` and a time zone in brackets: they are read and left
/// out.
#[derive(Clone, Copy, Debug)]
pub struct Date;

impl TextType for Date {
    type Value = jiff::civil::Date;

    ghost KIND = { Bare wanted.Date };

    const KIND: TextKind<jiff::civil::Date> = TextKind::Bare(Wanted::Date);

    ghost parsed = { λ text. date_of text };

    fn read(text: &str) -> Option<jiff::civil::Date> {
        text.parse::<jiff::civil::Date>().ok()
    }
}

/// A text that writes a time of day, as `jiff::civil::Time` reads it: `22:15` or `22:15:30.5`.
/// A date may stand before it, and an offset other than `Z` and a time zone in brackets behind
/// it: they are read and left out.
#[derive(Clone, Copy, Debug)]
pub struct Time;

impl TextType for Time {
    type Value = jiff::civil::Time;

    ghost KIND = { Bare wanted.Time };

    const KIND: TextKind<jiff::civil::Time> = TextKind::Bare(Wanted::Time);

    ghost parsed = { λ text. time_of text };

    fn read(text: &str) -> Option<jiff::civil::Time> {
        text.parse::<jiff::civil::Time>().ok()
    }
}

/// A text that writes a date and a time of day, as `jiff::civil::DateTime` reads it:
/// `2026-11-25T22:15:30`. Without a time it is midnight. An offset other than `Z` and a time
/// zone in brackets are read and left out.
#[derive(Clone, Copy, Debug)]
pub struct DateTime;

impl TextType for DateTime {
    type Value = jiff::civil::DateTime;

    ghost KIND = { Bare wanted.DateTime };

    const KIND: TextKind<jiff::civil::DateTime> = TextKind::Bare(Wanted::DateTime);

    ghost parsed = { λ text. datetime_of text };

    fn read(text: &str) -> Option<jiff::civil::DateTime> {
        text.parse::<jiff::civil::DateTime>().ok()
    }
}

/// A text that writes a moment, as `jiff::Timestamp` reads it: a date, a time of day and an
/// offset from UTC, as `2026-11-25T22:15:30Z` (RFC 3339).
#[derive(Clone, Copy, Debug)]
pub struct Timestamp;

impl TextType for Timestamp {
    type Value = jiff::Timestamp;

    ghost KIND = { Bare wanted.Timestamp };

    const KIND: TextKind<jiff::Timestamp> = TextKind::Bare(Wanted::Timestamp);

    ghost parsed = { λ text. timestamp_of text };

    fn read(text: &str) -> Option<jiff::Timestamp> {
        text.parse::<jiff::Timestamp>().ok()
    }
}
