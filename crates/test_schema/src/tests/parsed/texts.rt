//! A parser, and a table of texts with what each is read as.

use super::{addresses, clocks, dates, layouts, uuids};
use crate::tests::is_text;
use garde::DefaultI18n;
use garde_form::{Parse, Parsed};
use garde_parsed::{Date, DateTime, InText, Ip, Ipv4, Ipv6, Layout, Time, Timestamp, Uuid};
use garde_schema::{Scratch, read_json};
use std::alloc::{AllocError, Global};
use std::fmt::Display;
use std::process::Abort;

// What is told of a text, which has no quotes and no backslashes, as the text of a JSON value: the
// value that it spells, or the whole report.
fn told<P: Parse>(alloc: Global, parser: &P, text: &str) -> Result<String, AllocError>
where
    P: Copy,
    P::Value: Display,
{
    let json = format!(in alloc; "\"{text}\"")?;
    let mut scratch = Scratch::new(alloc);
    let form = Parsed(*parser, ());
    match read_json(alloc, json.as_bytes(), &mut scratch, &form, &DefaultI18n) {
        Ok(value) => format!(in alloc; "{value}"),
        Err(error) => error.to_string(alloc),
    }
}

// Asks that of each text is told what stands beside it.
fn check<P: Parse>(rt: &impl Abort, alloc: Global, parser: P, rows: &[(&str, &str)])
where
    P: Copy,
    P::Value: Display,
{
    for (text, expected) in rows {
        assert!(rt; is_text(told(alloc, &parser, text), expected), "{text}");
    }
}

#[test]
fn reads_texts_of_each_kind(rt: HostRuntime) {
    check(&rt, rt.alloc(), Ipv4, &addresses::IPV4);
    check(&rt, rt.alloc(), Ipv6, &addresses::IPV6);
    check(&rt, rt.alloc(), Uuid, &uuids::UUIDS);
    check(&rt, rt.alloc(), Date, &dates::DATES);
    check(&rt, rt.alloc(), DateTime, &dates::DATE_TIMES);
    check(&rt, rt.alloc(), Time, &clocks::TIMES);
    check(&rt, rt.alloc(), Timestamp, &clocks::TIMESTAMPS);
}

#[test]
fn reads_texts_of_a_layout(rt: HostRuntime) {
    let (date, time) = (InText(Date, Layout::Date), InText(Time, Layout::Time));
    check(&rt, rt.alloc(), date, &layouts::DATES);
    check(&rt, rt.alloc(), time, &layouts::TIMES);
    let both = InText(DateTime, Layout::DateTime);
    check(&rt, rt.alloc(), both, &layouts::DATE_TIMES);
    let moment = InText(Timestamp, Layout::Timestamp);
    check(&rt, rt.alloc(), moment, &layouts::TIMESTAMPS);
    check(&rt, rt.alloc(), InText(Date, Layout::Any), &layouts::ANY);
    check(&rt, rt.alloc(), Ip, &layouts::ADDRESSES);
}
