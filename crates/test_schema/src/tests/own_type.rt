//! Tests as an author writes them of a type: what is reported of a body, what is kept of a line, and what
//! is written of it.
use super::OrEnd;
use example_ported::delivery::Delivery;
use garde::DefaultI18n;
use garde_schema::{FirstReadError, ReadBody, Scratch, TextRef};
use json::Writer;
use std::alloc::{AllocError, Global};

// Bodies, each with its whole report.
static BODIES: [(&str, &str); 2] = [
    (
        "{\"grams\":30001,\"floor\":41,\"sentCrates\":[]}",
        "grams: greater than 30000\nfloor: greater than 40\nsentCrates: length is lower than 1\n",
    ),
    (
        "{\"grams\":1,\"floor\":0,\"sentCrates\":[{\"name\":\"a\",\"pieces\":0,\"weight\":1,\"seen\":[]}]}",
        "sentCrates[0].name: length is lower than 2\nsentCrates[0].pieces: lower than 1\n",
    ),
];

/// Whether this is the whole report of a body.
fn is_reported(alloc: Global, body: &str, report: &str) -> bool {
    let mut scratch = Scratch::new(alloc);
    let read = Delivery::read_body(
        alloc,
        body.as_bytes(),
        &mut scratch,
        usize::MAX,
        &DefaultI18n,
    );
    match read {
        Err(FirstReadError::All(found)) => match found.to_string(alloc) {
            Ok(text) => text.as_str() == report,
            Err(_) => false,
        },
        _ => false,
    }
}

#[test]
fn reports_each_broken_rule(rt: HostRuntime) {
    for (body, report) in &BODIES {
        assert!(rt; is_reported(rt.alloc(), body, report), "{body}");
    }
}

/// A line of an order, as it is read.
#[derive(Drop)]
struct Line<'t> {
    code: TextRef<'t>,
    count: u32,
    cents: u32,
}

/// A line that is kept after its input is gone.
#[derive(Drop)]
struct KeptLine {
    code: String,
    count: u32,
    cents: u32,
}

impl KeptLine {
    /// A copy of a line, whose text is its own.
    fn of(alloc: Global, line: &Line<'_>) -> Result<KeptLine, AllocError> {
        let code = String::from_str(alloc, line.code.text())?;
        Ok(KeptLine {
            code,
            count: line.count,
            cents: line.cents,
        })
    }

    /// The line in JSON.
    fn to_json(&self, alloc: Global) -> Result<Vec<u8>, AllocError> {
        let mut out = Writer::new(Vec::new(alloc));
        out.begin_object()?;
        out.key("code")?;
        out.string(self.code.as_str())?;
        out.key("count")?;
        out.u64(u64::from(self.count))?;
        out.key("cents")?;
        out.u64(u64::from(self.cents))?;
        out.end_object()?;
        Ok(out.into_inner())
    }
}

/// Whether this is what is written of a line that is kept.
fn is_written(alloc: Global, line: &Line<'_>, json: &str) -> Result<bool, AllocError> {
    let written = KeptLine::of(alloc, line)?.to_json(alloc)?;
    Ok(written.as_slice() == json.as_bytes())
}

#[test]
fn writes_a_line_that_is_kept(rt: HostRuntime) {
    let line = Line {
        code: TextRef::new("P\"7"),
        count: 2,
        cents: 250,
    };
    let json = "{\"code\":\"P\\\"7\",\"count\":2,\"cents\":250}";
    assert!(rt; is_written(rt.alloc(), &line, json).or_end(&rt));
}
