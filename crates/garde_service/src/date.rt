//! The field `Date` of an answer (RFC 9110, section 6.6.1).
ghost use Rattle.garde_service.specs.Dated.{IsDated};

use http::{HeaderValue, header};
use http_server::Response;
use httpdate::HttpDate;
use std::alloc::Global;
use std::time::{Clock, SystemTime};

/// The date that a clock shows, or none where there is no clock, or where it cannot be read.
pub fn date_of<C: Clock>(clock: Option<&C>) -> Option<HttpDate> {
    let time = SystemTime::now(clock?).ok()?;
    HttpDate::try_from(time).ok()
}

/// Adds a date to an answer, where there is one and memory for it: no answer fails without.
pub fn put_date(alloc: Global, date: Option<HttpDate>, response: &mut Response)
    ensures { IsDated date response.old response.new }
{
    if let Some(date) = date
        && let Ok(value) = HeaderValue::from_bytes(alloc, &date.to_bytes())
    {
        let _ = response.add_header(header::DATE, value);
    }
}
