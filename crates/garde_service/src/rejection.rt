//! What is answered where `http_server` rejects a request: its own answer has no body, and no date.
ghost use Rattle.std.specs.Prelude.{◌≡◌, IfOk, IsTrue, option_map, string_bytes};
ghost use Rattle.http_server.specs.Refusal as server;
ghost use Rattle.garde_service.specs.Ending.{body_text, date_field, plain_of, rejection_text};
ghost use Rattle.garde_service.specs.Said.{said};

use crate::handler::Body;
use crate::rejected::Rejected;
use bytes::Buf;
use http_server::{Refusal, Rope};
use http1::ReadError;
use httpdate::HttpDate;
use std::alloc::{AllocError, Global};

/// Why a request is rejected. Of a request line in another version there is the text from there on.
pub fn rejected_of(why: Refusal, text: &[u8]) -> Rejected
    ensures { plain_of result ≡ server.refusal_text why }
{
    match why {
        Refusal::Unreadable(ReadError::Parse(httparse::Error::Version))
            if has_other_version(text) => { Rejected::VersionNotSupported }
        Refusal::Unreadable(ReadError::UriTooLong) => Rejected::UriTooLong,
        Refusal::Unreadable(error) if error.status() == 431 => Rejected::FieldsTooLarge,
        Refusal::InvalidPart(http::Error::HeaderName | http::Error::MaxSizeReached) => {
            Rejected::FieldsTooLarge
        }
        Refusal::InvalidPart(http::Error::Uri(error)) if error.is_too_long() =>
            Rejected::UriTooLong,
        Refusal::BodyTooLarge => Rejected::ContentTooLarge,
        Refusal::UnknownCoding => Rejected::NotImplemented,
        Refusal::InvalidResponse(_) => Rejected::InternalServerError,
        _ => Rejected::BadRequest,
    }
}

/// Whether the first line ends in a version of HTTP whose major number is not 1 (RFC 9110, section
/// 2.5).
fn has_other_version(text: &[u8]) -> bool {
    let line = text.split(|byte| *byte == b'\n').next().unwrap_or(text);
    match line.rsplit(|byte| *byte == b' ').next() {
        Some([b'H', b'T', b'T', b'P', b'/', major, b'.', minor, b'\r']) => {
            *major != b'1' && major.is_ascii_digit() && minor.is_ascii_digit()
        }
        _ => false,
    }
}

/// The answer of `http_server` in whose place this one stands.
pub fn plain_answer(why: Rejected) -> &'static [u8]
    ensures { result.now ≡ plain_of why }
{
    match why {
        Rejected::BadRequest | Rejected::VersionNotSupported => BAD_REQUEST,
        Rejected::ContentTooLarge => TOO_LARGE,
        Rejected::UriTooLong => URI_TOO_LONG,
        Rejected::FieldsTooLarge => TOO_MANY_FIELDS,
        Rejected::NotImplemented => NOT_IMPLEMENTED,
        Rejected::InternalServerError => SERVER_ERROR,
        _ => b"",
    }
}

/// Whether what is pending is the answer of `http_server`, and nothing else.
pub fn is_plain(why: Rejected, pending: &Rope) -> bool
    ensures { IsTrue result → pending.now.items ≡ plain_of why }
{
    let plain = plain_answer(why);
    plain.len() == pending.len() && plain == pending.chunk()
}

/// The field of the date, where there is one.
fn date_field(alloc: Global, date: Option<HttpDate>) -> Result<String<Global>, AllocError>
    ensures { IfOk result (λ text. string_bytes text ≡ date_field date) }
{
    match date {
        None => Ok(String::new(alloc)),
        Some(day) => format!(in alloc; "{DATE}{day}"),
    }
}

/// The fields of a body and the body, or the field that says that there is none.
fn body_text(alloc: Global, body: Option<Body>) -> Result<String<Global>, AllocError>
    ensures { IfOk result (λ text. string_bytes text ≡ body_text (option_map said body)) }
{
    match body {
        None => format!(in alloc; "{NO_BODY}"),
        Some(body) => {
            let (media, text) = (body.media, body.text);
            let len = text.len();
            format!(in alloc; "{TYPE}{media}{LENGTH}{len}{BODY}{text}")
        }
    }
}

/// The answer with this body or with none, after which the connection closes.
pub fn rejection(
    alloc: Global,
    why: Rejected,
    body: Option<Body>,
    date: Option<HttpDate>,
) -> Result<String<Global>, AllocError>
    ensures { IfOk result (λ text. string_bytes text
        ≡ rejection_text why (option_map said body) date) }
{
    let (title, date) = (why.title(), date_field(alloc, date)?);
    let end = body_text(alloc, body)?;
    format!(in alloc; "HTTP/1.1 {title}{CLOSES}{date}{end}")
}

const CLOSES: &str = "\r\nconnection: close";

const DATE: &str = "\r\ndate: ";

const TYPE: &str = "\r\ncontent-type: ";

const LENGTH: &str = "\r\ncontent-length: ";

const BODY: &str = "\r\n\r\n";

const NO_BODY: &str = "\r\ncontent-length: 0\r\n\r\n";

const BAD_REQUEST: &[u8] =
    b"HTTP/1.1 400 Bad Request\r\nconnection: close\r\ncontent-length: 0\r\n\r\n";

const TOO_LARGE: &[u8] =
    b"HTTP/1.1 413 Payload Too Large\r\nconnection: close\r\ncontent-length: 0\r\n\r\n";

const URI_TOO_LONG: &[u8] =
    b"HTTP/1.1 414 URI Too Long\r\nconnection: close\r\ncontent-length: 0\r\n\r\n";

const TOO_MANY_FIELDS: &[u8] =
    b"HTTP/1.1 431 Request Header Fields Too Large\r\nconnection: close\r\ncontent-length: 0\r\n\r\n";

const NOT_IMPLEMENTED: &[u8] =
    b"HTTP/1.1 501 Not Implemented\r\nconnection: close\r\ncontent-length: 0\r\n\r\n";

const SERVER_ERROR: &[u8] =
    b"HTTP/1.1 500 Internal Server Error\r\nconnection: close\r\ncontent-length: 0\r\n\r\n";
