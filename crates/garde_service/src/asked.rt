//! What a request asks for.
ghost use Rattle.std.specs.Prelude.{◌≡◌, ◌≤◌, codes, length};
ghost use Rattle.http.specs.Request.{head_of};
ghost use Rattle.garde_service.specs.Asked.{IsLanguage, begins_with, elsewhere, ends_at, field_begins_with, has_coding, has_type, is_coding, is_foreign, is_foreign_origin, is_of, is_origin_of};
ghost use Rattle.http_header.specs.HeaderMap.{get};

use crate::rejected::Rejected;
use bytes::Bytes;
use garde_catalog::Catalogs;
use http::{HeaderName, Request, header};

/// The bytes that may stand behind a media type.
const TYPE_ENDS: &[u8] = b"; \t";

/// Whether a value ends at a place, or one of these bytes stands there.
fn ends_at(value: &[u8], place: usize, ends: &[u8]) -> bool
    requires { place ≤ length value.now }
    ensures { result ≡ ends_at value.now place ends.now }
{
    value.len() == place || ends.contains(&value[place])
}

/// Whether a value begins with a word, in small or capital letters, behind which it ends or one of
/// these bytes stands.
fn begins_with(value: &[u8], word: &[u8], ends: &[u8]) -> bool
    ensures { result ≡ begins_with value.now word.now ends.now }
{
    let len = word.len();
    if value.len() < len {
        return false;
    }
    value[..len].eq_ignore_ascii_case(word) && ends_at(value, len, ends)
}

/// Whether the first field of a name begins with a word.
fn field_begins_with(request: &Request<Bytes>, name: HeaderName, word: &[u8], ends: &[u8]) -> bool
    ensures { result ≡ field_begins_with (get (head_of request.now).headers name) word.now ends.now }
{
    match request.headers().get(name) {
        Some(value) => begins_with(value.as_bytes(), word, ends),
        None => false,
    }
}

/// Whether the body is said to be of this media type, in small or capital letters, with parameters or
/// without: by the first field `Content-Type`.
pub fn has_type(request: &Request<Bytes>, media: &str) -> bool
    ensures { result ≡ has_type (head_of request.now) media.now }
{
    field_begins_with(request, header::CONTENT_TYPE, media.as_bytes(), TYPE_ENDS)
}

/// Whether an origin is this scheme and this host.
fn is_of(origin: &[u8], scheme: &[u8], host: &[u8]) -> bool
    ensures { result ≡ is_of origin.now scheme.now host.now }
{
    let len = scheme.len();
    if origin.len() < len {
        return false;
    }
    let (front, back) = origin.split_at(len);
    front == scheme && back.eq_ignore_ascii_case(host)
}

/// Whether an origin is that of a page of this host.
fn is_origin_of(origin: &[u8], host: &[u8]) -> bool
    ensures { result ≡ is_origin_of origin.now host.now }
{
    is_of(origin, b"https://", host) || is_of(origin, b"http://", host)
}

/// Whether there is a field `Origin` (RFC 6454, section 7) that is not that of the host.
fn is_foreign_origin(request: &Request<Bytes>) -> bool
    ensures { result ≡ is_foreign_origin (get (head_of request.now).headers (codes "origin"))
        (get (head_of request.now).headers (codes "host")) }
{
    let Some(origin) = request.headers().get(header::ORIGIN) else {
        return false;
    };
    match request.headers().get(header::HOST) {
        Some(host) => !is_origin_of(origin.as_bytes(), host.as_bytes()),
        None => true,
    }
}

/// What a browser says of a page's request to its own site, and of one that no page made.
const SAME_ORIGIN: &[u8] = b"same-origin";

const NO_SITE: &[u8] = b"none";

/// Whether a page of another site made the request: by its first field `Sec-Fetch-Site` (Fetch Metadata
/// Request Headers, section 2.2), or without it by `Origin`.
pub fn is_foreign(request: &Request<Bytes>) -> bool
    ensures { result ≡ is_foreign (head_of request.now) }
{
    let name = HeaderName::from_static("sec-fetch-site");
    match request.headers().get(name) {
        Some(site) => site.as_bytes() != SAME_ORIGIN && site.as_bytes() != NO_SITE,
        None => is_foreign_origin(request),
    }
}

/// The only coding of a body that is read (RFC 9110, section 8.4.1): none.
pub const IDENTITY: &str = "identity";

/// Whether this names a coding: anything but `identity`, in small or capital letters.
fn is_coding(value: &[u8]) -> bool
    ensures { result ≡ is_coding value.now }
{
    !value.eq_ignore_ascii_case(IDENTITY.as_bytes())
}

/// Whether the body has a coding: by any field `Content-Encoding`.
pub fn has_coding(request: &Request<Bytes>) -> bool
    ensures { result ≡ has_coding (head_of request.now) }
{
    let mut fields = request.headers().get_all(header::CONTENT_ENCODING).iter();
    fields.any(|value| is_coding(value.as_bytes()))
}

/// Why a request is rejected whose path the service does not have. Only `CONNECT` may name a host and a
/// port, and only `OPTIONS` may name `*` (RFC 9112, section 3.2): neither is implemented.
pub fn elsewhere(request: &Request<Bytes>) -> Rejected
    ensures { result ≡ elsewhere (head_of request.now) }
{
    let (path, method) = (request.uri().path(), request.method().as_str());
    if path == "" {
        if method == "CONNECT" {
            Rejected::NotImplemented
        } else {
            Rejected::BadRequest
        }
    } else if path == "*" {
        if method == "OPTIONS" {
            Rejected::NotImplemented
        } else {
            Rejected::BadRequest
        }
    } else {
        Rejected::NotFound
    }
}

/// The place of the language that a request asks for, among those that the catalogs have, or `None`:
/// by its first field `Accept-Language`. It allocates nothing.
pub fn language_of(catalogs: &Catalogs, request: &Request<Bytes>) -> Option<usize>
    ensures { IsLanguage catalogs.now result (head_of request.now) }
{
    match request.headers().get(header::ACCEPT_LANGUAGE) {
        Some(value) => catalogs.asked(value.as_bytes()),
        None => None,
    }
}
