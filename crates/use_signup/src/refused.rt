//! The answers in which no form is judged: pages that say no more than the status.
ghost use Rattle.std.specs.Prelude.{◌≡◌};
ghost use Rattle.use_signup.specs.Refused.{page_of};

use crate::plain::plain_page;
use garde_html::with_style;
use garde_service::Rejected;

/// The page.
pub fn page_of(why: Rejected) -> &'static str
    ensures { result.now ≡ page_of why }
{
    match why {
        Rejected::BadRequest => BAD_REQUEST,
        Rejected::Forbidden => FORBIDDEN,
        Rejected::NotFound => NOT_FOUND,
        Rejected::MethodNotAllowed => METHOD_NOT_ALLOWED,
        Rejected::ContentTooLarge => CONTENT_TOO_LARGE,
        Rejected::UriTooLong => URI_TOO_LONG,
        Rejected::UnsupportedMediaType => UNSUPPORTED_MEDIA_TYPE,
        Rejected::FieldsTooLarge => FIELDS_TOO_LARGE,
        Rejected::InternalServerError => INTERNAL_SERVER_ERROR,
        Rejected::NotImplemented => NOT_IMPLEMENTED,
        Rejected::VersionNotSupported => VERSION_NOT_SUPPORTED,
    }
}

/// The text of a page in English with this title, which says this.
macro_rules! page {
    ($title:literal, $said:literal) => {
        with_style!(plain_page, "en", "ltr", $title, $said)
    };
}

const BAD_REQUEST: &str = page!("Bad request", "What came is no request.");

const FORBIDDEN: &str = page!("Forbidden", "Another site sent the form.");

const NOT_FOUND: &str = page!("Not found", "There is no such page.");

const METHOD_NOT_ALLOWED: &str = page!("Method not allowed", "This page has other methods.");

const CONTENT_TOO_LARGE: &str = page!("Content too large", "The form is too long.");

const URI_TOO_LONG: &str = page!("URI too long", "The address is too long.");

const UNSUPPORTED_MEDIA_TYPE: &str = page!("Unsupported media type", "The body is no web form.");

const FIELDS_TOO_LARGE: &str = page!(
    "Request header fields too large",
    "The header of the request is too long."
);

const INTERNAL_SERVER_ERROR: &str = page!("Internal server error", "The answer cannot be sent.");

const NOT_IMPLEMENTED: &str = page!("Not implemented", "The method or the coding is not known.");

const VERSION_NOT_SUPPORTED: &str = page!(
    "HTTP version not supported",
    "The request is in another version of HTTP."
);
