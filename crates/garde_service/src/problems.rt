//! The problem details (RFC 9457) of a request that is rejected, which say no more than the status.
ghost use Rattle.std.specs.Prelude.{◌≡◌, IsTrue, codes};
ghost use Rattle.garde_service.specs.Problems.{problem_of};
ghost use Rattle.http_header.specs.FieldValue.{is_visible_text};

use crate::handler::Body;
use crate::rejected::Rejected;

/// The media type of problem details.
pub const PROBLEM_TYPE: &str = "application/problem+json";

/// The problem details as the body of an answer.
pub fn problem_body(why: Rejected) -> Body
    ensures media { result.media.now ≡ codes "application/problem+json" }
    ensures text { result.text.now ≡ problem_of why }
    ensures visible { IsTrue (is_visible_text result.media.now) }
{
    Body {
        media: PROBLEM_TYPE,
        text: problem_of(why),
    }
}

/// The problem details. Their type is `about:blank`, so the title is the phrase of the status
/// (RFC 9457, section 4.2.1).
fn problem_of(why: Rejected) -> &'static str
    ensures { result.now ≡ problem_of why }
{
    match why {
        Rejected::BadRequest => BAD_REQUEST,
        Rejected::Forbidden => FORBIDDEN,
        Rejected::NotFound => NOT_FOUND,
        Rejected::MethodNotAllowed => METHOD_NOT_ALLOWED,
        Rejected::ContentTooLarge => CONTENT_TOO_LARGE,
        Rejected::UriTooLong => URI_TOO_LONG,
        Rejected::UnsupportedMediaType => UNSUPPORTED_MEDIA_TYPE,
        Rejected::FieldsTooLarge => FIELDS_TOO_LARGE,
        Rejected::InternalServerError => INTERNAL_SERVER_ERROR,
        Rejected::NotImplemented => NOT_IMPLEMENTED,
        Rejected::VersionNotSupported => VERSION_NOT_SUPPORTED,
    }
}

const BAD_REQUEST: &str = "{\"type\":\"about:blank\",\"title\":\"Bad Request\",\"status\":400}";

const FORBIDDEN: &str = "{\"type\":\"about:blank\",\"title\":\"Forbidden\",\"status\":403}";

const NOT_FOUND: &str = "{\"type\":\"about:blank\",\"title\":\"Not Found\",\"status\":404}";

const METHOD_NOT_ALLOWED: &str =
    "{\"type\":\"about:blank\",\"title\":\"Method Not Allowed\",\"status\":405}";

const CONTENT_TOO_LARGE: &str =
    "{\"type\":\"about:blank\",\"title\":\"Content Too Large\",\"status\":413}";

const URI_TOO_LONG: &str = "{\"type\":\"about:blank\",\"title\":\"URI Too Long\",\"status\":414}";

const UNSUPPORTED_MEDIA_TYPE: &str =
    "{\"type\":\"about:blank\",\"title\":\"Unsupported Media Type\",\"status\":415}";

const FIELDS_TOO_LARGE: &str =
    "{\"type\":\"about:blank\",\"title\":\"Request Header Fields Too Large\",\"status\":431}";

const INTERNAL_SERVER_ERROR: &str =
    "{\"type\":\"about:blank\",\"title\":\"Internal Server Error\",\"status\":500}";

const NOT_IMPLEMENTED: &str =
    "{\"type\":\"about:blank\",\"title\":\"Not Implemented\",\"status\":501}";

const VERSION_NOT_SUPPORTED: &str =
    "{\"type\":\"about:blank\",\"title\":\"HTTP Version Not Supported\",\"status\":505}";
