//! Why a request is rejected, as an answer says it.
ghost use Rattle.std.specs.Prelude.{◌≡◌};

use http::StatusCode;

/// Why a request is rejected: by `http_server`, before the handler sees it, or by the handler.
#[derive(Clone, Copy, Debug)]
pub enum Rejected {
    /// What came is no request, or its target has no form that fits its method.
    BadRequest,
    /// Another site sent the body. `http_server` has no such reason.
    Forbidden,
    /// The path leads nowhere. `http_server` has no such reason.
    NotFound,
    /// The path has other methods. `http_server` has no such reason.
    MethodNotAllowed,
    /// The body is too long.
    ContentTooLarge,
    /// The target is too long.
    UriTooLong,
    /// The body is of another media type, or has a coding. `http_server` has no such reason.
    UnsupportedMediaType,
    /// The header section is too long.
    FieldsTooLarge,
    /// The handler made an answer that cannot be sent.
    InternalServerError,
    /// No path has this method, or the body has a transfer coding that is not known.
    NotImplemented,
    /// The request is in another major version of HTTP.
    VersionNotSupported,
}

impl Rejected {
    ghost use Rattle.garde_service.specs.Rejected.{status_of, title_of};

    /// The status (RFC 9110, section 15).
    pub fn status(self) -> StatusCode
        ensures { result ≡ status_of self }
    {
        match self {
            Rejected::BadRequest => StatusCode::BAD_REQUEST,
            Rejected::Forbidden => StatusCode::FORBIDDEN,
            Rejected::NotFound => StatusCode::NOT_FOUND,
            Rejected::MethodNotAllowed => StatusCode::METHOD_NOT_ALLOWED,
            Rejected::ContentTooLarge => StatusCode::PAYLOAD_TOO_LARGE,
            Rejected::UriTooLong => StatusCode::URI_TOO_LONG,
            Rejected::UnsupportedMediaType => StatusCode::UNSUPPORTED_MEDIA_TYPE,
            Rejected::FieldsTooLarge => StatusCode::REQUEST_HEADER_FIELDS_TOO_LARGE,
            Rejected::InternalServerError => StatusCode::INTERNAL_SERVER_ERROR,
            Rejected::NotImplemented => StatusCode::NOT_IMPLEMENTED,
            Rejected::VersionNotSupported => StatusCode::HTTP_VERSION_NOT_SUPPORTED,
        }
    }

    /// The status and its phrase, as a status line has them (RFC 9110, section 15).
    pub fn title(self) -> &'static str
        ensures { result.now ≡ title_of self }
    {
        match self {
            Rejected::BadRequest => "400 Bad Request",
            Rejected::Forbidden => "403 Forbidden",
            Rejected::NotFound => "404 Not Found",
            Rejected::MethodNotAllowed => "405 Method Not Allowed",
            Rejected::ContentTooLarge => "413 Content Too Large",
            Rejected::UriTooLong => "414 URI Too Long",
            Rejected::UnsupportedMediaType => "415 Unsupported Media Type",
            Rejected::FieldsTooLarge => "431 Request Header Fields Too Large",
            Rejected::InternalServerError => "500 Internal Server Error",
            Rejected::NotImplemented => "501 Not Implemented",
            Rejected::VersionNotSupported => "505 HTTP Version Not Supported",
        }
    }
}
