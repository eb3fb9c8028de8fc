//! Texts that may be URLs.
ghost use Rattle.std.specs.Prelude.{◌≡◌, true, IfOk, MatchResult, Ok, Some};
ghost use Rattle.garde_engines.specs.PlainUrls.{is_plain_url};
ghost use Rattle.garde_engines.specs.Urls.{reason_of, url_answer, IsUrl, IsNoUrl};

mod plain;

use garde_i18n::InvalidUrl;
pub use plain::is_plain_url;
use std::alloc::{AllocError, Global};
pub use url::ParseError;
use url::Url;

/// The reason of an error of the parser: that of the same name, `Other` where there is none of it,
/// and no reason of `Overflow` and `OutOfMemory`, which say nothing of the text.
pub fn reason(error: &ParseError) -> Option<InvalidUrl>
    ensures { result ≡ reason_of error.now }
{
    match error {
        ParseError::EmptyHost => Some(InvalidUrl::EmptyHost),
        ParseError::IdnaError => Some(InvalidUrl::IdnaError),
        ParseError::InvalidPort => Some(InvalidUrl::InvalidPort),
        ParseError::InvalidIpv4Address => Some(InvalidUrl::InvalidIpv4Address),
        ParseError::InvalidIpv6Address => Some(InvalidUrl::InvalidIpv6Address),
        ParseError::InvalidDomainCharacter => Some(InvalidUrl::InvalidDomainCharacter),
        ParseError::RelativeUrlWithoutBase => Some(InvalidUrl::RelativeUrlWithoutBase),
        ParseError::RelativeUrlWithCannotBeABaseBase => {
            Some(InvalidUrl::RelativeUrlWithCannotBeABaseBase)
        }
        ParseError::SetHostOnCannotBeABaseUrl => Some(InvalidUrl::SetHostOnCannotBeABaseUrl),
        ParseError::CannotSet => Some(InvalidUrl::Other),
        ParseError::Overflow | ParseError::OutOfMemory => None,
    }
}

/// Parses the text as an absolute URL: Ok where it is one, and else the reason why it is none.
///
/// A plain URL ([`is_plain_url`]) is not parsed: it takes no memory, and no `AllocError` comes of it.
/// Of any other text `AllocError` is returned where there is no memory for the parts of the URL, or
/// they come to 4 GB; it says nothing of the text.
pub fn check_url(alloc: Global, text: &str) -> Result<Result<(), InvalidUrl>, AllocError>
    ensures value { IfOk result (λ answer. url_answer text.now ≡ Some answer) }
    ensures parsed { IfOk result (λ answer. MatchResult answer
        (λ _. IsUrl text.now)
        (λ reason. IsNoUrl text.now reason)) }
    ensures plain { is_plain_url text.now ≡ true → result ≡ Ok (Ok tt) }
{
    if is_plain_url(text) {
        return Ok(Ok(()));
    }
    match Url::parse(alloc, text) {
        Ok(_) => Ok(Ok(())),
        Err(error) => match reason(&error) {
            Some(reason) => Ok(Err(reason)),
            None => Err(AllocError),
        },
    }
}
