//! Texts that are URLs.
ghost use Rattle.std.specs.Prelude.{◌≡◌, Bool, true, false, IfOk, IsOk, Ok, MatchResult, Some, Option, Result, option_map};
ghost use Rattle.garde_engines.specs.PlainUrls.{is_plain_url};
ghost use Rattle.garde_engines.specs.Urls.{url_answer, IsUrl, IsNoUrl};
ghost use Rattle.garde_i18n.specs.declared.reasons.InvalidUrl.{InvalidUrl};
ghost use Rattle.garde_rules.specs.Holds.{is_exempt_option};
ghost use Rattle.garde_rules.specs.Memory.{AppliesIfKnown};
ghost use Rattle.garde_rules.specs.Reasons.{url_fault, option_if_known};

use crate::as_str::AsStr;
use garde_engines::urls::check_url;
pub use garde_engines::urls::{ParseError, reason};
use garde_i18n::I18n;
pub use garde_i18n::InvalidUrl;
use garde_report::RuleError;
use std::alloc::{AllocError, Global};

/// A value that may be a URL. Every text may, and an option of one.
pub trait Url {
    /// Ok of a URL, and else why the value is none, where that is known.
    ghost answer: { Self → Option (Result (Unit {0}) InvalidUrl) };

    /// Whether the value passes with no parse, as a plain URL does and an option without a value.
    ghost is_exempt: { Self → Bool } = { λ _. false };

    /// Returns Ok where the text is an absolute URL, as the crate `url` parses it, and else why it
    /// is none. A plain URL (`garde_engines::urls::is_plain_url`) passes and so does an option without a
    /// value, whatever memory there is.
    ///
    /// Else `AllocError` is returned where there is no memory for the parts of the URL, or they
    /// come to 4 GB; it says nothing of the text.
    fn validate_url(&self, alloc: Global) -> Result<Result<(), InvalidUrl>, AllocError>
        ensures value { IfOk result (λ given. answer self.now ≡ Some given) }
        ensures exempt { is_exempt self.now ≡ true → result ≡ Ok (Ok tt) };
}

impl<T: AsStr> Url for T {
    ghost answer = { λ v. url_answer (T.text v) };

    ghost is_exempt = { λ v. is_plain_url (T.text v) };

    fn validate_url(&self, alloc: Global) -> Result<Result<(), InvalidUrl>, AllocError>
        ensures value { IfOk result (λ given. url_answer (T.text self.now) ≡ Some given) }
        ensures parsed { IfOk result (λ given. MatchResult given
            (λ _. IsUrl (T.text self.now))
            (λ reason. IsNoUrl (T.text self.now) reason)) }
        ensures exempt { is_plain_url (T.text self.now) ≡ true → result ≡ Ok (Ok tt) }
    {
        check_url(alloc, self.as_str())
    }
}

impl<T: Url> Url for Option<T> {
    ghost answer = { option_if_known T.answer };

    ghost is_exempt = { is_exempt_option T.is_exempt };

    fn validate_url(&self, alloc: Global) -> Result<Result<(), InvalidUrl>, AllocError> {
        match self {
            None => Ok(Ok(())),
            Some(v) => v.validate_url(alloc),
        }
    }
}

/// Returns Ok where the text is an absolute URL, and else the fault with the handler's text of why
/// it is none.
///
/// A plain URL passes and so does an option without a value, whatever memory there is.
///
/// Else `RuleError::Memory` is returned where there is no memory for the parts of the URL or the
/// fault; it says nothing of the text.
pub fn apply<T: Url, H: I18n>(alloc: Global, v: &T, _args: (), h: &H) -> Result<(), RuleError>
    ensures answer { AppliesIfKnown (option_map url_fault (T.answer v.now)) (H.text h.now) result }
    ensures exempt { T.is_exempt v.now ≡ true → IsOk result }
{
    match v.validate_url(alloc) {
        Ok(Ok(())) => Ok(()),
        Ok(Err(reason)) => Err(RuleError::of(alloc, h.url_invalid(alloc, reason))),
        Err(AllocError) => Err(RuleError::Memory),
    }
}
