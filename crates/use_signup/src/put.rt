//! What the service puts into a response.
ghost use Rattle.std.specs.Prelude.{◌≡◌, ◌++◌, ◌∷◌, [], OnOk, codes};
ghost use Rattle.http_server.specs.Response.{IsBlank, IsResponse, fields_of};
ghost use Rattle.use_signup.specs.Answered.{guard_fields, page_fields};

use garde_html::POLICY;
use garde_service::{put_field, put_language, put_text};
use http::{StatusCode, header};
use http_server::Response;
use std::alloc::{AllocError, Global};

/// The media type of a page.
pub const PAGE_TYPE: &str = "text/html; charset=utf-8";

/// Says what a browser does not do with a page: it loads nothing for it and frames it nowhere, guesses no
/// other type, names it to no other site, and keeps no copy.
fn put_guards(response: &mut Response) -> Result<(), AllocError>
    ensures headers { OnOk result (fields_of response.new ≡ fields_of response.old ++ guard_fields) }
    ensures status { response.new.status ≡ response.old.status }
    ensures body { response.new.body ≡ response.old.body }
{
    put_field(response, header::CONTENT_SECURITY_POLICY, POLICY)?;
    put_field(response, header::X_CONTENT_TYPE_OPTIONS, "nosniff")?;
    put_field(response, header::REFERRER_POLICY, "same-origin")?;
    put_field(response, header::CACHE_CONTROL, "no-store")?;
    Ok(())
}

/// Answers with a page in the language of this tag.
pub(crate) fn put_page(
    alloc: Global,
    tag: &str,
    status: StatusCode,
    html: &str,
    response: &mut Response,
) -> Result<(), AllocError>
    requires { IsBlank response.old }
    ensures { OnOk result (IsResponse status (page_fields tag.now) html.now response.new) }
{
    put_text(response, status, PAGE_TYPE, html)?;
    put_language(alloc, tag, response)?;
    put_guards(response)
}

/// Answers that who sent the form is signed up: a browser asks for the page of thanks then.
pub(crate) fn put_signed_up(response: &mut Response) -> Result<(), AllocError>
    requires { IsBlank response.old }
    ensures { OnOk result (IsResponse 303 ((codes "location", codes "/thanks") ∷ []) [] response.new) }
{
    response.status = StatusCode::SEE_OTHER;
    put_field(response, header::LOCATION, "/thanks")
}
