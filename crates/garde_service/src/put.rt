//! What is put into a response.
ghost use Rattle.std.specs.Prelude.{◌≡◌, ◌+◌, ◌≤◌, ◌∷◌, ◌++◌, [], IsOk, IsTrue, OnOk, codes, length};
ghost use Rattle.http_header.specs.FieldValue.{is_visible_text};
ghost use Rattle.http_server.specs.Response.{IsBlank, IsResponse, fields_of};
ghost use Rattle.garde_service.specs.Said.{language_fields};
ghost use Rattle.garde_service.specs.Room.{HasRoom, field_room};

use bytes::BufMut;
use http::{HeaderName, HeaderValue, StatusCode, header};
use http_server::{Response, Rope};
use std::alloc::{AllocError, Global};

fn put(body: &mut Rope, text: &[u8]) -> Result<(), AllocError>
    requires { body.old.items ≡ [] }
    ensures items { OnOk result (body.new.items ≡ text.now) }
    ensures room { length text.now ≤ body.old.spare → IsOk result }
{
    body.put_slice(text)
}

/// Adds a field. It allocates nothing where the response has room for one more.
pub fn put_field(
    response: &mut Response,
    name: HeaderName,
    value: &'static str,
) -> Result<(), AllocError>
    requires { IsTrue (is_visible_text value.now) }
    ensures headers { OnOk result
        (fields_of response.new ≡ fields_of response.old ++ (name, value.now) ∷ []) }
    ensures status { response.new.status ≡ response.old.status }
    ensures body { response.new.body ≡ response.old.body }
    ensures room { 1 ≤ field_room response.old → IsOk result }
    ensures takes { field_room response.old ≤ field_room response.new + 1 }
{
    let field = (name, HeaderValue::from_static(value));
    Ok(response.headers.push(field)?)
}

/// Answers with a text of this media type. It allocates nothing where the response has room for both.
pub fn put_text(
    response: &mut Response,
    status: StatusCode,
    media: &'static str,
    text: &str,
) -> Result<(), AllocError>
    requires blank { IsBlank response.old }
    requires value { IsTrue (is_visible_text media.now) }
    ensures told { OnOk result (IsResponse status ((codes "content-type", media.now) ∷ []) text.now
        response.new) }
    ensures room { HasRoom 1 (length text.now) response.old → IsOk result }
    ensures takes { field_room response.old ≤ field_room response.new + 1 }
{
    response.status = status;
    put_field(response, header::CONTENT_TYPE, media)?;
    put(&mut response.body, text.as_bytes())
}

/// Says that the answer is in the language of this tag, and that it depends on what the request asks
/// for. With a tag that no field may have it fails.
pub fn put_language(alloc: Global, tag: &str, response: &mut Response) -> Result<(), AllocError>
    ensures headers { OnOk result
        (fields_of response.new ≡ fields_of response.old ++ language_fields tag.now) }
    ensures status { response.new.status ≡ response.old.status }
    ensures body { response.new.body ≡ response.old.body }
{
    let Ok(language) = HeaderValue::from_str(alloc, tag) else {
        return Err(AllocError);
    };
    response.add_header(header::CONTENT_LANGUAGE, language)?;
    response.add_header(header::VARY, HeaderValue::from_static("accept-language"))?;
    Ok(())
}
