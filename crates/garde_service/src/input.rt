//! What the path and the query of a request spell, as one JSON text.
ghost use Rattle.std.specs.Prelude.{◌≡◌, IfOk, unwrap_or, []};
ghost use Rattle.garde_form.specs.WebForm.{field_texts, fields_in};
ghost use Rattle.garde_problem.specs.Problem.{json_text, params_members};
ghost use Rattle.garde_service.specs.Input.{input_at, input_text};
ghost use Rattle.garde_service.specs.Paths.{parameters, segments};
ghost use Rattle.http.specs.Request.{head_of};
ghost use Rattle.json.specs.Json.{object};

use crate::paths::parameters;
use bytes::Bytes;
use garde_form::{FormField, form_fields};
use http::Request;
use json::Writer;
use std::alloc::{AllocError, Global};

/// An object with a member for each of these fields.
fn object_text(alloc: Global, fields: &[FormField<'_>]) -> Result<Vec<u8>, AllocError>
    ensures { IfOk result (λ text. text.items
        ≡ json_text (object (params_members (field_texts fields.now)))) }
{
    let mut out = Writer::new(Vec::new(alloc));
    out.begin_object()?;
    for (name, text) in fields {
        out.key(name.as_str())?;
        out.string(text.as_str())?;
    }
    out.end_object()?;
    Ok(out.into_inner())
}

/// An object with the parameters of a path and the fields of a query.
fn input_text(
    alloc: Global,
    parameters: &[FormField<'_>],
    fields: &[FormField<'_>],
) -> Result<Vec<u8>, AllocError>
    ensures { IfOk result (λ text. text.items
        ≡ input_text (field_texts parameters.now) (field_texts fields.now)) }
{
    let (path, query) = (object_text(alloc, parameters)?, object_text(alloc, fields)?);
    let mut text = Vec::new(alloc);
    text.extend_from_slice(b"{\"path\":")?;
    text.extend_from_slice(path.as_slice())?;
    text.extend_from_slice(b",\"query\":")?;
    text.extend_from_slice(query.as_slice())?;
    text.push(b'}')?;
    Ok(text)
}

/// What a request spells whose path fits this pattern: an object with its parameters as `path`, and
/// with the fields of its query as `query`.
pub fn input_of(
    alloc: Global,
    pattern: &str,
    request: &Request<Bytes>,
) -> Result<Vec<u8>, AllocError>
    ensures { IfOk result (λ text. text.items ≡ input_at pattern.now (head_of request.now)) }
{
    let uri = request.uri();
    let parameters = parameters(alloc, pattern, uri.path())?;
    let fields = form_fields(alloc, uri.query().unwrap_or("").as_bytes())?;
    input_text(alloc, parameters.as_slice(), fields.as_slice())
}
