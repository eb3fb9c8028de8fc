//! The answer to a request, by the routes of a service.
ghost use Rattle.std.specs.Prelude.{◌≡◌, ◌+◌, ◌≤◌, ◌++◌, ◌∷◌, IsOk, IsTrue, OnOk, codes, length};
ghost use Rattle.garde_service.specs.Answers.{GivesAsked, IsAnswerOf, IsFree, Refuses, offered};
ghost use Rattle.garde_service.specs.Rejected.{status_of};
ghost use Rattle.garde_service.specs.Room.{HasRoom, field_room};
ghost use Rattle.garde_service.specs.Routes.{asked};
ghost use Rattle.http.specs.Request.{head_of, body_of};
ghost use Rattle.http_header.specs.FieldValue.{is_visible_text};
ghost use Rattle.http_server.specs.Response.{IsBlank, IsResponse, fields_of};

use crate::date::put_date;
use crate::handler::{Body, Handler};
use crate::put::{put_field, put_text};
use crate::rejected::Rejected;
use crate::routes::{Asks, Offer, asked};
use bytes::Bytes;
use http::{Request, header};
use http_server::Response;
use httpdate::HttpDate;
use std::alloc::{AllocError, Global};

/// Says what there is in place of what was asked for. It allocates nothing where the response has room
/// for one more field.
fn put_offer(offer: Offer, response: &mut Response) -> Result<(), AllocError>
    ensures headers { OnOk result (fields_of response.new ≡ fields_of response.old ++ offered offer) }
    ensures status { response.new.status ≡ response.old.status }
    ensures body { response.new.body ≡ response.old.body }
    ensures room { length (offered offer) ≤ field_room response.old → IsOk result }
{
    let name = match offer {
        Offer::Nothing => return Ok(()),
        Offer::Methods(_, _) => header::ALLOW,
        Offer::MediaType(_) => header::ACCEPT,
        Offer::Coding => header::ACCEPT_ENCODING,
    };
    put_field(response, name, offer.text())
}

/// Puts the body of a rejection, and what there is in its place. It allocates nothing where the
/// response has room for them.
fn put_rejection(
    body: Body,
    why: Rejected,
    offer: Offer,
    response: &mut Response,
) -> Result<(), AllocError>
    requires blank { IsBlank response.old }
    requires visible { IsTrue (is_visible_text body.media.now) }
    ensures told { OnOk result (IsResponse (status_of why)
        ((codes "content-type", body.media.now) ∷ offered offer) body.text.now response.new) }
    ensures room { HasRoom (1 + length (offered offer)) (length body.text.now) response.old
        → IsOk result }
{
    put_text(response, why.status(), body.media, body.text)?;
    put_offer(offer, response)
}

/// Answers that no route answers. Where there is no memory for that, the answer is the status alone.
fn reject(body: Body, why: Rejected, offer: Offer, response: &mut Response)
    requires blank { IsBlank response.old }
    requires visible { IsTrue (is_visible_text body.media.now) }
    ensures { Refuses (body.media.now, body.text.now) response.old why offer response.new }
{
    if put_rejection(body, why, offer, response).is_err() {
        response.clear();
        response.status = why.status();
    }
}

/// Gives what a request asks for, or rejects the request.
fn give_asked<H: Handler>(
    handler: &H,
    request: &Request<Bytes>,
    response: &mut Response,
) -> Result<(), AllocError>
    requires { IsBlank response.old }
    ensures told { OnOk result (GivesAsked (H.gives handler.now) (H.rejects handler.now)
        response.old (asked (H.table handler.now) (head_of request.now)) (head_of request.now)
        (body_of request.now) response.new) }
    ensures free { IsFree (H.is_free handler.now) (asked (H.table handler.now)
        (head_of request.now)) → IsOk result }
{
    match asked(handler.routes(), request) {
        Asks::Answer(wanted) => handler.give(wanted, request, response),
        Asks::Rejection(why, offer) => {
            reject(handler.rejected(why), why, offer, response);
            Ok(())
        }
    }
}

/// Fills a blank response with the answer to a request, at this date. It may be out of memory for what
/// the handler gives. Each other request is always answered: where the response has no room for the
/// rejection and there is no memory for more, by the status alone.
pub fn respond<H: Handler>(
    alloc: Global,
    date: Option<HttpDate>,
    handler: &H,
    request: &Request<Bytes>,
    response: &mut Response,
) -> Result<(), AllocError>
    requires { IsBlank response.old }
    ensures told { OnOk result (IsAnswerOf (H.table handler.now) (H.gives handler.now)
        (H.rejects handler.now) (head_of request.now) (body_of request.now) response.new) }
    ensures free { IsFree (H.is_free handler.now) (asked (H.table handler.now)
        (head_of request.now)) → IsOk result }
{
    give_asked(handler, request, response)?;
    put_date(alloc, date, response);
    Ok(())
}
