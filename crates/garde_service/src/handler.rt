//! What a service answers.
ghost use Rattle.std.specs.Prelude.{◌≡◌, ◌≢◌, ℕ, List, map, IsOk, IsTrue, OnOk};
ghost use Rattle.http.specs.Request.{head_of, body_of};
ghost use Rattle.http.specs.declared.request.Parts.{Parts};
ghost use Rattle.http_header.specs.FieldValue.{is_visible_text};
ghost use Rattle.http1.specs.Message as wire;
ghost use Rattle.http_server.specs.declared.response.Response.{Response};
ghost use Rattle.http_server.specs.Response.{IsBlank};
ghost use Rattle.garde_service.specs.Answers.{IsAnswerOf};
ghost use Rattle.garde_service.specs.Fits.{Fits};
ghost use Rattle.garde_service.specs.Routes.{Entry, entry_of};
ghost use Rattle.garde_service.specs.declared.rejected.Rejected.{Rejected};
ghost use Rattle.garde_service.specs.declared.routes.Wanted.{Wanted};

use crate::rejected::Rejected;
use crate::routes::{Route, Wanted};
use bytes::Bytes;
use http::Request;
use http_server::Response;
use std::alloc::AllocError;

/// The body of an answer, and its media type.
#[derive(Clone, Copy, Debug)]
pub struct Body {
    pub media: &'static str,
    pub text: &'static str,
}

/// What a service answers: its routes, and what each of them gives. It keeps nothing from one request
/// to the next.
pub trait Handler {
    /// What answers `GET` and `HEAD`: an enum of your own, with a variant for each page.
    type Get: Copy + Drop;

    /// What takes the body of a `POST`: an enum of your own, with a variant for each kind of body.
    type Post: Copy + Drop;

    // Its routes.
    ghost table: { Self → List (Entry Self.Get Self.Post) };

    // The response is what this gives to a request with this head and this body.
    ghost gives: { Self → Wanted Self.Get Self.Post → Parts → List ℕ → Response → Type 0 };

    // This is given without any memory.
    ghost is_free: { Self → Wanted Self.Get Self.Post → Type 0 };

    // The media type and the text of the answer to a request that is rejected so.
    ghost rejects: { Self → Rejected → List ℕ × List ℕ };

    // What an answer says of its request, both as they are on the wire.
    ghost says: { Self → wire.Request → wire.Response → Type 0 };

    /// The routes of the service. The first one with the path of a request answers it.
    fn routes(&self) -> &[Route<Self::Get, Self::Post>]
        ensures { map (λ route. entry_of route) result.now ≡ table self.now };

    /// Fills `response`, which comes as a 200 with no field and no body.
    ///
    /// The error is for memory alone, and ends the connection.
    fn give(
        &self,
        wanted: Wanted<Self::Get, Self::Post>,
        request: &Request<Bytes>,
        response: &mut Response,
    ) -> Result<(), AllocError>
        requires { IsBlank response.old }
        ensures given { OnOk result (gives self.now wanted (head_of request.now)
            (body_of request.now) response.new) }
        ensures free { is_free self.now wanted → IsOk result };

    /// The body of the answer to a request that is rejected: by `http_server`, or since no route
    /// answers it.
    fn rejected(&self, why: Rejected) -> Body
        ensures media { result.media.now ≡ (rejects self.now why).0 }
        ensures text { result.text.now ≡ (rejects self.now why).1 }
        ensures visible { IsTrue (is_visible_text result.media.now) };

    // No answer hands the connection over.
    ghost stays: { (handler : Self) → (wanted : Wanted Self.Get Self.Post) → (head : Parts)
        → (body : List ℕ) → (response : Response) → gives handler wanted head body response
        → response.status ≢ 101 };

    // Each answer on the wire says it.
    ghost told: { (handler : Self) → (request : wire.Request) → (response : wire.Response)
        → Fits (IsAnswerOf (table handler) (gives handler) (rejects handler)) request response
        → says handler request response };
}
