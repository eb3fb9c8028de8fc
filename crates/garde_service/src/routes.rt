//! The routes of a service, and what a request asks of them.
ghost use Rattle.std.specs.Prelude.{◌≡◌, IsTrue, map};
ghost use Rattle.http.specs.Request.{head_of};
ghost use Rattle.http_header.specs.FieldValue.{is_visible_text};
ghost use Rattle.garde_service.specs.Routes.{asked, asked_at, asked_by_post, entry_of, media_text, offers, other_method};

use crate::asked::{IDENTITY, elsewhere, has_coding, has_type, is_foreign};
use crate::paths::fits;
use crate::rejected::Rejected;
use bytes::Bytes;
use http::Request;

/// A media type of bodies that are read.
#[derive(Clone, Copy, Debug)]
pub enum Media {
    Json,
    /// The fields of a web form.
    WebForm,
}

impl Media {
    /// The type, as fields name it.
    pub fn text(self) -> &'static str
        ensures value { result.now ≡ media_text self }
        ensures visible { IsTrue (is_visible_text result.now) }
    {
        match self {
            Media::Json => "application/json",
            Media::WebForm => "application/x-www-form-urlencoded",
        }
    }
}

/// Whose bodies are taken.
#[derive(Clone, Copy, Debug)]
pub enum Sites {
    /// What a page of the service sends, or no page.
    Own,
    /// What any page sends.
    Any,
}

/// What takes the bodies that are sent by `POST`.
#[derive(Clone, Copy, Debug)]
pub struct Post<P> {
    /// Their media type.
    pub media: Media,
    /// Who may send them.
    pub sites: Sites,
    pub answer: P,
}

/// A path of a service, and what answers there.
#[derive(Clone, Copy, Debug)]
pub struct Route<G, P> {
    /// A segment as `{id}` is a parameter, which any text fits that is not empty. No other escape is
    /// decoded, and nothing is left out of a path before it is compared.
    pub path: &'static str,
    /// What answers `GET` and `HEAD`.
    pub get: Option<G>,
    pub post: Option<Post<P>>,
}

/// What is there for a request, by its method.
#[derive(Clone, Copy, Debug)]
pub enum Wanted<G, P> {
    /// What answers `GET` and `HEAD`.
    Get(G),
    /// What takes the body of a `POST`.
    Post(P),
}

/// What there is in place of what is asked for.
#[derive(Clone, Copy, Debug)]
pub enum Offer {
    Nothing,
    /// The methods of the path: `GET` and `HEAD` or not, `POST` or not.
    Methods(bool, bool),
    /// The media type of a body.
    MediaType(Media),
    /// The coding of a body, `identity`.
    Coding,
}

impl Offer {
    /// The offer, as a field lists it.
    pub fn text(self) -> &'static str
        ensures value { result.now ≡ offers self }
        ensures visible { IsTrue (is_visible_text result.now) }
    {
        match self {
            Offer::Nothing | Offer::Methods(false, false) => "",
            Offer::Methods(true, true) => "GET, HEAD, POST",
            Offer::Methods(true, false) => "GET, HEAD",
            Offer::Methods(false, true) => "POST",
            Offer::MediaType(media) => media.text(),
            Offer::Coding => IDENTITY,
        }
    }
}

/// What a request asks of the routes of a service.
#[derive(Clone, Copy, Debug)]
pub enum Asks<E> {
    /// That this answers.
    Answer(E),
    /// What no route has.
    Rejection(Rejected, Offer),
}

impl<G: Copy, P: Copy> Route<G, P> {
    /// That there is an answer to other methods.
    fn other_method(&self) -> Asks<Wanted<G, P>>
        ensures { result ≡ other_method (entry_of self.now) }
    {
        Asks::Rejection(
            Rejected::MethodNotAllowed,
            Offer::Methods(self.get.is_some(), self.post.is_some()),
        )
    }

    /// What a request by `POST` asks.
    fn asked_by_post(&self, request: &Request<Bytes>) -> Asks<Wanted<G, P>>
        ensures { result ≡ asked_by_post (entry_of self.now) (head_of request.now) self.now.post }
    {
        let Some(post) = self.post else {
            return self.other_method();
        };
        let type_is_other = Rejected::UnsupportedMediaType;
        if matches!(post.sites, Sites::Own) && is_foreign(request) {
            Asks::Rejection(Rejected::Forbidden, Offer::Nothing)
        } else if !has_type(request, post.media.text()) {
            Asks::Rejection(type_is_other, Offer::MediaType(post.media))
        } else if has_coding(request) {
            Asks::Rejection(type_is_other, Offer::Coding)
        } else {
            Asks::Answer(Wanted::Post(post.answer))
        }
    }

    /// What a request asks of the route.
    fn asked(&self, request: &Request<Bytes>) -> Asks<Wanted<G, P>>
        ensures { result ≡ asked_at (entry_of self.now) (head_of request.now) }
    {
        match (request.method().as_str(), self.get) {
            ("POST", _) => self.asked_by_post(request),
            ("GET" | "HEAD", Some(page)) => Asks::Answer(Wanted::Get(page)),
            _ => self.other_method(),
        }
    }
}

/// What a request asks of the first route that its path fits.
pub fn asked<G: Copy, P: Copy>(
    routes: &[Route<G, P>],
    request: &Request<Bytes>,
) -> Asks<Wanted<G, P>>
    ensures { result ≡ asked (map (λ route. entry_of route) routes.now) (head_of request.now) }
{
    match routes {
        [] => Asks::Rejection(elsewhere(request), Offer::Nothing),
        [route, ..] if fits(route.path, request.uri().path()) => route.asked(request),
        [_, rest @ ..] => asked(rest, request),
    }
}
