//! An application: what is done with valid bodies in JSON, and with valid parameters of a request.
ghost use Rattle.std.specs.Prelude.{◌≡◌, ◌^◌, ◌-◌, codes, IfOk, IsOk, OnOk};
ghost use Rattle.garde_schema.specs.FirstRead.{AnswersFirstBytes};
ghost use Rattle.garde_schema.specs.Forms.{forget};
ghost use Rattle.garde_service.specs.Application.{Gives, IsAnswered, IsJudgedAs, IsTaken, Says, Taking, entries, judging};
ghost use Rattle.garde_service.specs.Asked.{path_of};
ghost use Rattle.garde_service.specs.Input.{input_at};
ghost use Rattle.garde_service.specs.Json.{JudgesBody, voice};
ghost use Rattle.garde_service.specs.Judged.{Promises};
ghost use Rattle.garde_service.specs.Problems.{problem_of};
ghost use Rattle.garde_service.specs.declared.application.Page.TheVariants as pages;
ghost use Rattle.garde_service.specs.declared.routes.Route.{Route};
ghost use Rattle.garde_service.specs.declared.routes.Wanted.TheVariants as wants;
ghost use Rattle.garde_service.specs.Kept.{kept, stays};
ghost use Rattle.garde_service.specs.Routes.{pattern_of};
ghost use Rattle.garde_tape.specs.Input.{without_mark};
ghost use Rattle.http.specs.Request.{body_of, head_of};
ghost use Rattle.http_server.specs.Response.{IsBlank};

use crate::asked::language_of;
use crate::handler::{Body, Handler};
use crate::input::input_of;
use crate::json_body::put_error;
use crate::paths::fits;
use crate::problems::{PROBLEM_TYPE, problem_body};
use crate::put::put_text;
use crate::rejected::Rejected;
use crate::routes::{Route, Wanted};
use bytes::Bytes;
use garde::I18n;
use garde_catalog::{Catalog, Catalogs};
use garde_problem::WithCodes;
use garde_schema::{FirstReadError, FormI18n};
use http::{Request, StatusCode};
use http_server::Response;
use std::alloc::{AllocError, Global};

/// What answers `GET`.
#[derive(Clone, Copy, Debug)]
pub enum Page<B> {
    /// 200, with no body.
    Empty,
    /// 200, with a text in JSON.
    Json(&'static str),
    /// The application, which takes the parameters of the path and the query as a body of this kind: an
    /// object with the members `path` and `query`, each of which is an object of texts.
    Asked(B),
}

/// What is answered to a valid body.
#[derive(Debug, Drop)]
pub enum Answer {
    /// 200, with a text in JSON.
    Json(String),
    /// 204: it is done.
    NoContent,
    /// 202: it is to be done later.
    Accepted,
    /// 503: it cannot be done now.
    Unavailable,
}

/// The media type of JSON.
const JSON: &str = "application/json";

/// The problem details of what cannot be done now.
const UNAVAILABLE: &str =
    "{\"type\":\"about:blank\",\"title\":\"Service Unavailable\",\"status\":503}";

/// What is done with valid bodies in JSON. It keeps nothing from one request to the next.
pub trait Application {
    /// The kinds of bodies: an enum of your own, with a variant for each, or `()` where there is one.
    type Body: Copy + Drop;

    // What is taken as a body of this kind.
    ghost takes: { Self → Self.Body → Taking };

    /// Reads a body of this kind and takes the valid value that it spells, or reports every fault of
    /// its form and of its rules.
    fn take<H: I18n + FormI18n>(
        &self,
        kind: Self::Body,
        alloc: Global,
        body: &[u8],
        h: &H,
    ) -> Result<Answer, FirstReadError>
        ensures read { AnswersFirstBytes
            (λ j. (takes self.now kind).spelling.visits (H.form_text h.now) j) (H.text h.now)
            (2 ^ 64 - 1) (without_mark body.now) (forget result) }
        ensures taken { IfOk result (λ answer. IsTaken (takes self.now kind) body.now answer) };
}

/// Fills a blank response with an answer. It allocates for what has a text.
fn put_answer(answer: Answer, response: &mut Response) -> Result<(), AllocError>
    requires { IsBlank response.old }
    ensures { OnOk result (Says answer response.new) }
{
    match answer {
        Answer::Json(text) => put_text(response, StatusCode::OK, JSON, text.as_str()),
        Answer::NoContent => {
            response.status = StatusCode::NO_CONTENT;
            Ok(())
        }
        Answer::Accepted => {
            response.status = StatusCode::ACCEPTED;
            Ok(())
        }
        Answer::Unavailable => {
            let status = StatusCode::SERVICE_UNAVAILABLE;
            put_text(response, status, PROBLEM_TYPE, UNAVAILABLE)
        }
    }
}

/// Answers a body of this kind: as the application takes it, or in the language of this catalog and
/// this tag.
fn answer_body<A: Application>(
    alloc: Global,
    application: &A,
    kind: A::Body,
    catalog: &Catalog<'static>,
    tag: &str,
    title: &str,
    body: &[u8],
    response: &mut Response,
) -> Result<(), AllocError>
    requires { IsBlank response.old }
    ensures { OnOk result (JudgesBody (A.takes application.now kind).spelling title.now
        (voice catalog.now tag.now) (λ r. IsAnswered (A.takes application.now kind) body.now r)
        body.now response.new) }
{
    match application.take(kind, alloc, body, &WithCodes(catalog)) {
        Ok(answer) => {
            put_answer(answer, response)?;
            Ok(())
        }
        Err(error) => {
            put_error(alloc, catalog, tag, title, &error, response)?;
            Ok(())
        }
    }
}

/// An application as a service. A body with faults is answered by problem details, in the language
/// that the request asks for.
#[derive(Drop)]
pub struct Site<'c, A, B> {
    pub alloc: Global,
    /// The languages in which faults are reported.
    pub catalogs: &'c Catalogs,
    /// The title of the problem details of a body with faults.
    pub title: &'static str,
    /// The first route with the path of a request answers it.
    pub routes: &'c [Route<Page<B>, B>],
    pub application: A,
}

impl<'c, B: Copy + Drop, A: Application<Body = B>> Site<'c, A, B> {
    /// Answers a body of this kind in the language that the request asks for.
    fn judge(
        &self,
        kind: B,
        request: &Request<Bytes>,
        body: &[u8],
        response: &mut Response,
    ) -> Result<(), AllocError>
        requires { IsBlank response.old }
        ensures { OnOk result (IsJudgedAs (A.takes self.now.application kind) self.now.title.now
            self.now.catalogs.now (head_of request.now) body.now response.new) }
    {
        let place = language_of(self.catalogs, request);
        let (catalog, tag) = (self.catalogs.catalog(place), self.catalogs.tag(place));
        let (application, title) = (&self.application, self.title);
        answer_body(
            self.alloc,
            application,
            kind,
            catalog,
            tag,
            title,
            body,
            response,
        )?;
        Ok(())
    }

    /// The pattern of the first route that a path fits.
    fn pattern_of(&self, path: &str) -> &str
        ensures { result.now ≡ pattern_of (entries self.now.routes.now) path.now }
    {
        for route in self.routes {
            if fits(route.path, path) {
                return route.path;
            }
        }
        ""
    }

    /// Answers what the path and the query of a request spell, as a body of this kind.
    fn judge_input(
        &self,
        kind: B,
        request: &Request<Bytes>,
        response: &mut Response,
    ) -> Result<(), AllocError>
        requires { IsBlank response.old }
        ensures { OnOk result (IsJudgedAs (A.takes self.now.application kind) self.now.title.now
            self.now.catalogs.now (head_of request.now)
            (input_at (pattern_of (entries self.now.routes.now) (path_of (head_of request.now)))
            (head_of request.now)) response.new) }
    {
        let pattern = self.pattern_of(request.uri().path());
        let input = input_of(self.alloc, pattern, request)?;
        self.judge(kind, request, input.as_slice(), response)
    }
}

impl<'c, B: Copy + Drop, A: Application<Body = B>> Handler for Site<'c, A, B> {
    type Get = Page<B>;

    type Post = B;

    ghost table = { λ site. entries site.routes.now };

    ghost gives = { λ site wanted head body response.
        Gives site.routes.now (A.takes site.application) site.title.now
        site.catalogs.now wanted head body response };

    ghost is_free = { λ _ wanted. wanted ≡ wants.Get pages.Empty };

    ghost rejects = { λ _ why. (codes "application/problem+json", problem_of why) };

    ghost says = { λ site request response.
        Promises (judging site.routes.now (A.takes site.application) site.title.now
        site.catalogs.now) request response };

    fn routes(&self) -> &[Route<Page<B>, B>] {
        self.routes
    }

    fn give(
        &self,
        wanted: Wanted<Page<B>, B>,
        request: &Request<Bytes>,
        response: &mut Response,
    ) -> Result<(), AllocError>
        requires { IsBlank response.old }
        ensures given { OnOk result (Gives self.now.routes.now
            (A.takes self.now.application) self.now.title.now self.now.catalogs.now wanted
            (head_of request.now) (body_of request.now) response.new) }
        ensures free { wanted ≡ wants.Get pages.Empty → IsOk result }
    {
        match wanted {
            Wanted::Get(Page::Empty) => Ok(()),
            Wanted::Get(Page::Json(text)) => { put_text(response, StatusCode::OK, JSON, text) }
            Wanted::Get(Page::Asked(kind)) => self.judge_input(kind, request, response),
            Wanted::Post(kind) => self.judge(kind, request, request.body().as_slice(), response),
        }
    }

    fn rejected(&self, why: Rejected) -> Body {
        problem_body(why)
    }

    ghost stays = { λ site wanted head body response given.
        stays site.routes.now (A.takes site.application) site.title.now
        site.catalogs.now wanted head body response given };

    ghost told = { λ site request response fits.
        kept site.routes.now (A.takes site.application) site.title.now
        site.catalogs.now request response fits };
}
