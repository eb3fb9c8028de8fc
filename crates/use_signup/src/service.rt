//! The service: what is answered to each request.
ghost use Rattle.std.specs.Prelude.{◌≡◌, ◌≢◌, [], Err, OnOk, codes, ◌∷◌, IsOk};
ghost use Rattle.garde_catalog.specs.Forms.{catalog_form_text};
ghost use Rattle.garde_form.specs.WebForm.{field_texts};
ghost use Rattle.garde_service.specs.Judged.{Promises};
ghost use Rattle.http.specs.Request.{head_of, body_of};
ghost use Rattle.http_server.specs.Response.{IsBlank, IsResponse};
ghost use Rattle.use_signup.specs.Answered.{Gives, InLanguage, Judges, ReadsFields, Tells, judging, page_fields, routes, voice};
ghost use Rattle.use_signup.specs.Labels.{labelled_text};
ghost use Rattle.use_signup.specs.Laws.{kept, stays};
ghost use Rattle.use_signup.specs.Refused.{page_of};
ghost use Rattle.use_signup.specs.Shown.{empty_page};

use crate::labels::Labelled;
use crate::page::{write_faults, write_page};
use crate::put::{PAGE_TYPE, put_page, put_signed_up};
use crate::refused::page_of;
use crate::sign_up::{SignUp, read_sign_up};
use crate::terms::Words;
use crate::texts::{Speech, Texts};
use bytes::Bytes;
use garde::ValidateError;
use garde_catalog::Catalog;
use garde_form::{FormField, form_fields};
use garde_html::Form;
use garde_schema::SpelledUnder;
use garde_service::{Body, Handler, Media, Post, Rejected, Route, Sites, Wanted, language_of};
use http::{Request, StatusCode};
use http_server::Response;
use std::alloc::{AllocError, Global};

/// What the service shows.
#[derive(Clone, Copy)]
pub enum Page {
    /// The form, with no field filled in.
    Form,
    /// The page of thanks.
    Thanks,
}

/// The routes, where these sites may send the form. There is one form to send.
macro_rules! routes {
    ($sites:expr) => {
        &[
            Route {
                path: "/",
                get: Some(Page::Form),
                post: Some(Post {
                    media: Media::WebForm,
                    sites: $sites,
                    answer: (),
                }),
            },
            Route {
                path: "/thanks",
                get: Some(Page::Thanks),
                post: None,
            },
        ]
    };
}

const ROUTES: &[Route<Page, ()>] = routes!(Sites::Own);

const ROUTES_OF_ANY_SITE: &[Route<Page, ()>] = routes!(Sites::Any);

/// Reads the fields of a form, or reports every fault of its form and of its rules. Who signs up is
/// dropped here: a program that keeps it does so before it answers.
fn read_fields(
    alloc: Global,
    fields: &[FormField<'_>],
    words: &Words,
    h: &Labelled<'_>,
) -> Result<(), ValidateError>
    ensures { result ≢ Err ValidateError.Memory
        → ReadsFields (λ words. (⟦<SignUp<'static> as SpelledUnder>⟧.spelled words).visits) words.now
        (λ fault. catalog_form_text h.now.catalog.now fault) (labelled_text h.now)
        (field_texts fields.now) result }
{
    match read_sign_up(alloc, fields, words, h) {
        Ok(who) => {
            let _who = who.into_inner();
            Ok(())
        }
        Err(error) => Err(error),
    }
}

/// Answers with the result of reading these fields, by this form and these texts, in the language of this
/// tag.
fn put_result(
    alloc: Global,
    form: &Form<'_>,
    h: &Labelled<'_>,
    tag: &str,
    fields: &[FormField<'_>],
    read: &Result<(), ValidateError>,
    response: &mut Response,
) -> Result<(), AllocError>
    requires { IsBlank response.old }
    ensures { OnOk result (Tells form.now (labelled_text h.now) tag.now (field_texts fields.now)
        read.now response.new) }
{
    match read {
        Ok(()) => put_signed_up(response),
        Err(ValidateError::Report(report)) => {
            let html = write_faults(alloc, form, fields, report, h)?;
            let status = StatusCode::UNPROCESSABLE_ENTITY;
            put_page(alloc, tag, status, html.as_str(), response)
        }
        Err(ValidateError::Memory) => Err(AllocError),
    }
}

/// Fills a blank response with what is answered to the body of a form, in the language of this catalog,
/// this tag and these texts.
fn judge(
    alloc: Global,
    body: &[u8],
    catalog: &Catalog<'static>,
    tag: &str,
    texts: &Texts,
    response: &mut Response,
) -> Result<(), AllocError>
    requires { IsBlank response.old }
    ensures { OnOk result (Judges (λ words. (⟦<SignUp<'static> as SpelledUnder>⟧.spelled words).visits)
        (voice catalog.now tag.now texts.now) body.now response.new) }
{
    let fields = form_fields(alloc, body)?;
    let h = Labelled {
        fields: texts.form.fields,
        catalog,
    };
    let read = read_fields(alloc, fields.as_slice(), &texts.words, &h);
    put_result(
        alloc,
        &texts.form,
        &h,
        tag,
        fields.as_slice(),
        &read,
        response,
    )?;
    Ok(())
}

/// Judges a form in the language that the request asks for.
fn judge_form(
    alloc: Global,
    speech: &Speech<'_>,
    request: &Request<Bytes>,
    response: &mut Response,
) -> Result<(), AllocError>
    requires { IsBlank response.old }
    ensures { OnOk result (InLanguage speech.now (head_of request.now) (λ voice.
        Judges (λ words. (⟦<SignUp<'static> as SpelledUnder>⟧.spelled words).visits) voice
        (body_of request.now) response.new)) }
{
    let place = language_of(speech.catalogs, request);
    let catalog = speech.catalogs.catalog(place);
    let (tag, texts) = (speech.catalogs.tag(place), speech.texts(place));
    judge(
        alloc,
        request.body().as_slice(),
        catalog,
        tag,
        texts,
        response,
    )?;
    Ok(())
}

/// Answers with the page of the form, with no field filled in.
fn put_empty_form(
    alloc: Global,
    speech: &Speech<'_>,
    request: &Request<Bytes>,
    response: &mut Response,
) -> Result<(), AllocError>
    requires { IsBlank response.old }
    ensures { OnOk result (InLanguage speech.now (head_of request.now) (λ voice.
        IsResponse 200 (page_fields voice.tag) (empty_page voice.texts.form) response.new)) }
{
    let place = language_of(speech.catalogs, request);
    let (tag, texts) = (speech.catalogs.tag(place), speech.texts(place));
    let html = write_page(alloc, &texts.form)?;
    put_page(alloc, tag, StatusCode::OK, html.as_str(), response)?;
    Ok(())
}

/// Answers with the page of thanks.
fn put_thanks(
    alloc: Global,
    speech: &Speech<'_>,
    request: &Request<Bytes>,
    response: &mut Response,
) -> Result<(), AllocError>
    requires { IsBlank response.old }
    ensures { OnOk result (InLanguage speech.now (head_of request.now) (λ voice.
        IsResponse 200 (page_fields voice.tag) voice.texts.thanks.now response.new)) }
{
    let place = language_of(speech.catalogs, request);
    let (tag, texts) = (speech.catalogs.tag(place), speech.texts(place));
    put_page(alloc, tag, StatusCode::OK, texts.thanks, response)?;
    Ok(())
}

/// Signs up who sends a form.
#[derive(Drop)]
pub struct SignUps<'a> {
    pub alloc: Global,
    /// The languages in which it answers.
    pub speech: Speech<'a>,
    /// Whose forms it takes.
    pub sites: Sites,
}

impl<'a> Handler for SignUps<'a> {
    type Get = Page;

    type Post = ();

    ghost table = { λ handler. routes handler.sites };

    ghost gives = { λ handler wanted head body response.
        Gives (λ words. (⟦<SignUp<'static> as SpelledUnder>⟧.spelled words).visits)
        handler.speech wanted head body response };

    ghost is_free = { λ _ _. ⊥ };

    ghost rejects = { λ _ why. (codes "text/html; charset=utf-8", page_of why) };

    // 303 answers each valid form that may be sent and nothing else, and 422 each with faults and
    // nothing else.
    ghost says = { λ handler request response.
        Promises (judging (λ words. (⟦<SignUp<'static> as SpelledUnder>⟧.spelled words).visits)
        handler.sites handler.speech) request response };

    fn routes(&self) -> &[Route<Page, ()>] {
        match self.sites {
            Sites::Own => ROUTES,
            Sites::Any => ROUTES_OF_ANY_SITE,
        }
    }

    fn give(
        &self,
        wanted: Wanted<Page, ()>,
        request: &Request<Bytes>,
        response: &mut Response,
    ) -> Result<(), AllocError>
        requires { IsBlank response.old }
        ensures given { OnOk result (Gives
            (λ words. (⟦<SignUp<'static> as SpelledUnder>⟧.spelled words).visits) self.now.speech
            wanted (head_of request.now) (body_of request.now) response.new) }
        ensures free { ⊥ → IsOk result }
    {
        match wanted {
            Wanted::Get(Page::Form) => put_empty_form(self.alloc, &self.speech, request, response),
            Wanted::Get(Page::Thanks) => put_thanks(self.alloc, &self.speech, request, response),
            Wanted::Post(()) => judge_form(self.alloc, &self.speech, request, response),
        }
    }

    fn rejected(&self, why: Rejected) -> Body {
        Body {
            media: PAGE_TYPE,
            text: page_of(why),
        }
    }

    ghost stays = { λ handler wanted head body response given.
        stays (λ words. (⟦<SignUp<'static> as SpelledUnder>⟧.spelled words).visits)
        handler.sites handler.speech wanted head body response given };

    ghost told = { λ handler request response fits.
        kept (λ words. (⟦<SignUp<'static> as SpelledUnder>⟧.spelled words).visits)
        handler.sites handler.speech request response fits };
}
