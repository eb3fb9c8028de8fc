//! The service: its routes, and what is done with what is valid.
ghost use Rattle.std.specs.Prelude.{◌≡◌, ◌^◌, ◌-◌, ◌++◌, codes, IfOk};
ghost use Rattle.garde_schema.specs.FirstRead.{AnswersFirstBytes};
ghost use Rattle.garde_schema.specs.Forms.{forget};
ghost use Rattle.garde_tape.specs.Input.{without_mark};
ghost use Rattle.std.specs.Fmt.{decimal};
ghost use Rattle.garde_service.specs.Application.{IsJson, IsTaken, Taking, taking};
ghost use Rattle.garde_service.specs.declared.application.Answer.TheVariants.{NoContent};
ghost use Rattle.use_http.specs.declared.service.Kind.TheVariants.{Order, List};

use crate::list_orders::ListOrders;
use crate::order::{OPEN_API, Order};
use garde::{I18n, Stated, Valid};
use garde_schema::{FirstReadError, FormI18n, ReadBody, Scratch, Spelled};
use garde_service::{Answer, Application, Media, Page, Post, Route, Sites};
use std::alloc::Global;

/// What is taken of requests.
#[derive(Clone, Copy, Debug)]
pub enum Kind {
    /// An order, as the body.
    Order,
    /// Which orders are to be listed, by the query.
    List,
}

/// The routes. There are two kinds of what is taken.
pub const ROUTES: &[Route<Page<Kind>, Kind>] = &[
    Route {
        path: "/orders",
        get: Some(Page::Asked(Kind::List)),
        post: Some(Post {
            media: Media::Json,
            sites: Sites::Any,
            answer: Kind::Order,
        }),
    },
    Route {
        path: "/health",
        get: Some(Page::Empty),
        post: None,
    },
    Route {
        path: "/openapi.json",
        get: Some(Page::Json(OPEN_API)),
        post: None,
    },
];

/// Takes orders, and lists them.
#[derive(Drop)]
pub struct Orders;

/// Takes a valid order. It is dropped here: a program that keeps orders does so before it answers.
fn accept(order: Valid<Order<'_>>) -> Answer
    ensures { result ≡ NoContent }
{
    let _order = order.into_inner();
    Answer::NoContent
}

/// Lists the orders of a page. None was kept.
fn list(alloc: Global, asked: Valid<ListOrders<'_>>) -> Answer
    ensures { IsJson (codes "{\"page\":" ++ (decimal asked.entry.query.page ++ codes ",\"orders\":[]}")) result }
{
    let page = asked.into_inner().query.page;
    match format!(in alloc; "{{\"page\":{page},\"orders\":[]}}") {
        Ok(text) => Answer::Json(text),
        Err(_) => Answer::Unavailable,
    }
}

/// Takes a body that is an order.
fn take_order<H: I18n + FormI18n>(
    alloc: Global,
    body: &[u8],
    h: &H,
) -> Result<Answer, FirstReadError>
    ensures read { AnswersFirstBytes
        (λ j. ⟦<Order<'static> as Spelled>⟧.spelled.visits (H.form_text h.now) j) (H.text h.now)
        (2 ^ 64 - 1) (without_mark body.now) (forget result) }
    ensures taken { IfOk result (λ answer. IsTaken (taking ⟦<Order<'static> as Spelled>⟧.spelled
        ⟦<Order<'static> as Stated>⟧.visits (λ _ answer. answer ≡ NoContent)) body.now answer) }
{
    let mut scratch = Scratch::new(alloc);
    match Order::read_body(alloc, body, &mut scratch, usize::MAX, h) {
        Ok(order) => Ok(accept(Valid::known(order, &()))),
        Err(error) => Err(error),
    }
}

/// Takes a query that asks for a page of orders.
fn take_list<H: I18n + FormI18n>(
    alloc: Global,
    body: &[u8],
    h: &H,
) -> Result<Answer, FirstReadError>
    ensures read { AnswersFirstBytes
        (λ j. ⟦<ListOrders<'static> as Spelled>⟧.spelled.visits (H.form_text h.now) j) (H.text h.now)
        (2 ^ 64 - 1) (without_mark body.now) (forget result) }
    ensures taken { IfOk result (λ answer. IsTaken (taking ⟦<ListOrders<'static> as Spelled>⟧.spelled
        ⟦<ListOrders<'static> as Stated>⟧.visits (λ asked answer. IsJson
        (codes "{\"page\":" ++ (decimal asked.query.page ++ codes ",\"orders\":[]}")) answer)) body.now answer) }
{
    let mut scratch = Scratch::new(alloc);
    match ListOrders::read_body(alloc, body, &mut scratch, usize::MAX, h) {
        Ok(asked) => Ok(list(alloc, Valid::known(asked, &()))),
        Err(error) => Err(error),
    }
}

impl Application for Orders {
    type Body = Kind;

    ghost takes = { λ _ kind. elim kind as (λ _. Taking) [
      | Order ↦ taking ⟦<Order<'static> as Spelled>⟧.spelled ⟦<Order<'static> as Stated>⟧.visits
          (λ _ answer. answer ≡ NoContent)
      | List ↦ taking ⟦<ListOrders<'static> as Spelled>⟧.spelled ⟦<ListOrders<'static> as Stated>⟧.visits
          (λ asked answer. IsJson (codes "{\"page\":" ++ (decimal asked.query.page ++ codes ",\"orders\":[]}")) answer)
    ] };

    fn take<H: I18n + FormI18n>(
        &self,
        kind: Kind,
        alloc: Global,
        body: &[u8],
        h: &H,
    ) -> Result<Answer, FirstReadError> {
        match kind {
            Kind::Order => take_order(alloc, body, h),
            Kind::List => take_list(alloc, body, h),
        }
    }
}
