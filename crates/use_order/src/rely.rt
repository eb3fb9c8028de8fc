//! What is read, and the code that relies on it where it is valid.
ghost use Rattle.garde.specs.Fields.{Known};

use crate::order::{Delivery, Line, Order, Page};
use anyhow::Result;
use garde::{I18n, Stated, Valid};
use garde_schema::{FirstReadError, FormI18n, ReadBody, Scratch};
use std::alloc::Global;
use std::io;
use std::process::ExitCode;

/// Reads a page, or reports so many faults at most.
pub fn read_input<'a, H: I18n + FormI18n>(
    alloc: Global,
    body: &'a [u8],
    scratch: &'a mut Scratch,
    most: usize,
    h: &H,
) -> Result<Valid<Page<'a>>, FirstReadError> {
    match Page::read_body(alloc, body, scratch, most, h) {
        Ok(page) => Ok(Valid::known(page, &())),
        Err(error) => Err(error),
    }
}

/// What a line costs in cents. That of a valid line is no more than fits.
#[tactic(auto, unfolding(garde::specs::Fields::Known))]
pub fn cost(line: &Line<'_>) -> u32
    requires { Known (⟦<Line<'static> as Stated>⟧.visits line.now tt) }
{
    line.count * line.cents
}

/// The first line. A valid order has one.
#[tactic(auto, unfolding(garde::specs::Fields::Known))]
pub fn first<'o, 't>(order: &'o Valid<Order<'t>>) -> &'o Line<'t> {
    &order.lines.as_slice()[0]
}

/// Where an order is sent, or none where it is fetched. A valid one that is sent has an address.
#[tactic(auto, unfolding(garde::specs::Fields::Known))]
pub fn destination<'t>(order: &Valid<Order<'t>>) -> Option<&'t str> {
    match order.delivery {
        Delivery::Counter => None,
        Delivery::Post => Some(order.address.as_ref().unwrap().text()),
    }
}

/// Confirms an order by its customer, its first line, where it goes, and what each line costs. Texts
/// of the order stand in quotes, with what is not shown escaped.
#[tactic(auto, unfolding(garde::specs::Fields::Known))]
fn confirm(rt: &impl Print, order: &Valid<Order<'_>>) -> io::Result<()> {
    let (customer, code) = (order.customer.text(), first(order).code.text());
    match destination(order) {
        Some(address) => println!(rt; "{customer:?}: {code:?} .., by post to {address:?}")?,
        None => println!(rt; "{customer:?}: {code:?} .., at the counter")?,
    }
    for line in order.lines.as_slice() {
        println!(rt;
            "    {} x {:?}: {} cents",
            line.count,
            line.code.text(),
            cost(line)
        )?;
    }
    Ok(())
}

/// What is done with a valid page: each of its orders is confirmed.
#[tactic(auto, unfolding(garde::specs::Fields::Known))]
pub fn accept(rt: &impl Print, page: Valid<Page<'_>>) -> Result<ExitCode> {
    for order in page.into_inner().entries.into_vec() {
        let order = Valid::known(order, &());
        confirm(rt, &order)?;
    }
    Ok(ExitCode::SUCCESS)
}
