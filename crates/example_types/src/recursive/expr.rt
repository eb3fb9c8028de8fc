//! Expressions, which hold their parts in boxes.
ghost use Rattle.garde.specs.Fields.{item, Visited};
ghost use Rattle.example_types.specs.ExprVisits.{expr_visits};

use garde::fields::{Field, Fields, Is};
use garde::{Component, I18n, Report, Stated, Trail, Validate, range};
use std::alloc::AllocError;

/// An expression whose numbers are at least -10 and at most 10.
#[derive(Drop)]
pub enum Expr {
    /// A number.
    Num(i64),
    /// What is taken with the other sign.
    Neg(Box<Expr>),
    /// A sum.
    Add(Box<Expr>, Box<Expr>),
}

impl Stated for Expr {
    type Context = ();

    ghost visits = { λ v _. expr_visits v };
}

impl Validate for Expr {
    fn validate_into<'a, H: I18n>(
        &'a self,
        _ctx: &(),
        trail: &mut Trail<'a>,
        report: &mut Report,
        h: &H,
    ) -> Result<(), AllocError> {
        walk(self, trail, report, h)
    }
}

#[cycle(walk)]
fn walk<'a, H: I18n>(
    expr: &'a Expr,
    trail: &mut Trail<'a>,
    report: &mut Report,
    h: &H,
) -> Result<(), AllocError>
    ensures { Visited (expr_visits expr.now) (H.text h.now)
        trail.old trail.new report.old report.new result }
{
    match expr {
        Expr::Num(num) => {
            let within = Is(range!(min = -10, max = 10));
            Field("num", num, within).visit(trail, report, h)
        }
        Expr::Neg(part) => walk_at(0, part, trail, report, h),
        Expr::Add(left, right) => {
            walk_at(0, left, trail, report, h)?;
            walk_at(1, right, trail, report, h)
        }
    }
}

#[cycle(walk)]
fn walk_at<'a, H: I18n>(
    index: usize,
    expr: &'a Expr,
    trail: &mut Trail<'a>,
    report: &mut Report,
    h: &H,
) -> Result<(), AllocError>
    ensures { Visited (item index (expr_visits expr.now)) (H.text h.now)
        trail.old trail.new report.old report.new result }
{
    trail.push(Component::index(index))?;
    let outcome = walk(expr, trail, report, h);
    trail.pop();
    outcome
}
