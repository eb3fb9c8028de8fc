//! Tests of rules under a condition, and of rules of a view.
ghost use Rattle.std.specs.Prelude.{string_bytes};
ghost use Rattle.garde_i18n.specs.Datum.{not_ascii, prefix};
ghost use Rattle.garde_engines.specs.Applies.{Applies};
ghost use Rattle.garde_rules.specs.Holds.{fault_when, unless};
ghost use Rattle.garde_rules.specs.Text.{has_prefix, is_ascii_text};

use super::tells;
use crate::tests::{OrEnd, has_text};
use garde_i18n::{DefaultI18n, I18n};
use garde_report::{Component, Report, RuleError, Trail};
use garde_rules::{adapt, ascii, inner, prefix, when};
use std::alloc::{AllocError, Global};

/// The rule of ASCII, where it is asked for: the contract of `when` alone gives its datum.
fn ascii_when<H: I18n>(alloc: Global, cond: bool, text: &str, h: &H) -> Result<(), RuleError>
    ensures { Applies (fault_when cond (unless (is_ascii_text text.now) not_ascii)) (H.text h.now) result }
{
    when(cond, || ascii::apply(alloc, &text, (), h))
}

/// A text that is no rule's text by itself.
#[derive(Drop)]
struct Label {
    text: String,
}

/// The rule of a prefix, of the text of a label: the contract of `adapt` alone gives its datum.
fn label_prefix<H: I18n>(
    alloc: Global,
    label: &Label,
    pattern: &str,
    h: &H,
) -> Result<(), RuleError>
    ensures { Applies (unless (has_prefix pattern.now (string_bytes label.now.text)) (prefix pattern.now))
        (H.text h.now) result }
{
    adapt(
        label,
        |label| label.text.as_str(),
        |text| prefix::apply(alloc, text, (pattern,), h),
    )
}

/// Whether a rule that passes is called so often under a condition, and the answer is Ok.
fn is_called(cond: bool, times: u8) -> bool {
    let mut calls = 0u8;
    let answer = when(cond, || {
        calls = calls.wrapping_add(1);
        Ok(())
    });
    answer.is_ok() && calls == times
}

#[test]
fn asks_where_the_condition_holds(rt: HostRuntime) {
    let alloc = rt.alloc();
    let h = DefaultI18n;
    assert!(rt;
        tells(ascii_when(alloc, true, "é", &h), Some("not ascii"))
            && tells(ascii_when(alloc, true, "e", &h), None)
            && tells(ascii_when(alloc, false, "é", &h), None)
            && is_called(false, 0)
            && is_called(true, 1)
    );
}

#[test]
fn asks_of_the_view(rt: HostRuntime) {
    let alloc = rt.alloc();
    let text = String::from_str(alloc, "t-1").or_end(&rt);
    let label = Label { text };
    let fault = Some("value does not begin with \"x\"");
    assert!(rt;
        tells(label_prefix(alloc, &label, "t-", &DefaultI18n), None)
            && tells(label_prefix(alloc, &label, "x", &DefaultI18n), fault)
    );
}

/// Asks a word of less than three bytes for ASCII, under its component.
fn check_word<'a>(
    word: &str,
    component: Component<'a>,
    trail: &mut Trail<'a>,
    report: &mut Report,
) -> Result<(), AllocError> {
    let alloc = trail.alloc();
    trail.push(component)?;
    let answer = ascii_when(alloc, word.len() < 3, word, &DefaultI18n);
    let put = trail.put(report, answer);
    trail.pop();
    put
}

#[test]
fn asks_in_a_walk(rt: HostRuntime) {
    let alloc = rt.alloc();
    let mut trail = Trail::new(alloc);
    let mut report = Report::new(alloc);
    inner::apply(
        &["é", "ué", "ü"],
        &mut trail,
        &mut report,
        |word: &&str, component, trail, report| check_word(word, component, trail, report),
    )
    .or_end(&rt);
    assert!(rt; has_text(&rt, alloc, &report, "[0]: not ascii\n[2]: not ascii\n"));
}
