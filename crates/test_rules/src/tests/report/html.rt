//! Texts within HTML, and the faults of fields, beside what was written by hand.

use crate::tests::report::samples::{have_messages, path_of, report_of};
use crate::tests::{OrEnd, has_text};
use garde_html::{
    Control, Field, Form, HtmlText, Page, Piece, field_faults, field_of, form_page, laws,
    other_faults, worded_report,
};
use garde_i18n::CodeI18n;
use garde_report::{Error, Path, Report};
use std::alloc::Global;
use std::process::Abort;

/// Texts, and how they stand within HTML.
static TEXTS: [(&str, &str); 12] = [
    ("", ""),
    ("Ada Lovelace", "Ada Lovelace"),
    ("&", "&amp;"),
    ("<b>", "&lt;b&gt;"),
    ("say \"it's\"", "say &quot;it&#39;s&quot;"),
    ("&amp;", "&amp;amp;"),
    (
        "<script>alert(1)</script>",
        "&lt;script&gt;alert(1)&lt;/script&gt;",
    ),
    (
        "\"><img src=x onerror=a()>",
        "&quot;&gt;&lt;img src=x onerror=a()&gt;",
    ),
    ("javascript:a()", "javascript:a()"),
    ("a\0b\n\u{1b}c", "a\0b\n\u{1b}c"),
    (
        "\u{17e}\u{202e}\u{fffd}\u{1f600}",
        "\u{17e}\u{202e}\u{fffd}\u{1f600}",
    ),
    ("--><!--", "--&gt;&lt;!--"),
];

#[test]
fn texts_stand_as_entities(rt: HostRuntime) {
    for (text, html) in &TEXTS {
        assert!(rt; has_text(&rt, rt.alloc(), &HtmlText(text), html));
    }
}

/// Faults at fields, under one, at the root, and at what is no field.
const FAULTS: &[(&str, &str)] = &[
    ("name>", "short"),
    ("topics>#1>", "not known"),
    ("", "wrong"),
    ("nam>", "unknown"),
    ("name>", "not ASCII"),
    ("x>name>", "deep"),
    ("plan>", "no such Plan"),
];

/// The fields of a page.
static FIELDS: [&str; 4] = ["age", "name", "topics", "plan"];

/// A field, and the messages beside it.
static BESIDE: [(&str, &[&str]); 5] = [
    ("age", &[]),
    ("name", &["short", "not ASCII"]),
    ("topics", &["not known"]),
    ("plan", &["no such Plan"]),
    ("x", &["deep"]),
];

#[test]
fn faults_stand_beside_their_fields(rt: HostRuntime) {
    let report = report_of(&rt, rt.alloc(), FAULTS);
    for (field, messages) in &BESIDE {
        assert!(rt; have_messages(field_faults(&report, field), messages));
    }
}

// Whether a fault has this message.
fn says(fault: &(Path, Error), message: &str) -> bool {
    fault.1.message() == message
}

#[test]
fn faults_at_no_field_are_apart(rt: HostRuntime) {
    let report = report_of(&rt, rt.alloc(), FAULTS);
    let others = other_faults(rt.alloc(), &report, &FIELDS).or_end(&rt);
    let found = others.as_slice();
    assert!(rt;
        matches!(found, [root, unknown, deep]
        if says(root, "wrong") && says(unknown, "unknown") && says(deep, "deep"))
    );
}

/// A path as `path_of` reads it, and the field at which it stands.
static PLACES: [(&str, Option<&str>); 7] = [
    ("name>", Some("name")),
    ("?age>", Some("age")),
    ("topics>#1>", Some("topics")),
    ("", None),
    ("nam>", None),
    ("names>", None),
    ("x>name>", None),
];

// Whether a path stands at this field.
fn stands_at(rt: &impl Abort, alloc: Global, path: &str, field: Option<&str>) -> bool {
    let path = path_of(rt, alloc, path);
    field_of(alloc, &path, &FIELDS).or_end(rt) == field
}

#[test]
fn paths_stand_at_fields(rt: HostRuntime) {
    for (path, field) in &PLACES {
        assert!(rt; stands_at(&rt, rt.alloc(), path, *field));
    }
}

/// A form of each kind of field.
static FORM: Form<'static> = Form {
    language: "cs",
    direction: "ltr",
    title: "Sign & up",
    faulty_title: "Faults",
    summary: "What is wrong",
    action: "/sign?up",
    send: "Send",
    fields: &[
        Field {
            name: "name",
            label: "Name",
            hint: Some("Letters & digits"),
            autocomplete: Some("name"),
            inputmode: None,
            required: true,
            control: Control::Line("text"),
        },
        Field {
            name: "key",
            label: "Key",
            hint: None,
            autocomplete: Some("new-password"),
            inputmode: Some("numeric"),
            required: false,
            control: Control::Password,
        },
        Field {
            name: "topics",
            label: "Topics",
            hint: Some("<"),
            autocomplete: None,
            inputmode: None,
            required: true,
            control: Control::Boxes(&[("news", "News"), ("<", "Less")]),
        },
        Field {
            name: "note",
            label: "Note",
            hint: None,
            autocomplete: None,
            inputmode: None,
            required: false,
            control: Control::Area,
        },
        Field {
            name: "plan",
            label: "Plan",
            hint: Some("One of both"),
            autocomplete: None,
            inputmode: None,
            required: true,
            control: Control::Radios(&[("free", "Free"), (">", "More")]),
        },
        Field {
            name: "land",
            label: "Country",
            hint: None,
            autocomplete: Some("country"),
            inputmode: None,
            required: true,
            control: Control::Select(&[("", "-"), ("cz", "Czechia & more")]),
        },
    ],
};

/// What a visitor sent.
static TYPED: [(&str, &str); 8] = [
    ("note", "\n</textarea>\n"),
    ("plan", ">"),
    ("land", "cz"),
    ("topics", "<"),
    ("name", "\"><img src=x>"),
    ("key", "a secret"),
    ("name", "Ada"),
    ("key2", "news"),
];

/// What stands on a page behind its style, up to its end.
const PLAIN: &str = "<h1>Sign &amp; up</h1>
<form method=\"post\" action=\"/sign?up\" novalidate>
<div class=\"field\">
<label for=\"field-name\">Name</label>
<p class=\"hint\" id=\"hint-name\">Letters &amp; digits</p>
<input id=\"field-name\" name=\"name\" dir=\"auto\" type=\"text\" value=\"&quot;&gt;&lt;img src=x&gt;\" autocomplete=\"name\" aria-required=\"true\" aria-describedby=\"hint-name\">
</div>
<div class=\"field\">
<label for=\"field-key\">Key</label>
<input id=\"field-key\" name=\"key\" dir=\"auto\" type=\"password\" value=\"\" autocomplete=\"new-password\" inputmode=\"numeric\">
</div>
<div class=\"field\">
<fieldset id=\"field-topics\" tabindex=\"-1\"><legend>Topics</legend>
<p class=\"hint\" id=\"hint-topics\">&lt;</p>
<label><input type=\"checkbox\" name=\"topics\" value=\"news\" aria-required=\"true\" aria-describedby=\"hint-topics\"> News</label>
<label><input type=\"checkbox\" name=\"topics\" value=\"&lt;\" checked=\"\" aria-required=\"true\" aria-describedby=\"hint-topics\"> Less</label>
</fieldset>
</div>
<div class=\"field\">
<label for=\"field-note\">Note</label>
<textarea id=\"field-note\" name=\"note\" dir=\"auto\" rows=\"5\">

&lt;/textarea&gt;
</textarea>
</div>
<div class=\"field\">
<fieldset id=\"field-plan\" tabindex=\"-1\" role=\"radiogroup\" aria-required=\"true\" aria-describedby=\"hint-plan\"><legend>Plan</legend>
<p class=\"hint\" id=\"hint-plan\">One of both</p>
<label><input type=\"radio\" name=\"plan\" value=\"free\"> Free</label>
<label><input type=\"radio\" name=\"plan\" value=\"&gt;\" checked=\"\"> More</label>
</fieldset>
</div>
<div class=\"field\">
<label for=\"field-land\">Country</label>
<select id=\"field-land\" name=\"land\" autocomplete=\"country\" aria-required=\"true\"><option value=\"\">-</option>
<option value=\"cz\" selected=\"\">Czechia &amp; more</option>
</select>
</div>
<button>Send</button>
</form>
</main>
</body>
</html>
";

/// The same with the faults.
const FAULTY: &str = "<h1>Sign &amp; up</h1>
<div class=\"summary\" role=\"alert\" tabindex=\"-1\" autofocus=\"\">
<h2>What is wrong</h2>
<ul>
<li><a href=\"#field-name\">Name: short</a></li>
<li><a href=\"#field-topics\">Topics: not known</a></li>
<li>wrong</li>
<li><bdi>nam</bdi>: unknown</li>
<li><a href=\"#field-name\">Name: not ASCII</a></li>
<li><bdi>x</bdi>: deep</li>
<li><a href=\"#field-plan\">no such Plan</a></li>
</ul>
</div>
<form method=\"post\" action=\"/sign?up\" novalidate>
<div class=\"field\">
<label for=\"field-name\">Name</label>
<p class=\"hint\" id=\"hint-name\">Letters &amp; digits</p>
<input id=\"field-name\" name=\"name\" dir=\"auto\" type=\"text\" value=\"&quot;&gt;&lt;img src=x&gt;\" autocomplete=\"name\" aria-required=\"true\" aria-invalid=\"true\" aria-describedby=\"hint-name faults-name\">
<ul class=\"faults\" id=\"faults-name\">
<li>short</li>
<li>not ASCII</li>
</ul>
</div>
<div class=\"field\">
<label for=\"field-key\">Key</label>
<input id=\"field-key\" name=\"key\" dir=\"auto\" type=\"password\" value=\"\" autocomplete=\"new-password\" inputmode=\"numeric\">
</div>
<div class=\"field\">
<fieldset id=\"field-topics\" tabindex=\"-1\"><legend>Topics</legend>
<p class=\"hint\" id=\"hint-topics\">&lt;</p>
<label><input type=\"checkbox\" name=\"topics\" value=\"news\" aria-required=\"true\" aria-invalid=\"true\" aria-describedby=\"hint-topics faults-topics\"> News</label>
<label><input type=\"checkbox\" name=\"topics\" value=\"&lt;\" checked=\"\" aria-required=\"true\" aria-invalid=\"true\" aria-describedby=\"hint-topics faults-topics\"> Less</label>
</fieldset>
<ul class=\"faults\" id=\"faults-topics\">
<li>not known</li>
</ul>
</div>
<div class=\"field\">
<label for=\"field-note\">Note</label>
<textarea id=\"field-note\" name=\"note\" dir=\"auto\" rows=\"5\">

&lt;/textarea&gt;
</textarea>
</div>
<div class=\"field\">
<fieldset id=\"field-plan\" tabindex=\"-1\" role=\"radiogroup\" aria-required=\"true\" aria-invalid=\"true\" aria-describedby=\"hint-plan faults-plan\"><legend>Plan</legend>
<p class=\"hint\" id=\"hint-plan\">One of both</p>
<label><input type=\"radio\" name=\"plan\" value=\"free\"> Free</label>
<label><input type=\"radio\" name=\"plan\" value=\"&gt;\" checked=\"\"> More</label>
</fieldset>
<ul class=\"faults\" id=\"faults-plan\">
<li>no such Plan</li>
</ul>
</div>
<div class=\"field\">
<label for=\"field-land\">Country</label>
<select id=\"field-land\" name=\"land\" autocomplete=\"country\" aria-required=\"true\"><option value=\"\">-</option>
<option value=\"cz\" selected=\"\">Czechia &amp; more</option>
</select>
</div>
<button>Send</button>
</form>
</main>
</body>
</html>
";

// Whether the page of these faults has this title, and this behind its style.
fn has_page(rt: &impl Abort, alloc: Global, report: &Report, title: &str, body: &str) -> bool {
    let page = form_page(alloc, &FORM, &TYPED, report).or_end(rt);
    let html = page.to_html(alloc).or_end(rt);
    html.as_str().contains(title) && html.as_str().ends_with(body)
}

#[test]
fn a_form_is_a_page(rt: HostRuntime) {
    let alloc = rt.alloc();
    let title = "<title>Sign &amp; up</title>";
    assert!(rt;
        has_page(&rt, alloc, &Report::new(alloc), title, PLAIN)
            && has_page(
                &rt,
                alloc,
                &report_of(&rt, alloc, FAULTS),
                "<title>Faults</title>",
                FAULTY
            )
    );
}

#[test]
fn faults_are_worded(rt: HostRuntime) {
    let alloc = rt.alloc();
    let faults = [
        ("name>", "short"),
        ("topics>", "few"),
        ("plan>", "not set"),
        ("x>", "unknown"),
    ];
    let typed = [("name", " \u{3000}"), ("key", "a secret")];
    let report = report_of(&rt, alloc, &faults);
    let told = worded_report(alloc, FORM.fields, &typed, &report, &CodeI18n).or_end(&rt);
    let text =
        "name: field_empty label=Name\ntopics: few\nplan: field_unchosen label=Plan\nx: unknown\nkey: field_again label=Key\n";
    assert!(rt; has_text(&rt, alloc, &told, text));
}

#[test]
fn pieces_follow_each_other(rt: HostRuntime) {
    let mut page = Page::new(rt.alloc());
    page.put(&[Piece::Markup("<p>"), Piece::Text("<p>")])
        .or_end(&rt);
    page.put(&[Piece::Markup("</p>")]).or_end(&rt);
    let html = page.to_html(rt.alloc()).or_end(&rt);
    assert!(rt; html.as_str() == "<p>&lt;p&gt;</p>");
}

#[test]
fn the_laws_of_html_are_called(_rt: HostRuntime) {
    laws::texts_end_nothing();
    laws::texts_are_read();
    laws::texts_end_at_their_ends();
    laws::faults_have_places();
    laws::faults_stand_in_the_summary();
    laws::faults_stand_beside_their_fields();
    laws::texts_add_no_markup();
    laws::typed_is_text();
    laws::passwords_are_kept_off();
}
