//! Handles a form to sign up with, read from a file or from standard input, and answers in the language
//! of a tag.
#![tactic(auto)]

mod command;
mod labels;
mod page;
mod plain;
mod put;
mod refused;
mod rely;
mod service;
mod sign_up;
mod terms;
mod texts;

use crate::command::{MOST, PROGRAM, Task};
use crate::labels::Labelled;
use crate::page::write_faults;
use crate::rely::age;
use crate::service::SignUps;
use crate::sign_up::{SignUp, read_sign_up};
use crate::terms::Words;
use crate::texts::{Speech, texts_in};
use anyhow::Result;
use garde::{I18n, Report, ValidateError};
use garde_catalog::{Catalog, CatalogError, Catalogs, Language, languages};
use garde_command::{Spoken, is_help, read_input};
use garde_form::{FormField, form_fields};
use garde_html::Form;
use garde_problem::Escaped;
use garde_schema::FormI18n;
use garde_service::{Serving, Sites, serve};
use std::alloc::Global;
use std::process::ExitCode;

/// The byte order mark of UTF-8. The URL Standard has none in a form, but a file may begin with it.
const MARK: [u8; 3] = [0xEF, 0xBB, 0xBF];

/// Welcomes who signs up, and names the topics that were chosen. The name stands in quotes, with
/// what is not shown escaped.
fn welcome(rt: &impl Print, who: &SignUp<'_>, age: u8, words: &Words) -> Result<ExitCode> {
    let (welcome, name) = (words.welcome, who.name.text());
    println!(rt; "{welcome}, {name:?} ({age})")?;
    if let Some(topics) = &who.topics {
        for topic in topics.as_slice() {
            println!(rt; "    {}", topic.name())?;
        }
    }
    Ok(ExitCode::SUCCESS)
}

/// Prints these faults, on the page of the form if there is one.
fn print_faults<H: I18n>(
    rt: &HostRuntime,
    page: Option<&Form<'_>>,
    fields: &[FormField<'_>],
    report: &Report,
    h: &H,
) -> Result<ExitCode> {
    match page {
        Some(form) => print!(rt; "{}", write_faults(rt.alloc(), form, fields, report, h)?)?,
        None => print!(rt; "{}", Escaped(rt.alloc(), report))?,
    }
    Ok(ExitCode::FAILURE)
}

/// Prints the faults of a form, on its page if there is one, or welcomes who sent it.
#[tactic(auto, unfolding(garde::specs::Fields::Known))]
fn answer<H: I18n + FormI18n>(
    rt: &HostRuntime,
    body: &[u8],
    page: Option<&Form<'_>>,
    words: &Words,
    h: &H,
) -> Result<ExitCode> {
    let alloc = rt.alloc();
    let fields = form_fields(alloc, body)?;
    match read_sign_up(alloc, fields.as_slice(), words, h) {
        Ok(who) => {
            let who = who.into_inner();
            welcome(rt, &who, age(&who), words)
        }
        Err(ValidateError::Report(report)) => print_faults(rt, page, fields.as_slice(), &report, h),
        Err(error) => Err(error.into()),
    }
}

/// Judges a form, which is read without the byte order mark at its beginning and the white space at its
/// end, as of a file.
fn judge<H: I18n + FormI18n>(
    rt: &HostRuntime,
    body: &[u8],
    page: Option<&Form<'_>>,
    words: &Words,
    h: &H,
) -> Result<ExitCode> {
    let body = body.trim_ascii_end();
    answer(rt, body.strip_prefix(&MARK).unwrap_or(body), page, words, h)
}

/// Judges the form in the language that is asked for, and answers by lines or as a page.
fn judge_in(
    rt: &HostRuntime,
    spoken: Spoken<'_>,
    page: bool,
    file: Option<&str>,
) -> Result<ExitCode> {
    let offered = languages();
    let english = offered[0];
    let catalog = Catalog::spoken(rt.alloc(), spoken.tag, &offered, english.table)?;
    let language = Language::named(spoken.tag.unwrap_or("en"), &offered).unwrap_or(english);
    let (form, words) = (&texts_in(language.tag).form, Words::of(language.tag));
    let body = read_input(rt, file)?;
    if page {
        let labelled = Labelled {
            fields: form.fields,
            catalog: &catalog,
        };
        judge(rt, &body, Some(form), &words, &labelled)
    } else {
        judge(rt, &body, None, &words, &catalog)
    }
}

/// The catalogs of the languages that the pages have: English, Czech and Arabic.
fn catalogs(alloc: Global) -> Result<Catalogs, CatalogError> {
    // A proof looks at all of a table where it is named, so the languages are found by their tags.
    let all = languages();
    let english = all[0];
    let czech = Language::named("cs", &all).unwrap_or(english);
    let arabic = Language::named("ar", &all).unwrap_or(english);
    Catalogs::new(alloc, &[english, czech, arabic], english)
}

/// Answers all requests of standard input, in the languages that the pages have, with forms of these
/// sites.
fn answer_input(rt: &HostRuntime, sites: Sites, serving: Serving) -> Result<ExitCode> {
    let texts = [*texts_in("en"), *texts_in("cs"), *texts_in("ar")];
    let catalogs = catalogs(rt.alloc())?;
    let handler = SignUps {
        alloc: rt.alloc(),
        speech: Speech {
            catalogs: &catalogs,
            texts: &texts,
            otherwise: &texts[0],
        },
        sites,
    };
    Ok(serve(rt, serving, MOST, &handler)?)
}

fn run(rt: &HostRuntime) -> Result<ExitCode> {
    let words = PROGRAM.words(rt)?;
    if is_help(&words) {
        return PROGRAM.help(rt);
    }
    match Task::of(&words) {
        Ok(Task::Judge { spoken, page, file }) => judge_in(rt, spoken, page, file),
        Ok(Task::Serve(sites, serving)) => answer_input(rt, sites, serving),
        Err(why) => PROGRAM.reject(rt, why),
    }
}

fn main(rt: HostRuntime) -> ExitCode {
    PROGRAM.end(&rt, run(&rt))
}
