//! An application as a program.

use crate::application::{Application, Page, Site};
use crate::routes::Route;
use crate::stdio::{Serving, serve};
use anyhow::Result;
use garde_catalog::{Catalogs, languages};
use garde_command::{Program, Word, is_help};
use std::process::ExitCode;

impl Serving {
    /// How the words of the command line ask for requests to be answered. Of other words it says what
    /// is wrong with them.
    pub fn of(words: &[Word]) -> Result<Serving, &'static str> {
        let mut serving = Serving::new();
        for word in words {
            serving.take(word.name.as_str())?;
        }
        Ok(serving)
    }
}

/// Answers the requests of standard input on standard output, in each language that there is a catalog
/// of. Problem details of a body with faults have this title.
fn serve_application<B: Copy + Drop, A: Application<Body = B> + Drop>(
    rt: &HostRuntime,
    serving: Serving,
    most: usize,
    title: &'static str,
    routes: &[Route<Page<B>, B>],
    application: A,
) -> Result<ExitCode> {
    let (alloc, offered) = (rt.alloc(), languages());
    let catalogs = &Catalogs::new(alloc, &offered, offered[0])?;
    let site = Site {
        alloc,
        catalogs,
        title,
        routes,
        application,
    };
    Ok(serve(rt, serving, most, &site)?)
}

/// Does what the command line asks for: prints the usage, or serves an application, with bodies of at
/// most so many bytes where no word says otherwise.
pub fn run<B: Copy + Drop, A: Application<Body = B> + Drop>(
    rt: &HostRuntime,
    program: &Program,
    most: usize,
    title: &'static str,
    routes: &[Route<Page<B>, B>],
    application: A,
) -> Result<ExitCode> {
    let words = program.words(rt)?;
    if is_help(&words) {
        return program.help(rt);
    }
    match Serving::of(&words) {
        Ok(serving) => serve_application(rt, serving, most, title, routes, application),
        Err(why) => program.reject(rt, why),
    }
}
