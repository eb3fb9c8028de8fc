//! A service on standard input and standard output.

use crate::handler::Handler;
use crate::wire::answer_all;
use http_server::{Config, Reason, State};
use std::hash::RandomState;
use std::io;
use std::io::{BufWriter, ErrorKind};
use std::process::ExitCode;

/// How a service is served.
#[derive(Clone, Copy, Debug)]
pub struct Serving {
    most: Option<usize>,
    dates: bool,
}

impl Serving {
    /// With dates, and bodies of any length that the program reads.
    pub fn new() -> Serving {
        Serving {
            most: None,
            dates: true,
        }
    }

    /// Takes a word of the command line: the longest body in bytes, or `--no-date`. Of another word it
    /// says what is wrong with it.
    pub(crate) fn take(&mut self, word: &str) -> Result<(), &'static str> {
        match word {
            "--help" => return Err("--help must be the only word"),
            "--no-date" if self.dates => self.dates = false,
            "--no-date" => return Err("there must be one --no-date at most"),
            text => match text.parse() {
                Ok(number) if self.most.is_none() => self.most = Some(number),
                Ok(_) => return Err("there must be one number at most"),
                Err(_) => return Err("the longest body is no number of bytes"),
            },
        }
        Ok(())
    }
}

/// Answers the requests of standard input on standard output. A longer body than is asked for, or than
/// `most` where nothing is, is rejected. The status is a failure where the last request was rejected.
pub fn serve<H: Handler>(
    rt: &HostRuntime,
    serving: Serving,
    most: usize,
    handler: &H,
) -> io::Result<ExitCode> {
    // No request is read while an answer is pending.
    let config = Config {
        max_body_len: serving.most.unwrap_or(most),
        max_pending: 0,
        ..Config::default()
    };
    let clock = serving.dates.then_some(rt);
    let keys = RandomState::new(rt)?;
    let mut output = BufWriter::new(rt.alloc(), io::writer(rt))?;
    let stands = answer_all(
        rt.alloc(),
        keys,
        config,
        clock,
        handler,
        &mut rt.stdin(),
        &mut output,
    );
    match stands? {
        State::Closing(Reason::Asked | Reason::EndOfInput) => Ok(ExitCode::SUCCESS),
        State::Closing(Reason::Refused(_)) => Ok(ExitCode::FAILURE),
        _ => Err(ErrorKind::OutOfMemory.into()),
    }
}
