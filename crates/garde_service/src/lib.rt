//! A service on one connection: the requests that a reader gives, and the answers to them on a writer.
#![tactic(auto)]

mod application;
mod asked;
mod date;
mod handler;
mod heads;
mod input;
mod json_body;
mod paths;
mod problems;
mod program;
mod put;
mod rejected;
mod rejection;
mod routes;
mod service;
mod stdio;
mod wire;

pub use application::{Answer, Application, Page, Site};
pub use asked::language_of;
pub use handler::{Body, Handler};
pub use json_body::put_error;
pub use problems::{PROBLEM_TYPE, problem_body};
pub use program::run;
pub use put::{put_field, put_language, put_text};
pub use rejected::Rejected;
pub use routes::{Asks, Media, Offer, Post, Route, Sites, Wanted};
pub use stdio::{Serving, serve};
pub use wire::answer_all;
