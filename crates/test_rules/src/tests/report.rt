//! Tests of lists, paths, errors, reports and the trail, of reports as JSON, and of what `garde_problem` and
//! `garde_html` print.

mod ample;
mod asked;
mod counted;
mod errors;
mod html;
mod json;
mod json_read;
mod lists;
mod numbers;
mod places;
mod problems;
mod refusals;
mod samples;
mod stops;
mod trails;
mod written;
