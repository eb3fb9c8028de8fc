//! Reports within HTML: texts that end nothing of a page, the faults of each field of a form, and the
//! form as a page with its faults.
#![tactic(auto)]

mod controls;
mod document;
mod faults;
mod form;
pub mod laws;
mod marks;
mod page;
mod style;
mod summary;
mod text;
mod worded;

pub use document::form_page;
pub use faults::{field_faults, field_of, other_faults};
pub use form::{Control, Field, Form};
pub use page::{Page, Piece};
pub use style::{POLICY, STYLE};
pub use text::HtmlText;
pub use worded::worded_report;
