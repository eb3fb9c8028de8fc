//! Objects that are made and dropped, one of each kind.
use crate::tests::custom::Custom;
use crate::tests::paths::{keys, longer};
use crate::tests::reports::report_of;
use crate::tests::rules::regex;
use example_types::document::{Document, Tag};
use garde::rc_list::List;
use garde::rules::ascii;
use garde::rules::pattern::regex::Regex;
use garde::{
    Component, Error, IntoValidError, Path, Report, RuleError, Trail, Unvalidated, Validate,
    ValidateError, select, with_i18n,
};
use garde_json::{report_from_json, report_to_json, report_to_json_text};
use std::alloc::{AllocError, Global};
use std::borrow::CowStr;
use std::fmt::Display;

/// A text that is kept on the heap, as a key and as a message.
pub const LONG: &str = "abcdefghijklmnopqrstuvwxyz0123456789";

// The list with one long text more.
fn with_long(alloc: Global, list: &List<String>) -> Result<List<String>, AllocError> {
    longer(alloc, list, String::from_str(alloc, LONG)?)
}

// A clone of a list, and the list before it.
fn copied(list: &List<String>) -> Result<(), AllocError> {
    let copy = list.clone()?;
    let _before = copy.before()?;
    Ok(())
}

/// A list of long texts, its clone, and the list before it.
pub fn lists(alloc: Global) -> Result<(), AllocError> {
    let mut list = List::new();
    for _ in 0..9usize {
        list = with_long(alloc, &list)?;
    }
    copied(&list)
}

// The text of a value.
fn text<T: Display>(alloc: Global, value: &T) -> Result<(), AllocError> {
    let _text = value.to_string(alloc)?;
    Ok(())
}

// A walk of a path, from which one component is taken.
fn walk(alloc: Global, path: &Path) -> Result<(), AllocError> {
    let mut walk = path.iter(alloc)?;
    let _last = walk.next();
    Ok(())
}

// A walk of a path, its text, and its parent.
fn used(alloc: Global, path: &Path) -> Result<(), AllocError> {
    walk(alloc, path)?;
    text(alloc, path)?;
    let _parent = path.parent()?;
    Ok(())
}

/// A path, a walk of it, its text, and its parent.
pub fn paths(alloc: Global) -> Result<(), AllocError> {
    used(alloc, &keys(alloc, &[LONG; 9])?)
}

// So many steps down.
fn go_down(trail: &mut Trail<'static>, steps: usize) -> Result<(), AllocError> {
    for _ in 0..steps {
        trail.push(Component::key(LONG))?;
    }
    Ok(())
}

// So many steps up.
fn go_up(trail: &mut Trail<'static>, steps: usize) {
    for _ in 0..steps {
        if trail.depth() > 0 {
            trail.pop();
        }
    }
}

/// Steps down, whether the path is asked for, and steps up.
static WAYS: [(usize, bool, usize); 8] = [
    (0, true, 0),
    (3, false, 0),
    (3, true, 0),
    (3, true, 2),
    (12, false, 0),
    (12, true, 0),
    (12, true, 5),
    (12, true, 12),
];

/// A trail in each state: after so many steps down, with its path or without it, and so many steps up.
pub fn ways(alloc: Global) -> Result<(), AllocError> {
    for (down, asked, up) in &WAYS {
        let mut trail = Trail::new(alloc);
        go_down(&mut trail, *down)?;
        if *asked {
            let _path = trail.path()?;
        }
        go_up(&mut trail, *up);
    }
    Ok(())
}

/// A report, its text, its clone, and its faults.
pub fn reports(alloc: Global) -> Result<(), AllocError> {
    let report = report_of(alloc, LONG, &[LONG; 9])?;
    text(alloc, &report)?;
    let copy = report.clone()?;
    let _found = select(&copy, &[LONG]).count();
    let _faults = report.into_inner();
    Ok(())
}

// What a rule finds, of a text that is borrowed, and of one that is owned; and `Memory`.
fn found(alloc: Global) -> Result<(), AllocError> {
    let text = String::from_str(alloc, LONG)?;
    let _owned = RuleError::of(alloc, Ok(CowStr::Owned(text)));
    let _borrowed = RuleError::of(alloc, Ok(CowStr::Borrowed(LONG)));
    let _none = RuleError::of(alloc, Err(AllocError));
    Ok(())
}

/// What rules find, `Memory`, an error, and its clone.
pub fn errors(alloc: Global) -> Result<(), AllocError> {
    found(alloc)?;
    text(alloc, &ValidateError::Memory)?;
    let error = Error::new(alloc, LONG)?;
    let _copy = error.clone()?;
    Ok(())
}

// The tree of a report, and the report of the tree.
fn tree(alloc: Global, report: &Report) -> Result<(), AllocError> {
    let tree = report_to_json(alloc, report)?;
    match report_from_json(alloc, &tree) {
        Ok(_) => Ok(()),
        Err(_) => Err(AllocError),
    }
}

/// The tree of a report, the report of the tree, and its text.
pub fn trees(alloc: Global) -> Result<(), AllocError> {
    let report = report_of(alloc, LONG, &[LONG; 2])?;
    tree(alloc, &report)?;
    let _text = report_to_json_text(alloc, &report)?;
    Ok(())
}

/// Work under a handler that holds memory.
pub fn handlers(alloc: Global) -> Result<(), AllocError> {
    let custom = Custom {
        weight: Vec::with_capacity(alloc, 100)?,
    };
    match with_i18n(custom, |h| ascii::apply(alloc, &"é", (), h)) {
        Err(RuleError::Fault(_)) => Ok(()),
        _ => Err(AllocError),
    }
}

// A searcher of a pattern, and a search.
fn search(alloc: Global, pattern: &Regex) -> Result<bool, AllocError> {
    pattern.searcher(alloc)?.is_match(alloc, "x")
}

/// A pattern, and two searches.
pub fn patterns(alloc: Global) -> Result<(), AllocError> {
    let pattern = regex(alloc, "^[0-9]+$")?;
    let _found = pattern.is_match(alloc, "12345")?;
    let _again = search(alloc, &pattern)?;
    Ok(())
}

/// A document with this content and this tag, of whose content no format and no length is asked.
pub fn document(alloc: Global, content: Option<&str>, tag: &str) -> Result<Document, AllocError> {
    let tag = Tag(String::from_str(alloc, tag)?);
    let content = match content {
        Some(text) => Some(String::from_str(alloc, text)?),
        None => None,
    };
    Ok(Document {
        check_format: false,
        check_length: false,
        content,
        tag,
    })
}

/// A value that becomes a valid one, and is taken out of it.
pub fn valid(alloc: Global) -> Result<(), AllocError> {
    match Unvalidated::new(document(alloc, Some(LONG), "t-1")?).validate(alloc) {
        Ok(valid) => {
            let _document = valid.into_inner();
            Ok(())
        }
        Err(_) => Err(AllocError),
    }
}

/// A value that is none, and its report.
pub fn invalid(alloc: Global) -> Result<(), AllocError> {
    match Unvalidated::new(document(alloc, None, LONG)?).validate(alloc) {
        Err(IntoValidError::Report(report)) => text(alloc, &report),
        _ => Err(AllocError),
    }
}

/// A walk that fails before its end.
pub fn refused(alloc: Global, crowd: &Vec<Document>) -> Result<(), AllocError> {
    match crowd.validate(alloc) {
        Err(ValidateError::Memory) => Ok(()),
        _ => Err(AllocError),
    }
}
