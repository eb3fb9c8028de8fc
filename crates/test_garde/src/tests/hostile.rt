//! Values that are made to be hard: deep, long, or with texts that look like parts of a path.
ghost use Rattle.std.specs.String.{string_bytes};
ghost use Rattle.garde_report.specs.declared.error.component.Kind.TheVariants.{Key};

use super::containers::{put_hashed, put_ordered};
use super::custom::Custom;
use super::paths::indexes;
use super::told::{is_told, is_told_by_default};
use super::user::User;
use super::{text_of, user_of};
use crate::tests::OrEnd;
use garde::error::{Kind, PathComponentKind};
use garde::{Component, Error, Path, Report, Validate, ValidateError, select};
use garde_json::{path_from_json, path_to_json};
use std::alloc::{AllocError, Global};
use std::collections::{BTreeMap, HashMap};

/// How many keys, faults or components are many.
const MANY: usize = 1_000_000;

/// A user as a key stands under the name.
impl PathComponentKind for User {
    ghost kind = { Key };

    ghost text = { λ user. string_bytes user.username };

    fn component_kind() -> Kind {
        Kind::Key
    }

    fn component(&self) -> Component<'_> {
        Component::text(Kind::Key, self.username.as_str())
    }
}

// A user under a key that is computed: the text of the key stays.
#[test]
fn a_computed_key_is_kept(rt: HostRuntime) {
    let alloc = rt.alloc();
    let mut users = BTreeMap::new(alloc);
    let key = user_of(&rt, alloc, "0x0f");
    put_ordered(&rt, &mut users, key, user_of(&rt, alloc, "ab"));
    let told = ("0x0f.username: length is lower than 3\n", 2);
    assert!(rt; is_told_by_default(alloc, &users, told));
}

// A user under a key of many letters.
#[test]
fn a_key_of_a_megabyte(rt: HostRuntime) {
    let alloc = rt.alloc();
    let mut text = "m".repeat(alloc, MANY).or_end(&rt);
    let mut users = BTreeMap::new(alloc);
    let key = text_of(&rt, alloc, text.as_str());
    put_ordered(&rt, &mut users, key, user_of(&rt, alloc, "ab"));
    text.push_str(".username: custom: too short, need at least 3\n")
        .or_end(&rt);
    let custom = Custom {
        weight: Vec::new(alloc),
    };
    assert!(rt; is_told(alloc, &users, &(), &custom, (text.as_str(), 2)));
}

/// Keys that look like paths, or like parts of one.
static KEYS: [&str; 9] = [
    "", ".", "a.b", "[0]", "a: b", "a\nb", "username", "\u{0}", "😂",
];

// Whether each key has one fault of its own in a report, and no other fault is there.
fn tells_each(report: &Report) -> bool {
    for key in &KEYS {
        if select(report, &[*key, "username"]).count() != 1 {
            return false;
        }
    }
    report.iter().count() == KEYS.len()
}

// Users under these keys are reported each under its own.
#[test]
fn keys_that_look_like_paths_stay_apart(rt: HostRuntime) {
    let alloc = rt.alloc();
    let mut users = HashMap::new(alloc);
    for key in &KEYS {
        put_hashed(&rt, alloc, &mut users, key);
    }
    let answer = users.validate(alloc);
    assert!(rt; matches!(&answer, Err(ValidateError::Report(report)) if tells_each(report)));
}

// A fault at a path.
fn append(alloc: Global, report: &mut Report, path: &Path) -> Result<(), AllocError> {
    let same: Path = path.clone()?;
    report.append(same, Error::new(alloc, "x")?)
}

// A report of many faults at one path prints five bytes of each, and its copy has each of them.
#[test]
fn a_million_faults_in_one_report(rt: HostRuntime) {
    let alloc = rt.alloc();
    let path = Path::new(alloc, "a").or_end(&rt);
    let mut report = Report::new(alloc);
    for _ in 0..MANY {
        append(alloc, &mut report, &path).or_end(&rt);
    }
    let printed = report.to_string(alloc).or_end(&rt).len();
    let copy: Report = report.clone().or_end(&rt);
    assert!(rt; printed == 5_000_000 && select(&copy, &["a"]).count() == MANY);
}

// A path of many indexes is read back from its tree.
#[test]
fn a_million_components_are_read_back(rt: HostRuntime) {
    let alloc = rt.alloc();
    let path = indexes(alloc, MANY).or_end(&rt);
    let tree = path_to_json(alloc, &path).or_end(&rt);
    assert!(rt; matches!(&path_from_json(alloc, &tree), Ok(back) if *back == path));
}
