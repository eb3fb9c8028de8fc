//! Errors that `?` hands on to `anyhow`.
use super::told::reads;
use super::user_of;
use crate::tests::user::User;
use garde::rules::pattern::regex::Regex;
use garde::{Path, Unvalidated, Valid, Validate};
use std::alloc::Global;

/// The user of this name, where it is a valid one.
fn valid_user(alloc: Global, name: &str) -> anyhow::Result<Valid<User>> {
    let username = String::from_str(alloc, name)?;
    Ok(Unvalidated::new(User { username }).validate(alloc)?)
}

/// How many components the path `users[0]` has, if the user at its end is valid.
fn depth_of_user(alloc: Global, user: &User) -> anyhow::Result<usize> {
    user.validate(alloc)?;
    Ok(Path::new(alloc, "users")?.join(alloc, 0u32)?.len())
}

/// Whether a pattern matches a text.
fn is_match(alloc: Global, source: &str, text: &str) -> anyhow::Result<bool> {
    Ok(Regex::new(alloc, source)?.is_match(alloc, text)?)
}

/// Whether an error prints this text. An answer prints nothing.
fn prints_as<T: Drop>(alloc: Global, answer: anyhow::Result<T>, text: &str) -> bool {
    match answer {
        Ok(_) => text.is_empty(),
        Err(error) => reads(alloc, &error, text) == Ok(true),
    }
}

#[test]
fn errors_lead_into_anyhow(rt: HostRuntime) {
    let alloc = rt.alloc();
    let short = "username: length is lower than 3\n";
    let refused = "the text is not a pattern";
    let user = user_of(&rt, alloc, "ab");
    assert!(rt;
        prints_as(alloc, valid_user(alloc, "ab"), short)
            && prints_as(alloc, valid_user(alloc, "test"), "")
            && prints_as(alloc, depth_of_user(alloc, &user), short)
            && prints_as(alloc, is_match(alloc, "(", "a"), refused)
            && prints_as(alloc, is_match(alloc, "^a$", "a"), "")
    );
}
