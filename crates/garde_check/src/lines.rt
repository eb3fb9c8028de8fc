//! The users of a text, one a line.
ghost use Rattle.std.specs.List.{AllByRecursion};
ghost use Rattle.std.specs.Prelude.{◌≡◌, ℕ, List, [], ◌∷◌, ◌++◌, MatchOption, IfOk, IfErr, OnOk};
ghost use Rattle.std.specs.Prelude.{map, string_bytes};
ghost use Rattle.std.specs.Str.{IsUtf8};
ghost use Rattle.garde_check.specs.Lines.{IsLine, lines_of};
ghost use Rattle.garde_check.specs.Tasks.{Never, OutputFails};
ghost use Rattle.garde_check.specs.Users.{text_of, IsNamed, IsCut};

use crate::outcome::RunError;
use crate::user::User;
use memchr::{memchr, memrchr};
use std::alloc::{AllocError, Global};
use std::mem;

// The user that a line names, or nothing where the line is empty.
fn user_of(alloc: Global, line: &str) -> Result<Option<User>, AllocError>
    ensures text { IfOk result (λ user. text_of user ≡ line.now) }
    ensures named { IfOk result IsNamed }
{
    if line.is_empty() {
        return Ok(None);
    }
    let username = String::from_str(alloc, line)?;
    Ok(Some(User { username }))
}

// The line that ends first in a text, and what stands after its line feed.
fn split_line<'t>(text: &'t str) -> Option<(&'t str, &'t str)>
    ensures parts { MatchOption result (IsLine text.now) (λ parts.
        (text.now ≡ parts.0.now ++ 10 ∷ parts.1.now) × IsLine parts.0.now) }
{
    let end = memchr(b'\n', text.as_bytes())?;
    Some((&text[..end], &text[end + 1..]))
}

// Cuts off the lines that end in a text, and appends their users. What is left stands after the last
// line feed.
fn cut_lines<'t>(
    alloc: Global,
    text: &'t str,
    users: &mut Vec<Option<User>>,
) -> Result<&'t str, AllocError>
    ensures cut { IfOk result (λ rest.
        IsCut text.now users.old.items users.new.items rest.now) }
    ensures line { IfOk result (λ rest. IsLine rest.now) }
{
    let mut rest = text;
    while let Some((line, after)) = split_line(rest) {
        users.push(user_of(alloc, line)?)?;
        rest = after;
    }
    Ok(rest)
}

// Cuts off all lines of what is left of a text, and appends their users.
#[tactic(auto, using(crate::proofs::Cuts::named_more))]
fn cut_last(alloc: Global, rest: &str, users: &mut Vec<Option<User>>) -> Result<(), AllocError>
    ensures lines { OnOk result (map text_of users.old.items ++ lines_of rest.now
        ≡ map text_of users.new.items) }
    ensures named { OnOk result (AllByRecursion IsNamed users.old.items
        → AllByRecursion IsNamed users.new.items) }
{
    let last = cut_lines(alloc, rest, users)?;
    if !last.is_empty() {
        users.push(user_of(alloc, last)?)?;
    }
    Ok(())
}

/// The lines of a text that is read part by part.
///
/// The text is cut at line feeds: an empty line is no user, and every other line is the name of one.
/// What stands after the last line feed is a line only if it is not empty. A carriage return is an
/// ordinary character.
#[derive(Drop)]
pub struct Lines {
    /// The users of the lines that were cut off so far.
    pub users: Vec<Option<User>>,
    /// What was added and stands after them.
    pub rest: Vec<u8>,
    // What was found to be no text is not searched again.
    is_text: bool,
}

impl Lines {
    /// The lines of the empty text.
    pub fn new(alloc: Global) -> Lines
        ensures users { result.users.items ≡ [] }
        ensures rest { result.rest.items ≡ [] }
    {
        Lines {
            users: Vec::new(alloc),
            rest: Vec::new(alloc),
            is_text: true,
        }
    }

    /// Adds a part at the end of the text, and cuts off lines that end in it. Where memory runs out,
    /// some of it may have been added, and the text is of no further use.
    pub fn add(&mut self, alloc: Global, part: &[u8]) -> Result<(), AllocError>
        ensures { OnOk result (IsCut (self.old.rest.items ++ part.now)
            self.old.users.items self.new.users.items self.new.rest.items) }
    {
        if !self.is_text {
            return self.rest.extend_from_slice(part);
        }
        let Some(feed) = memrchr(b'\n', part) else {
            return self.rest.extend_from_slice(part);
        };
        let (front, back) = part.split_at(feed + 1);
        self.rest.extend_from_slice(front)?;
        self.cut_rest(alloc)?;
        self.rest.extend_from_slice(back)?;
        Ok(())
    }

    // Cuts off the lines that end in the rest, where it is text.
    fn cut_rest(&mut self, alloc: Global) -> Result<(), AllocError>
        ensures { OnOk result (IsCut self.old.rest.items
            self.old.users.items self.new.users.items self.new.rest.items) }
    {
        let rest = mem::replace(&mut self.rest, Vec::new(alloc));
        if let Ok(text) = str::from_utf8(rest.as_slice()) {
            let left = cut_lines(alloc, text, &mut self.users)?;
            self.rest.extend_from_slice(left.as_bytes())?;
        } else {
            self.rest = rest;
            self.is_text = false;
        }
        Ok(())
    }

    /// The users of all lines. Ok is returned only where the text is UTF-8, and `NotUtf8` only
    /// where it is not.
    pub fn finish(self, alloc: Global) -> Result<Vec<Option<User>>, RunError>
        ensures lines { IfOk result (λ users. (text : List ℕ)
            → IsCut text [] self.users.items self.rest.items
            → IsUtf8 text × (lines_of text ≡ map text_of users.items)
            × AllByRecursion IsNamed users.items) }
        ensures err { IfErr result (λ e. (text : List ℕ)
            → IsCut text [] self.users.items self.rest.items → OutputFails Never text e) }
    {
        let Lines {
            mut users,
            rest,
            is_text: _,
        } = self;
        let Ok(text) = str::from_utf8(rest.as_slice()) else {
            return Err(RunError::NotUtf8);
        };
        cut_last(alloc, text, &mut users)?;
        Ok(users)
    }
}
