//! Bodies from JSON trees.
ghost use Rattle.std.specs.BTreeMap.{insert_entry};
ghost use Rattle.std.specs.Cmp.Lexicographic.{slice_cmp};
ghost use Rattle.std.specs.Ordering.{nat_cmp};
ghost use Rattle.std.specs.Prelude.{◌≡◌, ◌∷◌, [], ◌++◌, IfOk, IsOkAnd, MatchOption, Err, string_bytes};
ghost use Rattle.serde_json.specs.View.{view};
ghost use Rattle.garde_check.specs.Body.{Content, content, entries_of, texts_of};
ghost use Rattle.garde_check.specs.Request.{IsRequest, Reads, age_in, entries_in, texts_in};

use super::{Address, Body};
use crate::user::User;
use garde_json::JsonRefused;
use serde_json::Value;
use std::alloc::{AllocError, Global};
use std::collections::BTreeMap;

// Null, or a whole number without a sign that fits 32 bits.
fn age_of(tree: &Value) -> Option<Option<u32>>
    ensures { result ≡ age_in (view tree.now) }
{
    if tree.is_null() {
        return Some(None);
    }
    match u32::try_from(tree.as_u64()?) {
        Ok(age) => Some(Some(age)),
        Err(_) => None,
    }
}

// The texts with one more at the end, where there was memory for both.
#[tactic(auto, using(crate::proofs::Members::texts_more))]
fn with_text(
    alloc: Global,
    texts: Result<Vec<String>, AllocError>,
    text: &str,
) -> Result<Vec<String>, AllocError>
    ensures { IfOk result (λ longer. IsOkAnd texts (λ made.
        texts_of longer ≡ texts_of made ++ text.now ∷ [])) }
{
    let mut texts = texts?;
    texts.push(String::from_str(alloc, text)?)?;
    Ok(texts)
}

// The texts of an array, where there is memory for them. All of it is read where there is none.
#[tactic(auto, using(crate::proofs::Members::text_next, crate::proofs::Members::grown))]
fn tags_of(alloc: Global, tree: &Value) -> Option<Result<Vec<String>, AllocError>>
    ensures { Reads texts_of (texts_in (view tree.now)) result }
{
    let mut texts = Ok(Vec::new(alloc));
    for item in tree.as_array()? {
        let text = item.as_str()?;
        texts = with_text(alloc, texts, text);
    }
    Some(texts)
}

// The addresses with one more, where there was memory for both.
fn with_address(
    alloc: Global,
    addresses: Result<BTreeMap<String, Address>, AllocError>,
    name: &str,
    text: &str,
) -> Result<BTreeMap<String, Address>, AllocError>
    ensures { IfOk result (λ longer. IsOkAnd addresses (λ made.
        entries_of longer ≡ insert_entry (slice_cmp nat_cmp) (entries_of made) name.now text.now)) }
{
    let mut addresses = addresses?;
    let address = Address(String::from_str(alloc, text)?);
    addresses.insert(String::from_str(alloc, name)?, address)?;
    Ok(addresses)
}

// The addresses of an object, where there is memory for them. All of it is read where there is none.
#[tactic(auto, using(crate::proofs::Members::grown))]
fn addresses_of(
    alloc: Global,
    tree: &Value,
) -> Option<Result<BTreeMap<String, Address>, AllocError>>
    ensures { Reads entries_of (entries_in (view tree.now)) result }
{
    let mut addresses = Ok(BTreeMap::new(alloc));
    for (name, value) in tree.as_object()?.iter() {
        let text = value.as_str()?;
        addresses = with_address(alloc, addresses, name.as_str(), text);
    }
    Some(addresses)
}

// The body of what its members hold, where there was memory for all.
fn made(
    username: Result<String, AllocError>,
    age: Option<u32>,
    tags: Result<Vec<String>, AllocError>,
    addresses: Result<BTreeMap<String, Address>, AllocError>,
) -> Result<Body, AllocError>
    ensures { (said : Content) → IfOk username (λ it. string_bytes it ≡ said.username)
        → age ≡ said.age → IfOk tags (λ it. texts_of it ≡ said.tags)
        → IfOk addresses (λ it. entries_of it ≡ said.addresses)
        → IfOk result (λ body. content body ≡ said) }
{
    Ok(Body {
        user: User {
            username: username?,
        },
        age,
        tags: tags?,
        addresses: addresses?,
    })
}

// The body that a tree spells, where there is memory for it.
fn body_in(alloc: Global, tree: &Value) -> Option<Result<Body, AllocError>>
    ensures { MatchOption result ((body : Content) → IsRequest (view tree.now) body → ⊥)
        (λ made. (body : Content) × IsRequest (view tree.now) body
        × IfOk made (λ read. content read ≡ body)) }
{
    if tree.as_object()?.len() != 4 {
        return None;
    }
    let name = tree.get("username").and_then(Value::as_str)?;
    let age = tree.get("age").and_then(age_of)?;
    let tags = tags_of(alloc, tree.get("tags")?)?;
    let addresses = addresses_of(alloc, tree.get("addresses")?)?;
    let username = String::from_str(alloc, name);
    Some(made(username, age, tags, addresses))
}

impl Body {
    /// The body that a tree spells. `Form` is returned exactly where the tree spells none, whatever
    /// memory there is.
    ///
    /// A tree spells a body if it is an object of exactly four members: `username`, a text; `age`,
    /// null or a number that `serde_json` gives as a whole one without a sign, of at most
    /// 4294967295; `tags`, an array of texts; `addresses`, an object whose values are texts.
    pub fn from_json(alloc: Global, tree: &Value) -> Result<Body, JsonRefused>
        ensures ok { IfOk result (λ body. IsRequest (view tree.now) (content body)) }
        ensures form { result ≡ Err JsonRefused.Form
            → (body : Content) → IsRequest (view tree.now) body → ⊥ }
        ensures refused { ((body : Content) → IsRequest (view tree.now) body → ⊥)
            → result ≡ Err JsonRefused.Form }
    {
        match body_in(alloc, tree) {
            Some(Ok(body)) => Ok(body),
            Some(Err(_)) => Err(JsonRefused::Memory),
            None => Err(JsonRefused::Form),
        }
    }
}
