//! What a caller concludes from the laws of visit trees.
ghost use Rattle.std.specs.Prelude.{◌≡◌, ℕ, List, [], ◌∷◌, map, Err};
ghost use Rattle.std.specs.List.{All, Contains};
ghost use Rattle.garde_i18n.specs.Datum as datum;
ghost use Rattle.garde_i18n.specs.Datum.{Datum, not_ascii, length_lower, length_greater};
ghost use Rattle.garde_i18n.specs.DefaultText.{default_text};
ghost use Rattle.garde_report.specs.Part.{Part};
ghost use Rattle.garde_report.specs.Report.{Entry};
ghost use Rattle.garde.specs.Fields.{asks, byte_count, codes, nat_lt, str};
ghost use Rattle.garde.specs.Redaction.{SaysOneOf, fault_texts, own_fault, url_faults};
ghost use Rattle.garde.specs.RedactionLaws.{asks_among};
ghost use Rattle.garde.specs.Select.{messages};
ghost use Rattle.garde.specs.Tree.{Tree, flat};
ghost use Rattle.garde.specs.declared.validate_error.ValidateError.TheVariants as errors;

use super::{text_of, user_of};
use crate::tests::told::{tells, tells_all};
use crate::tests::user::User;
use garde::fields::{Ascii, Discreet, Is, Length, Prefix, Rule, Url};
use garde::laws::{
    messages_hide_values, messages_in_memory_hide_values, read_by_handler, read_under,
    reports_hide_values, select_part,
};
use garde::rules::values::MemoryRule;
use garde::{DefaultI18n, I18n, RuleError, Validate, ValidateError};
use std::alloc::Global;
use std::borrow::CowStr;

/// Wherever a tree is read, its report has the same messages.
fn messages_stay()
    ensures { (t : Tree) (p : List Part) (text : Datum → List ℕ) →
        messages (flat text p t) ≡ messages (flat text [] t) }
{
    read_under();
}

/// Whatever handler reads a tree, its report has the same paths.
fn paths_stay()
    ensures { (t : Tree) (one other : Datum → List ℕ) →
        map (λ (e : Entry). e.0) (flat one [] t) ≡ map (λ (e : Entry). e.0) (flat other [] t) }
{
    read_by_handler();
}

/// Validates a user. Whatever the name is, each message of a report is one of three texts, so none
/// holds a part of the name.
fn validate_in_secret(alloc: Global, user: &User) -> Result<(), ValidateError>
    ensures { (report : List Entry) → result ≡ Err (errors.Report report)
        → All (λ (e : Entry). Contains (map default_text (not_ascii ∷ length_lower 3 ∷ length_greater 25 ∷ [])) e.1) report }
{
    reports_hide_values::<String, (Is<Ascii>, Is<Length>)>();
    user.validate(alloc)
}

#[test]
fn messages_hold_no_part_of_a_name(rt: HostRuntime) {
    let alloc = rt.alloc();
    let long = user_of(&rt, alloc, "a name of more than 25 bytes");
    let short = user_of(&rt, alloc, "ab");
    let line = "username: length is greater than 25\n";
    assert!(rt;
        tells_all(alloc, validate_in_secret(alloc, &long), line)
            && tells_all(
                alloc,
                validate_in_secret(alloc, &short),
                "username: length is lower than 3\n"
            )
    );
}

/// Asks of a code whether it begins with a prefix. The message is one text, whatever the code is.
fn code_in_secret(alloc: Global, prefix: &str, code: &&str) -> Result<(), RuleError>
    ensures { SaysOneOf (default_text (datum.prefix prefix.now) ∷ []) result }
{
    messages_hide_values::<&str, Prefix<'_>>();
    Prefix(prefix).find(alloc, code, &DefaultI18n)
}

/// The rule that a text has fewer than 8 bytes, with a message of its own.
#[derive(Clone, Copy)]
struct Short;

impl Rule<String> for Short {
    ghost finds = { λ _ v. asks "too long" (nat_lt (byte_count (str v)) 8) };

    fn find<H: I18n>(&self, alloc: Global, value: &String, _h: &H) -> Result<(), RuleError> {
        if value.len() < 8 {
            Ok(())
        } else {
            Err(RuleError::of(alloc, Ok(CowStr::Borrowed("too long"))))
        }
    }
}

impl Discreet<String> for Short {
    ghost may_find = { λ _. own_fault (codes "too long") };

    ghost discreet = { λ _ v. asks_among (codes "too long") (nat_lt (byte_count (str v)) 8) };
}

/// Asks of a text whether it is short. The message is one text, whatever the text is.
fn text_in_secret(alloc: Global, text: &String) -> Result<(), RuleError>
    ensures { SaysOneOf (codes "too long" ∷ []) result }
{
    messages_hide_values::<String, Short>();
    Short.find(alloc, text, &DefaultI18n)
}

/// Asks of a text whether it is a URL. The message is one of those of the reasons.
fn url_in_secret(alloc: Global, text: &&str) -> Result<(), RuleError>
    ensures { SaysOneOf (fault_texts default_text url_faults) result }
{
    messages_in_memory_hide_values::<&str, Url>();
    Url.find_in_memory(alloc, text, &DefaultI18n)
}

// It calls each law of trees too, which does nothing.
#[test]
fn messages_hold_no_part_of_a_text(rt: HostRuntime) {
    messages_stay();
    paths_stay();
    select_part();
    let alloc = rt.alloc();
    let text = text_of(&rt, alloc, "a secret");
    let line = Some("value does not begin with \"P\"");
    let no_url = Some("not a valid url: relative URL without a base");
    assert!(rt;
        tells(code_in_secret(alloc, "P", &"a secret"), line)
            && tells(code_in_secret(alloc, "P", &"another"), line)
            && tells(text_in_secret(alloc, &text), Some("too long"))
            && tells(url_in_secret(alloc, &"a secret"), no_url)
    );
}
