//! The form of a table that is written in a file.
ghost use Rattle.std.specs.Prelude.{◌≡◌, ◌||◌, [], true, false, option_map, IfOk, map};
ghost use Rattle.garde.specs.Visits.{Visited, may_allocate, ◌and◌};
ghost use Rattle.garde_schema.specs.Forms.{forget};
ghost use Rattle.garde_catalog.specs.Lines.{AreGoodLines, AreOwn, asked, is_name, joined, line_visits, read, text_found, text_of, with_last_line};
ghost use Rattle.garde_catalog.specs.Messages.{LIBRARY, message_of};

use crate::messages::{Message, messages};
use crate::table::Table;
use crate::template::template_fault;
use garde::fields::{Is, Rule};
use garde::{I18n, Report, RuleError, Trail};
use garde_schema::{FormI18n, Found, Member, Members, Optional, Text, TextRef, Tree};
use std::alloc::{AllocError, Global};

/// The rule that a text is a template of the parameters of this message: it names each of them in braces,
/// names no other, and has no other brace.
///
/// The handler is asked for the text of what is wrong, by a code without a parameter:
/// `template_place_unknown`, `template_place_missing` or `template_brace_stray`.
#[derive(Clone, Copy, Debug)]
pub struct IsTextOf(pub Message);

impl<'a> Rule<TextRef<'a>> for IsTextOf {
    ghost finds = { λ rule text. text_found (message_of rule.0) text };

    fn find<H: I18n>(&self, alloc: Global, value: &TextRef<'a>, h: &H) -> Result<(), RuleError> {
        let (_, first, second) = self.0;
        match template_fault(value.text(), first, second) {
            None => Ok(()),
            Some(fault) => Err(RuleError::of(alloc, h.named(alloc, fault.as_named()))),
        }
    }
}

/// The members of a table that is written in a file: under the code of each message its text. A text that
/// is no template, and a code that is missing, is a fault under the code. The value is the `Table`.
///
/// `Object(Closed(TableTexts::all()))` is the form of a whole table, in which each other name is a
/// fault too.
#[derive(Clone, Copy, Debug)]
pub struct TableTexts {
    /// Whether a code may be missing.
    pub may_lack: bool,
    /// The messages of rules of your own. None has the code of another message.
    pub own: &'static [Message],
}

impl TableTexts {
    /// The texts of all messages of the library.
    pub fn all() -> TableTexts
        ensures lacks { result.may_lack ≡ false }
        ensures own { result.own.now ≡ [] }
    {
        TableTexts {
            may_lack: false,
            own: &[],
        }
    }

    /// The texts of some messages: one that is missing is no fault. The fallback of `Catalog::lent`, as
    /// `&ENGLISH`, has its text. So a file still serves when a later version has more messages.
    pub fn some() -> TableTexts
        ensures lacks { result.may_lack ≡ true }
        ensures own { result.own.now ≡ [] }
    {
        TableTexts {
            may_lack: true,
            own: &[],
        }
    }

    /// The same, and the texts of these messages of rules of your own.
    pub fn with(self, own: &'static [Message]) -> TableTexts
        ensures lacks { result.may_lack ≡ self.may_lack }
        ensures own { result.own.now ≡ own.now }
    {
        TableTexts {
            may_lack: self.may_lack,
            own,
        }
    }
}

// Reads members, and drops their value.
fn check_members<'t, 'a, M: Members<'a>, H: I18n + FormI18n>(
    members: &M,
    object: &Tree<'t, 'a>,
    trail: &mut Trail<'a>,
    report: &mut Report,
    h: &H,
) -> Result<(), AllocError>
    ensures { Visited (M.visits members.now (H.form_text h.now) object.now) (H.text h.now)
        trail.old trail.new report.old report.new result }
{
    match members.read_members(object, trail, report, h) {
        Ok(_) => Ok(()),
        Err(refused) => Err(refused),
    }
}

// Puts what is wrong under the code of a message.
fn check_line<'t, 'a, H: I18n + FormI18n>(
    may_lack: bool,
    message: Message,
    object: &Tree<'t, 'a>,
    trail: &mut Trail<'a>,
    report: &mut Report,
    h: &H,
) -> Result<(), AllocError>
    ensures { Visited (line_visits may_lack (H.form_text h.now) object.now (message_of message.entry))
        (H.text h.now) trail.old trail.new report.old report.new result }
{
    let (code, _, _) = message;
    let text = Text(Is(IsTextOf(message)));
    if may_lack {
        check_members(&Optional(code, text), object, trail, report, h)
    } else {
        check_members(&Member(code, text), object, trail, report, h)
    }
}

// Puts what is wrong under the code of each of these messages.
fn check_lines<'t, 'a, H: I18n + FormI18n>(
    may_lack: bool,
    messages: &[Message],
    object: &Tree<'t, 'a>,
    trail: &mut Trail<'a>,
    report: &mut Report,
    h: &H,
) -> Result<(), AllocError>
    ensures { Visited (asked may_lack (H.form_text h.now) object.now (map message_of messages.now))
        (H.text h.now) trail.old trail.new report.old report.new result }
{
    for message in messages {
        check_line(may_lack, *message, object, trail, report, h)?;
    }
    Ok(())
}

// The text under a code, or that there is none, where it has its form.
fn text_of<'t, 'a>(may_lack: bool, object: &Tree<'t, 'a>, code: &str) -> Option<Option<&'a str>>
    ensures { option_map (λ text. option_map (λ it. it.now) text) result
        ≡ text_of may_lack object.now code.now }
{
    match object.find(code) {
        Found::Once(value) => match value.as_str() {
            Some(text) => Some(Some(text)),
            None => None,
        },
        Found::Missing if may_lack => Some(None),
        _ => None,
    }
}

// The lines with the text of a code behind them, where all have their form.
fn add_line(
    alloc: Global,
    table: Option<Table>,
    code: &'static str,
    text: Option<Option<&str>>,
) -> Result<Option<Table>, AllocError>
    ensures { IfOk result (λ out. out
        ≡ with_last_line table code.now (option_map (λ text. option_map (λ it. it.now) text) text.entry)) }
{
    match (table, text) {
        (Some(mut table), Some(Some(text))) => {
            table.push(alloc, code, text)?;
            Ok(Some(table))
        }
        (Some(table), Some(None)) => Ok(Some(table)),
        _ => Ok(None),
    }
}

// The lines with the texts of these messages behind them, where all have their form.
fn read_lines<'t, 'a>(
    alloc: Global,
    may_lack: bool,
    before: Option<Table>,
    messages: &[Message],
    object: &Tree<'t, 'a>,
) -> Result<Option<Table>, AllocError>
    ensures { IfOk result (λ out. out
        ≡ joined before (read may_lack object.now (map message_of messages.now))) }
{
    let mut table = before;
    for (code, _, _) in messages {
        table = add_line(alloc, table, code, text_of(may_lack, object, code))?;
    }
    Ok(table)
}

// Whether this is the code of one of these messages.
fn is_name(messages: &[Message], name: &str) -> bool
    ensures { result ≡ is_name (map message_of messages.now) name.now }
{
    for (code, _, _) in messages {
        if name == *code {
            return true;
        }
    }
    false
}

impl<'a> Members<'a> for TableTexts {
    type Out = Table;

    ghost visits = { λ form texts j. may_allocate (asked form.may_lack texts j LIBRARY
        and asked form.may_lack texts j (map message_of form.own.now)) };

    ghost value = { λ form j. joined (read form.may_lack j LIBRARY) (read form.may_lack j (map message_of form.own.now)) };

    ghost keeps = { λ form table. AreOwn (map message_of form.own.now) → AreGoodLines form.may_lack table };

    ghost names = { λ form name. is_name LIBRARY name || is_name (map message_of form.own.now) name };

    fn read_members<'t, H: I18n + FormI18n>(
        &self,
        object: &Tree<'t, 'a>,
        trail: &mut Trail<'a>,
        report: &mut Report,
        h: &H,
    ) -> Result<Option<Table>, AllocError> {
        let alloc = trail.alloc();
        check_lines(self.may_lack, messages(), object, trail, report, h)?;
        check_lines(self.may_lack, self.own, object, trail, report, h)?;
        let table = Some(Table::new(alloc));
        let table = read_lines(alloc, self.may_lack, table, messages(), object)?;
        read_lines(alloc, self.may_lack, table, self.own, object)
    }

    fn names(&self, name: &str) -> bool {
        is_name(messages(), name) || is_name(self.own, name)
    }
}
