//! Laws of what reports print. Each function does nothing, and its contract is a law for all values.
ghost use Rattle.garde_problem.specs.Laws.{CodedMessagesAreRead, OtherMessagesAreCustom};
ghost use Rattle.garde_problem.specs.Laws.{EscapedReportsAreShown, EscapedTextsAreShown, FaultsAreLines};
ghost use Rattle.garde_problem.specs.Laws.{PointersAreRead, PointersDiffer, ShownTextsStay};

/// The pointer of a path, read by the rules of RFC 6901, gives the texts of its components, whatever
/// bytes they have.
pub fn pointers_are_read()
    ensures { PointersAreRead }
{}

/// Paths whose components have different texts have different pointers. No text has to be plain for
/// that, as it has to be where a path prints with dots.
pub fn pointers_differ()
    ensures { PointersDiffer }
{}

/// An escaped report has exactly as many line feeds as faults, whatever its keys and messages hold.
pub fn faults_are_lines()
    ensures { FaultsAreLines }
{}

/// In an escaped text no character acts: none is a control character, a separator of lines or
/// paragraphs, or one that turns the order of reading.
pub fn escaped_texts_are_shown()
    ensures { EscapedTextsAreShown }
{}

/// In an escaped report no character acts but its line feeds, of which `faults_are_lines` says that
/// there is one for each fault.
pub fn escaped_reports_are_shown()
    ensures { EscapedReportsAreShown }
{}

/// A text in which no character acts, and none is a backslash, is the same when it is escaped.
pub fn shown_texts_stay()
    ensures { ShownTextsStay }
{}

/// A message with a code is parted into the code, the sentence and the parameters of which it was
/// made, where none of them has the character U+001F.
pub fn coded_messages_are_read()
    ensures { CodedMessagesAreRead }
{}

/// A message that does not begin with U+001F has the code `custom` and no parameters, and is itself
/// the sentence, whatever else it holds. So a text of a hostile body in it forges no code.
pub fn other_messages_are_custom()
    ensures { OtherMessagesAreCustom }
{}
