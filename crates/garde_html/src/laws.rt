//! Laws of texts within HTML and of faults at fields. Each function does nothing, and its contract is a
//! law for all values.
ghost use Rattle.garde_html.specs.Laws.{FaultsHavePlaces, FaultsStandBesideTheirFields, FaultsStandInTheSummary, NothingIsHeldBack, PasswordsAreKeptOff, TextsAddNoMarkup, TextsAreRead, TextsEndAtTheirEnds, TextsEndNothing, TypedIsText};

/// An escaped text has no `<`, no `>`, no `"` and no `'`, whatever the text is.
pub fn texts_end_nothing()
    ensures { TextsEndNothing }
{}

/// An escaped text is read back to the text. What is read has `&` only before one of the five
/// entities, so an escaped text has it nowhere else.
pub fn texts_are_read()
    ensures { TextsAreRead }
{}

/// Where an escaped text stands before a byte that ends a text or an attribute, that byte is the first
/// one that does: the page goes on behind it as it would behind any other text.
pub fn texts_end_at_their_ends()
    ensures { TextsEndAtTheirEnds }
{}

/// A fault that `field_of` finds at a field is one of those that `field_faults` gives of that field. So
/// each fault of a report stands beside a field, or is one of the `other_faults`.
pub fn faults_have_places()
    ensures { FaultsHavePlaces }
{}

/// Each fault of a report stands once in the summary of its page, with its message: behind those before
/// it and before those behind it.
pub fn faults_stand_in_the_summary()
    ensures { FaultsStandInTheSummary }
{}

/// The message of a fault at a field or under it stands beside the field.
pub fn faults_stand_beside_their_fields()
    ensures { FaultsStandBesideTheirFields }
{}

/// The `<`, `>`, `"` and `'` of a page are those of its markup, in their order: no text adds any.
pub fn texts_add_no_markup()
    ensures { TextsAddNoMarkup }
{}

/// Where the same boxes of the form are checked, what was typed changes nothing of the page but its
/// texts: the form and the faults decide the markup.
pub fn typed_is_text()
    ensures { TypedIsText }
{}

/// What was typed into passwords changes nothing of the page of a form and a report.
pub fn passwords_are_kept_off()
    ensures { PasswordsAreKeptOff }
{}

/// No constraint of a page rejects what the rules accept, since it has none: a browser checks nothing
/// before it sends the form, and no markup has an attribute by which it would hold a text back.
pub fn nothing_is_held_back()
    ensures { NothingIsHeldBack }
{}
