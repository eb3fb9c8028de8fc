//! The messages that a table has texts for.
ghost use Rattle.std.specs.Prelude.{◌≡◌, map};
ghost use Rattle.garde_catalog.specs.Messages.{LIBRARY, code_at, message_of};

/// A message: its code, under which a table has its text, and the names of its two parameters. An empty
/// name is none.
pub type Message = (&'static str, &'static str, &'static str);

/// The place of the first reason why a text is no card number.
pub(crate) const CARDS: usize = 16;

/// The place of the first reason why a text is no URL.
pub(crate) const URLS: usize = 21;

/// The place of the first reason why a text is no phone number.
pub(crate) const PHONES: usize = 32;

/// The place of the first that something else is wanted.
pub(crate) const WANTED: usize = 40;

/// The place of the first other fault of form.
pub(crate) const FORM: usize = 57;

/// The place of the first reason why a text is not read as JSON.
pub(crate) const NO_JSON: usize = 63;

/// The place of the first rule that brings its code.
pub(crate) const NAMED: usize = 68;

/// The messages of the library. One that is asked for by its kind is in the place of that kind, and rules
/// that bring their codes are last.
pub static MESSAGES: [Message; 69] = [
    // Kinds of what rules find, in the order of `Datum`.
    ("length_lower_than", "min", ""),
    ("length_greater_than", "max", ""),
    ("range_lower_than", "min", ""),
    ("range_greater_than", "max", ""),
    ("credit_card_invalid", "reason", ""),
    ("pattern_no_match", "pattern", ""),
    ("contains_missing", "pattern", ""),
    ("url_invalid", "reason", ""),
    ("prefix_missing", "pattern", ""),
    ("suffix_missing", "pattern", ""),
    ("phone_number_invalid", "reason", ""),
    ("ip_invalid", "kind", ""),
    ("matches_field_mismatch", "field", ""),
    ("ascii_invalid", "", ""),
    ("alphanumeric_invalid", "", ""),
    ("required_not_set", "", ""),
    // The reasons of `InvalidCreditCard`, in their order.
    ("card_format", "", ""),
    ("card_length", "", ""),
    ("card_luhn", "", ""),
    ("card_type", "", ""),
    ("card_other", "", ""),
    // The reasons of `InvalidUrl`.
    ("url_empty_host", "", ""),
    ("url_idna", "", ""),
    ("url_port", "", ""),
    ("url_ipv4", "", ""),
    ("url_ipv6", "", ""),
    ("url_domain_character", "", ""),
    ("url_relative", "", ""),
    ("url_relative_to_no_base", "", ""),
    ("url_set_host", "", ""),
    ("url_overflow", "", ""),
    ("url_other", "", ""),
    // The reasons of `InvalidPhoneNumber`.
    ("phone_no_such_number", "", ""),
    ("phone_not_a_number", "", ""),
    ("phone_country_code", "", ""),
    ("phone_too_short_after_idd", "", ""),
    ("phone_too_short_nsn", "", ""),
    ("phone_too_long", "", ""),
    ("phone_malformed", "", ""),
    ("phone_other", "", ""),
    // What a form wants in a place, in the order of `Wanted`.
    ("not_text", "", ""),
    ("not_whole", "", ""),
    ("not_boolean", "", ""),
    ("not_null", "", ""),
    ("not_list", "", ""),
    ("not_object", "", ""),
    ("not_one_member", "", ""),
    ("not_character", "", ""),
    ("not_date", "", ""),
    ("not_time", "", ""),
    ("not_date_time", "", ""),
    ("not_timestamp", "", ""),
    ("not_ipv4", "", ""),
    ("not_ipv6", "", ""),
    ("not_uuid", "", ""),
    ("not_version", "", ""),
    ("not_url", "", ""),
    // The other faults of form.
    ("out_of_range", "least", "greatest"),
    ("member_missing", "", ""),
    ("member_repeated", "", ""),
    ("member_unknown", "", ""),
    ("value_unknown", "", ""),
    ("row_length", "", ""),
    // Why a text is not read as JSON.
    ("not_utf8", "line", "column"),
    ("not_json", "line", "column"),
    ("nested_too_deep", "line", "column"),
    ("lone_surrogate", "line", "column"),
    ("text_too_long", "", ""),
    // Rules that bring their codes.
    ("multiple_of_mismatch", "divisor", ""),
];

/// The messages of `garde_described`, about JSON Schemas and what they ask, and those of `garde_html`, about the
/// fields of a form, which they name by their labels. The shipped tables have their texts, and a table of yours
/// may: `TableTexts::with(&FURTHER_MESSAGES)` reads them.
pub static FURTHER_MESSAGES: [Message; 11] = [
    ("not_a_number", "", ""),
    ("type_mismatch", "", ""),
    ("range_not_greater", "bound", ""),
    ("range_not_less", "bound", ""),
    ("bounds_crossed", "", ""),
    ("reference_unknown", "", ""),
    ("reference_endless", "", ""),
    ("schema_too_deep", "", ""),
    ("field_empty", "label", ""),
    ("field_unchosen", "label", ""),
    ("field_again", "label", ""),
];

// The messages of the library. A proof looks at all of a table where it is named, so it is named once.
pub(crate) fn messages() -> &'static [Message]
    ensures { map message_of result.now ≡ LIBRARY }
{
    &MESSAGES
}

// The code of the message in a place.
pub(crate) fn code_at(place: usize) -> &'static str
    ensures { result.now ≡ code_at place }
{
    match messages().get(place) {
        Some((code, _, _)) => code,
        None => "",
    }
}
