//! Faults of form, each with its English text and its code.
ghost use Rattle.std.specs.Prelude.{◌≡◌};
ghost use Rattle.garde_schema.specs.FormText.{default_form_text, range_text, wanted_text, form_name, integer_code, wanted_code};

use garde_tape::Kind;

/// The types of whole numbers.
#[derive(Clone, Copy, Debug, Drop, PartialEq, Eq)]
pub enum Integer {
    /// `u8`.
    U8,
    /// `u16`.
    U16,
    /// `u32`.
    U32,
    /// `u64`, and `usize`.
    U64,
    /// `u128`.
    U128,
    /// `i8`.
    I8,
    /// `i16`.
    I16,
    /// `i32`.
    I32,
    /// `i64`, and `isize`.
    I64,
    /// `i128`.
    I128,
}

impl Integer {
    // That a whole number is not one of those of this type, which are named, in English.
    pub(crate) fn english(self) -> &'static str
        ensures { result.now ≡ range_text self }
    {
        match self {
            Integer::U8 => "out of range: 0 to 255",
            Integer::U16 => "out of range: 0 to 65535",
            Integer::U32 => "out of range: 0 to 4294967295",
            Integer::U64 => "out of range: 0 to 18446744073709551615",
            Integer::U128 => "out of range: 0 to 340282366920938463463374607431768211455",
            Integer::I8 => "out of range: -128 to 127",
            Integer::I16 => "out of range: -32768 to 32767",
            Integer::I32 => "out of range: -2147483648 to 2147483647",
            Integer::I64 => "out of range: -9223372036854775808 to 9223372036854775807",
            Integer::I128 => {
                "out of range: -170141183460469231731687303715884105728 to 170141183460469231731687303715884105727"
            }
        }
    }

    // Its name.
    pub(crate) fn code(self) -> &'static str
        ensures { result.now ≡ integer_code self }
    {
        match self {
            Integer::U8 => "u8",
            Integer::U16 => "u16",
            Integer::U32 => "u32",
            Integer::U64 => "u64",
            Integer::U128 => "u128",
            Integer::I8 => "i8",
            Integer::I16 => "i16",
            Integer::I32 => "i32",
            Integer::I64 => "i64",
            Integer::I128 => "i128",
        }
    }
}

/// What a form asks for in a place.
#[derive(Clone, Copy, Debug, Drop, PartialEq, Eq)]
pub enum Wanted {
    /// A text.
    Text,
    /// A whole number.
    Whole,
    /// `true` or `false`.
    Boolean,
    /// `null`.
    Null,
    /// A list.
    List,
    /// An object.
    Object,
    /// An object with one member.
    OneMember,
    /// A text of one character.
    Character,
    /// A text that writes a date.
    Date,
    /// A text that writes a time of day.
    Time,
    /// A text that writes a date and a time of day.
    DateTime,
    /// A text that writes a moment: a date, a time of day and an offset from UTC.
    Timestamp,
    /// A text that writes an IPv4 address.
    Ipv4,
    /// A text that writes an IPv6 address.
    Ipv6,
    /// A text that writes a UUID.
    Uuid,
    /// A text that writes a version.
    Version,
    /// A text that writes a URL.
    Url,
}

impl Wanted {
    // That something else is wanted, in English.
    pub(crate) fn english(self) -> &'static str
        ensures { result.now ≡ wanted_text self }
    {
        match self {
            Wanted::Text => "not a text",
            Wanted::Whole => "not a whole number",
            Wanted::Boolean => "not true or false",
            Wanted::Null => "not null",
            Wanted::List => "not a list",
            Wanted::Object => "not an object",
            Wanted::OneMember => "not an object with one member",
            Wanted::Character => "not a character",
            Wanted::Date => "not a date",
            Wanted::Time => "not a time",
            Wanted::DateTime => "not a date and time",
            Wanted::Timestamp => "not a timestamp",
            Wanted::Ipv4 => "not an IPv4 address",
            Wanted::Ipv6 => "not an IPv6 address",
            Wanted::Uuid => "not a UUID",
            Wanted::Version => "not a version",
            Wanted::Url => "not a URL",
        }
    }

    // Its name.
    pub(crate) fn code(self) -> &'static str
        ensures { result.now ≡ wanted_code self }
    {
        match self {
            Wanted::Text => "Text",
            Wanted::Whole => "Whole",
            Wanted::Boolean => "Boolean",
            Wanted::Null => "Null",
            Wanted::List => "List",
            Wanted::Object => "Object",
            Wanted::OneMember => "OneMember",
            Wanted::Character => "Character",
            Wanted::Date => "Date",
            Wanted::Time => "Time",
            Wanted::DateTime => "DateTime",
            Wanted::Timestamp => "Timestamp",
            Wanted::Ipv4 => "Ipv4",
            Wanted::Ipv6 => "Ipv6",
            Wanted::Uuid => "Uuid",
            Wanted::Version => "Version",
            Wanted::Url => "Url",
        }
    }
}

/// What is wrong with the form of a value. Of what was found it has the kind, never the value.
#[derive(Clone, Copy, Debug, Drop, PartialEq, Eq)]
pub enum FormFault {
    /// The value is of this kind, and something else is wanted.
    Wrong(Wanted, Kind),
    /// The value is a whole number that this type does not hold.
    OutOfRange(Integer),
    /// A member that must be there is missing.
    Missing,
    /// Several members have the same name.
    Repeated,
    /// No member of this name is known.
    Unknown,
    /// The text is not one of the names that are known.
    NotOneOf,
    /// A row of a table has more or fewer fields than its header.
    RowLength,
}

impl FormFault {
    // Its text in English. What was found is not told.
    pub(crate) fn english(self) -> &'static str
        ensures { result.now ≡ default_form_text self }
    {
        match self {
            FormFault::Wrong(wanted, _) => wanted.english(),
            FormFault::OutOfRange(of) => of.english(),
            FormFault::Missing => "missing",
            FormFault::Repeated => "repeated",
            FormFault::Unknown => "not known here",
            FormFault::NotOneOf => "not one of the known values",
            FormFault::RowLength => "not as many fields as in the header",
        }
    }

    // Its code.
    pub(crate) fn code(self) -> &'static str
        ensures { result.now ≡ form_name self }
    {
        match self {
            FormFault::Wrong(_, _) => "wrong_form",
            FormFault::OutOfRange(_) => "out_of_range",
            FormFault::Missing => "member_missing",
            FormFault::Repeated => "member_repeated",
            FormFault::Unknown => "member_unknown",
            FormFault::NotOneOf => "value_unknown",
            FormFault::RowLength => "row_length",
        }
    }
}
