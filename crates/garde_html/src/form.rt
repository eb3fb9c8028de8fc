//! What a page says of a form: its fields, and the words around them.
ghost use Rattle.std.specs.Prelude.{◌≡◌};
ghost use Rattle.std.specs.Option.{option_map};
ghost use Rattle.garde_html.specs.Form.{field_at, is_checked, typed_text};

/// What a visitor fills in.
#[derive(Clone, Copy, Debug)]
pub enum Control<'a> {
    /// A line of text, with the type of its `input`, as `text` or `email`. What was typed is shown again.
    Line(&'a str),
    /// A text of several lines. What was typed is shown again.
    Area,
    /// A password. What was typed is never shown again.
    Password,
    /// Boxes to check, each with the text that is sent and its label. What was checked is checked again.
    Boxes(&'a [(&'a str, &'a str)]),
    /// Buttons, one of which is pressed, each with the text that is sent and its label. What was pressed is
    /// pressed again.
    Radios(&'a [(&'a str, &'a str)]),
    /// A list, of which one is selected, each with the text that is sent and its label. What was selected is
    /// selected again.
    Select(&'a [(&'a str, &'a str)]),
}

/// A field of a form.
#[derive(Clone, Copy, Debug)]
pub struct Field<'a> {
    /// Its name, which also names it within the page. It has no white space.
    pub name: &'a str,
    /// What a visitor reads beside it.
    pub label: &'a str,
    /// What a visitor should know beforehand, as which texts are taken.
    pub hint: Option<&'a str>,
    /// What a browser may fill in, by a name of HTML, as `email` or `new-password`. Boxes and buttons do
    /// not say it.
    pub autocomplete: Option<&'a str>,
    /// Which keys a screen shows, as `numeric`, where the type of the line does not say it.
    pub inputmode: Option<&'a str>,
    /// Whether it is a fault to leave the field empty; of boxes, whether each has to be checked. A screen
    /// reader says so, and a browser holds no form back.
    pub required: bool,
    pub control: Control<'a>,
}

/// A form and the words around it, in one language.
#[derive(Clone, Copy, Debug)]
pub struct Form<'a> {
    /// The tag of the language (RFC 5646), as `en`.
    pub language: &'a str,
    /// Whether the language runs from the left or from the right: `ltr` or `rtl`.
    pub direction: &'a str,
    /// The title of the page and its heading.
    pub title: &'a str,
    /// The title where there are faults. It begins by saying so.
    pub faulty_title: &'a str,
    /// What stands above the list of all faults.
    pub summary: &'a str,
    /// The address that takes the form. It has no fragment: one would take the focus off the faults.
    pub action: &'a str,
    /// What the button says.
    pub send: &'a str,
    /// The fields, in their order on the page. No two have one name.
    pub fields: &'a [Field<'a>],
}

/// The first field of this name.
pub(crate) fn field_at<'a>(fields: &'a [Field<'a>], name: &str) -> Option<&'a Field<'a>>
    ensures { option_map (λ field. field.now) result ≡ field_at fields.now name.now }
{
    for field in fields {
        if name == field.name {
            return Some(field);
        }
    }
    None
}

/// The first text that was sent for a name, or the empty one.
pub(crate) fn typed_text<'a>(typed: &'a [(&'a str, &'a str)], name: &str) -> &'a str
    ensures { result.now ≡ typed_text name.now typed.now }
{
    for (field, text) in typed {
        if name == *field {
            return text;
        }
    }
    ""
}

/// Whether this text was sent for a name.
pub(crate) fn is_checked(typed: &[(&str, &str)], name: &str, value: &str) -> bool
    ensures { result ≡ is_checked name.now value.now typed.now }
{
    for (field, text) in typed {
        if name == *field && value == *text {
            return true;
        }
    }
    false
}
