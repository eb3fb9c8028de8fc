//! A type whose rules depend on its own fields.
ghost use Rattle.garde.specs.Fields.{◌and◌, ascii, between, bytes, field, if_some, is, prefix, required, str, when};

use garde::fields::{
    Adapt, Ascii, Field, Fields, IfSome, Is, Length, Prefix, Required, View, When,
};
use garde::{I18n, Report, Stated, Trail, Validate};
use std::alloc::AllocError;

/// A document, which says itself what is asked of its content.
#[derive(Debug, Drop)]
pub struct Document {
    /// Whether the content has to be ASCII.
    pub check_format: bool,
    /// Whether the content has to have 10 to 100 bytes.
    pub check_length: bool,
    /// The content, which has to be there.
    pub content: Option<String>,
    /// The tag, whose text begins with `t-`.
    pub tag: Tag,
}

/// A tag.
#[derive(Debug, Drop)]
pub struct Tag(pub String);

/// The view of a tag as its text.
#[derive(Clone, Copy)]
struct TagText;

impl View<Tag> for TagText {
    type Seen = String;

    ghost seen = { λ _ tag. tag.0 };

    fn see<'v>(&self, tag: &'v Tag) -> &'v String {
        &tag.0
    }
}

impl Stated for Document {
    type Context = ();

    ghost visits = { λ v _.
        field "content" (
        when v.check_format (if_some (λ content. is (ascii (str content))) v.content)
        and when v.check_length (if_some (λ content. is (bytes (between 10 100) (str content))) v.content)
        and is (required v.content))
        and field "tag" (is (prefix "t-" (str v.tag.0))) };
}

impl Validate for Document {
    fn validate_into<'a, H: I18n>(
        &'a self,
        _ctx: &(),
        trail: &mut Trail<'a>,
        report: &mut Report,
        h: &H,
    ) -> Result<(), AllocError> {
        let Self {
            check_format,
            check_length,
            content,
            tag,
        } = self;
        let length = Length { min: 10, max: 100 };
        (
            Field(
                "content",
                content,
                (
                    When(*check_format, IfSome(Is(Ascii))),
                    When(*check_length, IfSome(Is(length))),
                    Is(Required),
                ),
            ),
            Field("tag", tag, Is(Adapt(TagText, Prefix("t-")))),
        )
            .visit(trail, report, h)
    }
}
