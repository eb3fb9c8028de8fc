//! Where something is: texts with parts, addresses, and each unit in which a text is counted.
ghost use Rattle.garde.specs.Fields.{◌and◌, Any, at_least, at_most, between, bytes, chars, contains, exactly, field, graphemes, ip, is, is_in_memory, prefix, str, suffix, url, utf16, V4, V6};

use garde::fields::{Contains, Field, Fields, Ip, Is, IsInMemory, Prefix, Suffix, Url};
use garde::i18n::IpKind;
use garde::{I18n, Report, Stated, Trail, Validate, length};
use std::alloc::AllocError;

/// A place on the network.
#[derive(Drop)]
pub struct Place {
    pub mail: String,
    pub tag: String,
    pub host: String,
    pub old: String,
    pub new: String,
    pub site: String,
    pub sign: String,
    pub short: String,
    pub title: String,
}

impl Stated for Place {
    type Context = ();

    ghost visits = { λ v _.
        field "mail" (is (contains "@" (str v.mail)) and is (suffix ".org" (str v.mail)))
        and field "tag" (is (prefix "t-" (str v.tag)) and is (bytes (exactly 5) (str v.tag)))
        and field "host" (is (ip Any (str v.host)))
        and field "old" (is (ip V4 (str v.old)))
        and field "new" (is (ip V6 (str v.new)))
        and field "site" (is_in_memory (url (str v.site)))
        and field "sign" (is (graphemes (between 1 3) (str v.sign)))
        and field "short" (is (utf16 (at_most 2) (str v.short)))
        and field "title" (is (bytes (at_least 2) (str v.title)) and is (chars (at_most 4) (str v.title))) };
}

impl Validate for Place {
    fn validate_into<'a, H: I18n>(
        &'a self,
        _ctx: &(),
        trail: &mut Trail<'a>,
        report: &mut Report,
        h: &H,
    ) -> Result<(), AllocError> {
        let Self {
            mail,
            tag,
            host,
            old,
            new,
            site,
            sign,
            short,
            title,
        } = self;
        (
            Field("mail", mail, (Is(Contains("@")), Is(Suffix(".org")))),
            Field(
                "tag",
                tag,
                (Is(Prefix("t-")), Is(length!(bytes, equal = 5))),
            ),
            Field("host", host, Is(Ip(IpKind::Any))),
            Field("old", old, Is(Ip(IpKind::V4))),
            Field("new", new, Is(Ip(IpKind::V6))),
            (
                Field("site", site, IsInMemory(Url)),
                Field("sign", sign, Is(length!(graphemes, min = 1, max = 3))),
                Field("short", short, Is(length!(utf16, max = 2))),
                Field(
                    "title",
                    title,
                    (Is(length!(min = 2)), Is(length!(chars, max = 4))),
                ),
            ),
        )
            .visit(trail, report, h)
    }
}
