//! A type that asks each rule that the other types leave out.
ghost use Rattle.garde.specs.Fields.{◌and◌, alphanumeric, Any, between, chars, contains, field, ip, is, is_in_memory, minus, plus, prefix, required, signed_range, str, suffix, url};

use garde::fields::{
    Alphanumeric, CharLength, Contains, Field, Fields, Ip, Is, IsInMemory, Prefix, Range, Required,
    Suffix, Url,
};
use garde::i18n::IpKind;
use garde::{I18n, Report, Stated, Trail, Validate};
use std::alloc::AllocError;

/// A tag, an address, a host, a site and a temperature.
#[derive(Drop)]
pub struct Profile {
    pub tag: String,
    pub address: String,
    pub phone: Option<u32>,
    pub host: String,
    pub site: String,
    pub degrees: i32,
}

impl Stated for Profile {
    type Context = ();

    ghost visits = { λ v _.
        field "tag" (is (alphanumeric (str v.tag)) and is (chars (between 1 20) (str v.tag)))
        and field "address" (is (prefix "https://" (str v.address))
        and is (contains "." (str v.address))
        and is (suffix "/" (str v.address)))
        and field "phone" (is (required v.phone))
        and field "host" (is (ip Any (str v.host)))
        and field "site" (is_in_memory (url (str v.site)))
        and field "degrees" (is (signed_range (between (minus 10) (plus 10)) v.degrees)) };
}

impl Validate for Profile {
    fn validate_into<'a, H: I18n>(
        &'a self,
        _ctx: &(),
        trail: &mut Trail<'a>,
        report: &mut Report,
        h: &H,
    ) -> Result<(), AllocError> {
        let Self {
            tag,
            address,
            phone,
            host,
            site,
            degrees,
        } = self;
        let secure = (Is(Prefix("https://")), Is(Contains(".")), Is(Suffix("/")));
        (
            Field(
                "tag",
                tag,
                (Is(Alphanumeric), Is(CharLength { min: 1, max: 20 })),
            ),
            Field("address", address, secure),
            Field("phone", phone, Is(Required)),
            Field("host", host, Is(Ip(IpKind::Any))),
            Field("site", site, IsInMemory(Url)),
            Field(
                "degrees",
                degrees,
                Is(Range {
                    min: Some(-10),
                    max: Some(10),
                }),
            ),
        )
            .visit(trail, report, h)
    }
}
