//! The beginning of an OpenAPI document: parts that may be missing.
ghost use Rattle.std.specs.Prelude.{is_some, refl, ◌||◌};
ghost use Rattle.garde.specs.Fields.{◌and◌, asks, at_least, bytes, contains, field, if_some, is, is_in_memory, none, not, prefix, url};
ghost use Rattle.garde_schema.specs.Spelling.{a_text, an_object, made, member, nullish, ruled, six, three, two};

use garde::fields::{Asks, Contains, Is, IsInMemory, Prefix, Rule, Rules, Url};
use garde::{I18n, Report, RuleError, Stated, Trail, Valid, length};
use garde_schema::{
    Built, Checked, FirstReadError, FormI18n, FromParts, Member, Nullish, Object, ReadBody,
    Scratch, Spelled, Text, TextRef, Under, read_json_first,
};
use std::alloc::{AllocError, Global};
use std::marker::PhantomData;

/// Whom to write to.
#[derive(Debug, Drop)]
pub struct Contact<'t> {
    pub name: Option<TextRef<'t>>,
    pub url: Option<TextRef<'t>>,
    pub email: Option<TextRef<'t>>,
}

impl<'t> Stated for Contact<'t> {
    type Context = ();

    ghost visits = { λ v _.
        field "name" (if_some (λ x. is (bytes (at_least 1) x)) v.name)
        and field "url" (if_some (λ x. is_in_memory (url x)) v.url)
        and field "email" (if_some (λ x. is (contains "@" x)) v.email) };
}

/// Under what licence the API is.
#[derive(Debug, Drop)]
pub struct License<'t> {
    pub name: TextRef<'t>,
    pub identifier: Option<TextRef<'t>>,
    pub url: Option<TextRef<'t>>,
}

impl<'t> Stated for License<'t> {
    type Context = ();

    ghost visits = { λ v _.
        field "name" (is (bytes (at_least 1) v.name))
        and field "identifier" (is (asks "either an identifier or a URL" ((not (is_some v.identifier)) || (not (is_some v.url)))))
        and field "url" (if_some (λ x. is_in_memory (url x)) v.url) };
}

/// What the API is.
#[derive(Debug, Drop)]
pub struct Info<'t> {
    pub title: TextRef<'t>,
    pub summary: Option<TextRef<'t>>,
    pub description: Option<TextRef<'t>>,
    pub terms_of_service: Option<TextRef<'t>>,
    pub contact: Option<Contact<'t>>,
    pub license: Option<License<'t>>,
    pub version: TextRef<'t>,
}

impl<'t> Stated for Info<'t> {
    type Context = ();

    ghost visits = { λ v ctx.
        field "title" (is (bytes (at_least 1) v.title))
        and field "terms_of_service" (if_some (λ x. is_in_memory (url x)) v.terms_of_service)
        and field "contact" (if_some (λ x. ⟦<Contact<'t> as Stated>⟧.visits x ctx) v.contact)
        and field "license" (if_some (λ x. ⟦<License<'t> as Stated>⟧.visits x ctx) v.license)
        and field "version" (is (bytes (at_least 1) v.version)) };
}

/// The document.
#[derive(Debug, Drop)]
pub struct OpenApi<'t> {
    pub openapi: TextRef<'t>,
    pub info: Info<'t>,
}

impl<'t> Stated for OpenApi<'t> {
    type Context = ();

    ghost visits = { λ v ctx.
        field "openapi" (is (prefix "3." v.openapi))
        and field "info" (⟦<Info<'t> as Stated>⟧.visits v.info ctx) };
}

/// A value of the type `Contact` is made of what its form reads.
impl<'t> FromParts for Contact<'t> {
    type Parts = (
        Option<TextRef<'t>>,
        Option<TextRef<'t>>,
        Option<TextRef<'t>>,
    );

    ghost builds = { λ parts. record { name = parts.0; url = parts.1; email = parts.2 } };

    ghost parts_of = { λ v. (v.name, v.url, v.email) };

    ghost kept = { λ _. refl };

    fn from_parts(parts: Self::Parts) -> Self {
        let (name, url, email) = parts;
        Contact { name, url, email }
    }
}

/// A value of the type `License` is made of what its form reads.
impl<'t> FromParts for License<'t> {
    type Parts = (TextRef<'t>, (Option<TextRef<'t>>, Option<TextRef<'t>>));

    ghost builds = { λ parts. record { name = parts.0; identifier = parts.1.0; url = parts.1.1 } };

    ghost parts_of = { λ v. (v.name, (v.identifier, v.url)) };

    ghost kept = { λ _. refl };

    fn from_parts(parts: Self::Parts) -> Self {
        let (name, (identifier, url)) = parts;
        License {
            name,
            identifier,
            url,
        }
    }
}

/// What the field `identifier` of `License` asks beside others.
#[derive(Clone, Copy)]
struct LicenseIdentifierRules;

impl<'t> Rules<(Option<TextRef<'t>>, Option<TextRef<'t>>)> for LicenseIdentifierRules {
    ghost asks = { λ _ v.
        is (asks "either an identifier or a URL" ((not (is_some v.0)) || (not (is_some v.1)))) };

    fn ask<'a, H: I18n>(
        &self,
        value: &(Option<TextRef<'t>>, Option<TextRef<'t>>),
        trail: &mut Trail<'a>,
        report: &mut Report,
        h: &H,
    ) -> Result<(), AllocError> {
        let (identifier, url) = value;
        Is(LicenseIdentifierRule(url)).ask(identifier, trail, report, h)
    }
}

/// A value of the type `Info` is made of what its form reads.
impl<'t> FromParts for Info<'t> {
    type Parts = (
        TextRef<'t>,
        Option<TextRef<'t>>,
        Option<TextRef<'t>>,
        Option<TextRef<'t>>,
        Option<Contact<'t>>,
        (Option<License<'t>>, TextRef<'t>),
    );

    ghost builds = { λ parts. record {
      title = parts.0;
      summary = parts.1;
      description = parts.2;
      terms_of_service = parts.3;
      contact = parts.4;
      license = parts.5.0;
      version = parts.5.1;
    } };

    ghost parts_of = { λ v. (
      v.title,
      v.summary,
      v.description,
      v.terms_of_service,
      v.contact,
      (v.license, v.version),
    ) };

    ghost kept = { λ _. refl };

    fn from_parts(parts: Self::Parts) -> Self {
        let (title, summary, description, terms_of_service, contact, (license, version)) = parts;
        Info {
            title,
            summary,
            description,
            terms_of_service,
            contact,
            license,
            version,
        }
    }
}

/// A value of the type `OpenApi` is made of what its form reads.
impl<'t> FromParts for OpenApi<'t> {
    type Parts = (TextRef<'t>, Info<'t>);

    ghost builds = { λ parts. record { openapi = parts.0; info = parts.1 } };

    ghost parts_of = { λ v. (v.openapi, v.info) };

    ghost kept = { λ _. refl };

    fn from_parts(parts: Self::Parts) -> Self {
        let (openapi, info) = parts;
        OpenApi { openapi, info }
    }
}

impl<'t> Spelled for Contact<'t> {
    ghost spelled = { made (λ parts. record { name = parts.0; url = parts.1; email = parts.2 })
        (an_object (three
        (nullish "name" (a_text (λ v. is (bytes (at_least 1) v))))
        (nullish "url" (a_text (λ v. is_in_memory (url v))))
        (nullish "email" (a_text (λ v. is (contains "@" v)))))) };
}

impl<'t> Spelled for License<'t> {
    ghost spelled = { made (λ parts. record {
      name = parts.0;
      identifier = parts.1.0;
      url = parts.1.1;
    }) (an_object (two
        (member "name" (a_text (λ v. is (bytes (at_least 1) v))))
        (ruled
        (two
        (nullish "identifier" (a_text (λ _. none)))
        (nullish "url" (a_text (λ v. is_in_memory (url v)))))
        (λ v. field "identifier" (is (asks "either an identifier or a URL" ((not (is_some v.0)) || (not (is_some v.1))))))))) };
}

impl<'t> Spelled for Info<'t> {
    ghost spelled = { made (λ parts. record {
      title = parts.0;
      summary = parts.1;
      description = parts.2;
      terms_of_service = parts.3;
      contact = parts.4;
      license = parts.5.0;
      version = parts.5.1;
    }) (an_object (six
        (member "title" (a_text (λ v. is (bytes (at_least 1) v))))
        (nullish "summary" (a_text (λ _. none)))
        (nullish "description" (a_text (λ _. none)))
        (nullish "termsOfService" (a_text (λ v. is_in_memory (url v))))
        (nullish "contact" ⟦<Contact<'t> as Spelled>⟧.spelled)
        (two
        (nullish "license" ⟦<License<'t> as Spelled>⟧.spelled)
        (member "version" (a_text (λ v. is (bytes (at_least 1) v))))))) };
}

impl<'t> Spelled for OpenApi<'t> {
    ghost spelled = { made (λ parts. record { openapi = parts.0; info = parts.1 })
        (an_object (two
        (member "openapi" (a_text (λ v. is (prefix "3." v))))
        (member "info" ⟦<Info<'t> as Spelled>⟧.spelled))) };
}

#[tactic(auto, unfolding(garde::specs::Fields::Known))]
impl<'a> ReadBody<'a> for OpenApi<'a> {
    fn read_body<H: I18n + FormI18n>(
        alloc: Global,
        bytes: &'a [u8],
        scratch: &'a mut Scratch,
        most: usize,
        h: &H,
    ) -> Result<OpenApi<'a>, FirstReadError> {
        let contact_form = Built(
            Object((
                Nullish("name", Text(Is(length!(min = 1)))),
                Nullish("url", Text(IsInMemory(Url))),
                Nullish("email", Text(Is(Contains("@")))),
            )),
            PhantomData::<&Contact<'_>>,
        );
        let license_form = Built(
            Object((
                Member("name", Text(Is(length!(min = 1)))),
                Checked(
                    (
                        Nullish("identifier", Text(())),
                        Nullish("url", Text(IsInMemory(Url))),
                    ),
                    Under("identifier", LicenseIdentifierRules),
                ),
            )),
            PhantomData::<&License<'_>>,
        );
        let info_form = Built(
            Object((
                Member("title", Text(Is(length!(min = 1)))),
                Nullish("summary", Text(())),
                Nullish("description", Text(())),
                Nullish("termsOfService", Text(IsInMemory(Url))),
                Nullish("contact", contact_form),
                (
                    Nullish("license", license_form),
                    Member("version", Text(Is(length!(min = 1)))),
                ),
            )),
            PhantomData::<&Info<'_>>,
        );
        let open_api_form = Built(
            Object((
                Member("openapi", Text(Is(Prefix("3.")))),
                Member("info", info_form),
            )),
            PhantomData::<&OpenApi<'_>>,
        );
        match read_json_first(alloc, bytes, scratch, &open_api_form, most, h) {
            Ok(value) => Ok(Valid::known(value, &()).into_inner()),
            Err(error) => Err(error),
        }
    }
}

/// What a rule of the field `identifier` of `License` asks of its value.
#[derive(Clone, Copy)]
struct LicenseIdentifierRule<'c, 't>(&'c Option<TextRef<'t>>);

impl<'t> Rule<Option<TextRef<'t>>> for LicenseIdentifierRule<'_, 't> {
    ghost finds = { λ rule value.
        asks "either an identifier or a URL" ((not (is_some value)) || (not (is_some rule.0.now))) };

    fn find<H: I18n>(
        &self,
        alloc: Global,
        value: &Option<TextRef<'t>>,
        h: &H,
    ) -> Result<(), RuleError> {
        let url = self.0;
        Asks(
            "either an identifier or a URL",
            value.is_none() || url.is_none(),
        )
        .find(alloc, value, h)
    }
}
