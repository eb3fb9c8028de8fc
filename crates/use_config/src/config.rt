// Written by tools/port-garde from config.garde.rs: edit that file, not this one. Its sum is c72f767b357ea194.
//! The whole configuration.
ghost use Rattle.std.specs.Prelude.{IfOk, Some, [], refl, ◌||◌, ◌∷◌, ◌≡◌};
ghost use Rattle.garde_schema.specs.Bytes.{AnswersBytes, OfDocument};
ghost use Rattle.garde_schema.specs.Forms.{forget};
ghost use Rattle.garde_tape.specs.Input.{without_mark};
ghost use Rattle.garde.specs.Fields.{◌and◌, at_least, between, Bool, bytes, count, each_value, false, field, if_some, is, is_in_memory, is_ipv4, is_ipv6, items, key_part, none, not, pattern, range, required, suffix, true, when};
ghost use Rattle.garde_schema.specs.Spelling.{a_map_of, a_name, a_number, a_text, an_object, closed, five, made, member, nullish, ruled, three, two, u16_numbers, u32_numbers};
ghost use Rattle.use_config.specs.declared.config.Level.TheVariants.{Error, Info, Debug};

use garde::fields::{Is, IsInMemory, Pattern, Required, Rules, Suffix, When};
use garde::rules::ip::{is_ipv4, is_ipv6};
use garde::rules::pattern::regex::Regex;
use garde::{I18n, Report, Stated, Trail, Valid, length, range};
use garde_schema::{
    Built, Checked, Closed, Entries, FormI18n, FromParts, MapUnder, Member, Nullish, Object, OneOf,
    ReadError, Scratch, Spelled, SpelledUnder, Text, TextRef, U16, U32, Under, Whole, read_json,
};
use std::alloc::{AllocError, Global};
use std::marker::PhantomData;

/// The files of an encrypted connection.
#[derive(Drop)]
pub struct Tls<'t> {
    pub certificate: TextRef<'t>,
    pub key: TextRef<'t>,
}

impl<'t> Stated for Tls<'t> {
    type Context = ();

    ghost visits = { λ v _.
        field "certificate" (is (suffix ".pem" v.certificate))
        and field "key" (is (suffix ".pem" v.key)) };
}

/// The place of a service: a host by its address, or by a name that the pattern matches, and a
/// port.
#[derive(Drop)]
pub struct Server<'t> {
    pub host: TextRef<'t>,
    pub port: u16,
    pub workers: u16,
    /// How many connections the workers take together.
    pub connections: u16,
    pub tls: Option<Tls<'t>>,
}

impl<'t> Stated for Server<'t> {
    type Context = Regex;

    ghost visits = { λ v names.
        field "host" (when (not (is_ipv4 v.host || is_ipv6 v.host)) (is_in_memory (pattern names v.host)))
        and field "port" (is (range (at_least 1) v.port))
        and field "workers" (is (range (between 1 64) v.workers))
        and field "tls" (if_some (λ x. ⟦<Tls<'t> as Stated>⟧.visits x tt) v.tls) };
}

/// How much is logged.
#[derive(Clone, Copy)]
pub enum Level {
    Error,
    Info,
    Debug,
}

/// A log. At the level `debug` it has a file.
#[derive(Drop)]
pub struct Logging<'t> {
    pub level: Level,
    pub file: Option<TextRef<'t>>,
}

impl<'t> Stated for Logging<'t> {
    type Context = ();

    ghost visits = { λ v _.
        field "file" (when (elim v.level as (λ _. Bool) [ Debug ↦ true | _ ↦ false ]) (is (required v.file)) and if_some (λ x. is (bytes (between 1 255) x)) v.file) };
}

/// What a resource may take.
#[derive(Clone, Copy)]
pub struct Limit {
    pub min: u32,
    pub max: u32,
}

impl Stated for Limit {
    type Context = ();

    ghost visits = { λ v _. field "max" (is (range (at_least v.min) v.max)) };
}

/// The configuration of a service, with limits by the names of resources.
#[derive(Drop)]
pub struct Config<'t> {
    pub server: Server<'t>,
    pub logging: Logging<'t>,
    pub limits: Entries<'t, Limit>,
}

impl<'t> Stated for Config<'t> {
    type Context = Regex;

    ghost visits = { λ v names.
        field "server" (⟦<Server<'t> as Stated>⟧.visits v.server names)
        and field "logging" (⟦<Logging<'t> as Stated>⟧.visits v.logging tt)
        and field "limits" (is (items (between 1 100) v.limits) and each_value key_part (λ x. ⟦<Limit as Stated>⟧.visits x tt) v.limits) };
}

/// A value of the type `Tls` is made of what its form reads.
impl<'t> FromParts for Tls<'t> {
    type Parts = (TextRef<'t>, TextRef<'t>);

    ghost builds = { λ parts. record { certificate = parts.0; key = parts.1 } };

    ghost parts_of = { λ v. (v.certificate, v.key) };

    ghost kept = { λ _. refl };

    fn from_parts(parts: Self::Parts) -> Self {
        let (certificate, key) = parts;
        Tls { certificate, key }
    }
}

/// A value of the type `Server` is made of what its form reads.
impl<'t> FromParts for Server<'t> {
    type Parts = (TextRef<'t>, u16, u16, u16, Option<Tls<'t>>);

    ghost builds = { λ parts. record {
      host = parts.0;
      port = parts.1;
      workers = parts.2;
      connections = parts.3;
      tls = parts.4;
    } };

    ghost parts_of = { λ v. (v.host, v.port, v.workers, v.connections, v.tls) };

    ghost kept = { λ _. refl };

    fn from_parts(parts: Self::Parts) -> Self {
        let (host, port, workers, connections, tls) = parts;
        Server {
            host,
            port,
            workers,
            connections,
            tls,
        }
    }
}

/// What the field `host` of `Server` asks beside others.
#[derive(Clone, Copy)]
struct ServerHostRules<'c>(&'c Regex);

impl<'t> Rules<TextRef<'t>> for ServerHostRules<'_> {
    ghost asks = { λ rule v.
        when (not (is_ipv4 v || is_ipv6 v)) (is_in_memory (pattern rule.0.now v)) };

    fn ask<'a, H: I18n>(
        &self,
        value: &TextRef<'t>,
        trail: &mut Trail<'a>,
        report: &mut Report,
        h: &H,
    ) -> Result<(), AllocError> {
        let names = self.0;
        let host = value;
        When(!is_address(host.text()), IsInMemory(Pattern(names))).ask(host, trail, report, h)
    }
}

/// A value of the type `Logging` is made of what its form reads.
impl<'t> FromParts for Logging<'t> {
    type Parts = (Level, Option<TextRef<'t>>);

    ghost builds = { λ parts. record { level = parts.0; file = parts.1 } };

    ghost parts_of = { λ v. (v.level, v.file) };

    ghost kept = { λ _. refl };

    fn from_parts(parts: Self::Parts) -> Self {
        let (level, file) = parts;
        Logging { level, file }
    }
}

/// What the field `file` of `Logging` asks beside others.
#[derive(Clone, Copy)]
struct LoggingFileRules;

impl<'t> Rules<(Level, Option<TextRef<'t>>)> for LoggingFileRules {
    ghost asks = { λ _ v.
        when (elim v.0 as (λ _. Bool) [ Debug ↦ true | _ ↦ false ]) (is (required v.1)) };

    fn ask<'a, H: I18n>(
        &self,
        value: &(Level, Option<TextRef<'t>>),
        trail: &mut Trail<'a>,
        report: &mut Report,
        h: &H,
    ) -> Result<(), AllocError> {
        let (level, file) = value;
        When(matches!(level, Level::Debug), Is(Required)).ask(file, trail, report, h)
    }
}

/// A value of the type `Limit` is made of what its form reads.
impl FromParts for Limit {
    type Parts = (u32, u32);

    ghost builds = { λ parts. record { min = parts.0; max = parts.1 } };

    ghost parts_of = { λ v. (v.min, v.max) };

    ghost kept = { λ _. refl };

    fn from_parts(parts: Self::Parts) -> Self {
        let (min, max) = parts;
        Limit { min, max }
    }
}

/// What the field `max` of `Limit` asks beside others.
#[derive(Clone, Copy)]
struct LimitMaxRules;

impl Rules<(u32, u32)> for LimitMaxRules {
    ghost asks = { λ _ v. is (range (at_least v.0) v.1) };

    fn ask<'a, H: I18n>(
        &self,
        value: &(u32, u32),
        trail: &mut Trail<'a>,
        report: &mut Report,
        h: &H,
    ) -> Result<(), AllocError> {
        let (min, max) = value;
        Is(range!(min = *min)).ask(max, trail, report, h)
    }
}

/// A value of the type `Config` is made of what its form reads.
impl<'t> FromParts for Config<'t> {
    type Parts = (Server<'t>, Logging<'t>, Entries<'t, Limit>);

    ghost builds = { λ parts. record { server = parts.0; logging = parts.1; limits = parts.2 } };

    ghost parts_of = { λ v. (v.server, v.logging, v.limits) };

    ghost kept = { λ _. refl };

    fn from_parts(parts: Self::Parts) -> Self {
        let (server, logging, limits) = parts;
        Config {
            server,
            logging,
            limits,
        }
    }
}

impl<'t> Spelled for Tls<'t> {
    ghost spelled = { made (λ parts. record { certificate = parts.0; key = parts.1 })
        (an_object (closed (two
        (member "certificate" (a_text (λ v. is (suffix ".pem" v))))
        (member "key" (a_text (λ v. is (suffix ".pem" v))))))) };
}

impl<'t> SpelledUnder for Server<'t> {
    ghost spelled = { λ names. made (λ parts. record {
      host = parts.0;
      port = parts.1;
      workers = parts.2;
      connections = parts.3;
      tls = parts.4;
    }) (an_object (closed (five
        (ruled
        (member "host" (a_text (λ _. none)))
        (λ v. field "host" (when (not (is_ipv4 v || is_ipv6 v)) (is_in_memory (pattern names v)))))
        (member "port" (a_number u16_numbers (range (at_least 1) ∷ [])))
        (member "workers" (a_number u16_numbers (range (between 1 64) ∷ [])))
        (member "connections" (a_number u16_numbers []))
        (nullish "tls" ⟦<Tls<'t> as Spelled>⟧.spelled)))) };
}

impl Spelled for Level {
    ghost spelled = { a_name (("error", Error) ∷ ("info", Info) ∷ ("debug", Debug) ∷ []) };
}

impl<'t> Spelled for Logging<'t> {
    ghost spelled = { made (λ parts. record { level = parts.0; file = parts.1 })
        (an_object (closed (ruled
        (two
        (member "level" ⟦<Level as Spelled>⟧.spelled)
        (nullish "file" (a_text (λ v. is (bytes (between 1 255) v)))))
        (λ v. field "file" (when (elim v.0 as (λ _. Bool) [ Debug ↦ true | _ ↦ false ]) (is (required v.1))))))) };
}

impl Spelled for Limit {
    ghost spelled = { made (λ parts. record { min = parts.0; max = parts.1 })
        (an_object (closed (ruled
        (two
        (member "min" (a_number u32_numbers []))
        (member "max" (a_number u32_numbers [])))
        (λ v. field "max" (is (range (at_least v.0) v.1)))))) };
}

impl<'t> SpelledUnder for Config<'t> {
    ghost spelled = { λ names. made (λ parts. record {
      server = parts.0;
      logging = parts.1;
      limits = parts.2;
    }) (an_object (closed (three
        (member "server" (⟦<Server<'t> as SpelledUnder>⟧.spelled names))
        (member "logging" ⟦<Logging<'t> as Spelled>⟧.spelled)
        (member "limits" (a_map_of (λ v. is (count (between 1 100) v)) ⟦<Limit as Spelled>⟧.spelled))))) };
}

/// Reads a value of the type `Config` in JSON, or reports every fault of its form and of its rules.
#[tactic(auto, unfolding(garde::specs::Fields::Known))]
pub fn read_config<'a, H: I18n + FormI18n>(
    alloc: Global,
    bytes: &'a [u8],
    scratch: &'a mut Scratch,
    names: &Regex,
    h: &H,
) -> Result<Valid<Config<'a>>, ReadError>
    ensures answer { AnswersBytes
        (λ j. (⟦<Config<'static> as SpelledUnder>⟧.spelled names.now).visits (H.form_text h.now) j)
        (H.text h.now) (without_mark bytes.now) (forget result) }
    ensures value { IfOk result (λ v. OfDocument (without_mark bytes.now)
        (λ j. (⟦<Config<'static> as SpelledUnder>⟧.spelled names.now).value j ≡ Some v)) }
{
    let tls_form = Built(
        Object(Closed((
            Member("certificate", Text(Is(Suffix(".pem")))),
            Member("key", Text(Is(Suffix(".pem")))),
        ))),
        PhantomData::<&Tls<'_>>,
    );
    let server_form = Built(
        Object(Closed((
            Checked(
                Member("host", Text(())),
                Under("host", ServerHostRules(names)),
            ),
            Member("port", Whole(U16, Is(range!(min = 1)))),
            Member("workers", Whole(U16, Is(range!(min = 1, max = 64)))),
            Member("connections", Whole(U16, ())),
            Nullish("tls", tls_form),
        ))),
        PhantomData::<&Server<'_>>,
    );
    let level_form = OneOf(&[
        ("error", Level::Error),
        ("info", Level::Info),
        ("debug", Level::Debug),
    ]);
    let logging_form = Built(
        Object(Closed(Checked(
            (
                Member("level", level_form),
                Nullish("file", Text(Is(length!(min = 1, max = 255)))),
            ),
            Under("file", LoggingFileRules),
        ))),
        PhantomData::<&Logging<'_>>,
    );
    let limit_form = Built(
        Object(Closed(Checked(
            (Member("min", Whole(U32, ())), Member("max", Whole(U32, ()))),
            Under("max", LimitMaxRules),
        ))),
        PhantomData::<&Limit>,
    );
    let config_form = Built(
        Object(Closed((
            Member("server", server_form),
            Member("logging", logging_form),
            Member(
                "limits",
                MapUnder(Is(length!(min = 1, max = 100)), limit_form),
            ),
        ))),
        PhantomData::<&Config<'_>>,
    );
    match read_json(alloc, bytes, scratch, &config_form, h) {
        Ok(value) => Ok(Valid::known(value, names)),
        Err(error) => Err(error),
    }
}

/// Whether a text is an address.
fn is_address(text: &str) -> bool
    ensures { result ≡ is_ipv4 text.now || is_ipv6 text.now }
{
    is_ipv4(text) || is_ipv6(text)
}
