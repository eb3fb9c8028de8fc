//! The settings of a program that copies files, and what is asked of them.
ghost use Rattle.garde.specs.Fields.{◌and◌, between, each, field, if_some, ip, is, IsAtMost, items, length, product, range, required, slice, str, suffix, V4, when};

use clap::ArgMatches;
use garde::fields::{Each, Field, Fields, IfSome, Ip, Is, Required, Suffix, When};
use garde::i18n::IpKind;
use garde::{I18n, Report, Stated, Trail, Valid, Validate, length, range};
use std::alloc::{AllocError, Global};

/// What is to be copied, and how.
#[derive(Drop)]
pub struct Settings {
    /// How many jobs copy side by side.
    pub jobs: u8,
    /// The address that files are uploaded to.
    pub remote: Option<String>,
    /// Whether the files are uploaded, which wants an address.
    pub upload: bool,
    /// The names of the files.
    pub files: Vec<String>,
}

/// The names of the files that a command line has.
fn files_of(alloc: Global, matches: &ArgMatches<'_>) -> Result<Vec<String>, AllocError> {
    let mut files = Vec::new(alloc);
    if let Some(names) = matches.get_strs("FILE") {
        for name in names {
            files.push(String::from_str(alloc, name)?)?;
        }
    }
    Ok(files)
}

impl Settings {
    /// The settings that a command line spells, not validated yet.
    pub fn of(alloc: Global, matches: &ArgMatches<'_>) -> Result<Settings, AllocError> {
        let remote = match matches.get_str("remote") {
            Some(remote) => Some(String::from_str(alloc, remote)?),
            None => None,
        };
        Ok(Settings {
            jobs: matches.get_one::<u8>("jobs").unwrap_or(1),
            remote,
            upload: matches.get_flag("upload"),
            files: files_of(alloc, matches)?,
        })
    }
}

impl Stated for Settings {
    type Context = ();

    ghost visits = { λ v _.
        field "--jobs" (is (range (between 1 16) v.jobs))
        and field "--remote" (when v.upload (is (required v.remote)) and if_some (λ remote. is (ip V4 (str remote))) v.remote)
        and field "FILE" (is (items (between 1 3) (slice v.files)) and each (λ file. is (suffix ".csv" (str file))) (slice v.files)) };
}

impl Validate for Settings {
    fn validate_into<'a, H: I18n>(
        &'a self,
        _ctx: &(),
        trail: &mut Trail<'a>,
        report: &mut Report,
        h: &H,
    ) -> Result<(), AllocError> {
        let Self {
            jobs,
            remote,
            upload,
            files,
        } = self;
        let wanted = When(*upload, Is(Required));
        let named = Each(Is(Suffix(".csv")));
        (
            Field("--jobs", jobs, Is(range!(min = 1, max = 16))),
            Field("--remote", remote, (wanted, IfSome(Is(Ip(IpKind::V4))))),
            Field("FILE", files, (Is(length!(min = 1, max = 3)), named)),
        )
            .visit(trail, report, h)
    }
}

/// How many files a job copies at most. Valid settings have a job, so nothing is tested.
#[tactic(auto, unfolding(garde::specs::Fields::Known))]
pub fn share(settings: &Valid<Settings>) -> usize
    ensures { IsAtMost (length (slice settings.now.files)) (product result settings.now.jobs) }
{
    settings.files.len().div_ceil(usize::from(settings.jobs))
}
