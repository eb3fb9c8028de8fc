//! Texts of IP addresses.
ghost use Rattle.std.specs.Prelude.{◌≡◌, ◌++◌, ◌↔◌, Bool, IsTrue, Some, IfErr, is_ok, codes};
ghost use Rattle.garde_i18n.specs.Datum as datum;
ghost use Rattle.garde_i18n.specs.Reasons.{ip_kind_text};
ghost use Rattle.garde_i18n.specs.declared.reasons.IpKind.{IpKind};
ghost use Rattle.garde_engines.specs.Applies.{Applies};
ghost use Rattle.garde_engines.specs.Ip.{IsIp};
ghost use Rattle.garde_engines.specs.IpText.{is_ip_text};
ghost use Rattle.garde_rules.specs.Holds.{unless, passes_option, refused_option};

use crate::as_str::AsStr;
use garde_engines::addresses::is_ip;
pub use garde_engines::addresses::{is_ipv4, is_ipv6};
use garde_i18n::I18n;
pub use garde_i18n::IpKind;
use garde_report::RuleError;
use std::alloc::Global;
use std::fmt;
use std::marker::Model;

/// Why a text is rejected: it is no address of the kind that was asked for.
#[derive(Drop)]
pub struct AddrParseError {
    kind: IpKind,
}

// Contracts see the error as that kind.
impl Model for AddrParseError {
    ghost use Rattle.garde_i18n.specs.declared.reasons.IpKind.{IpKind};

    ghost Value = { IpKind };

    ghost view = { λ error. error.kind };
}

impl fmt::Display for AddrParseError {
    ghost output = { λ kind.
        Some (codes "invalid " ++ (ip_kind_text kind ++ codes " address syntax")) };

    fn fmt<W: fmt::Write>(&self, f: &mut fmt::Formatter<W>) -> fmt::Result {
        let kind = self.kind;
        write!(f, "invalid {kind} address syntax")
    }
}

impl fmt::Debug for AddrParseError {
    fn fmt<W: fmt::Write>(&self, f: &mut fmt::Formatter<W>) -> fmt::Result {
        let kind = self.kind;
        write!(f, "AddrParseError({kind})")
    }
}

impl std::error::Error for AddrParseError {}

/// A value that may be an IP address. Every text may, and an option of one.
pub trait Ip {
    /// Why a value is rejected.
    type Error: fmt::Display + Drop;

    /// Whether the value is an address of the kind.
    ghost passes: { IpKind → Self → Bool };

    /// Which errors say why the value is no address of the kind.
    ghost refused: { IpKind → Self → Self.Error → Type 0 };

    /// Returns Ok where the value is an IP address of the kind, and else an error that says why it
    /// is none. An option without a value passes, and one with a value gives the answer of that
    /// value.
    fn validate_ip(&self, kind: IpKind) -> Result<(), Self::Error>
        ensures value { is_ok result ≡ passes kind self.now }
        ensures error { IfErr result (refused kind self.now) };
}

impl<T: AsStr> Ip for T {
    type Error = AddrParseError;

    ghost passes = { λ kind v. is_ip_text kind (T.text v) };

    ghost refused = { λ kind _ error. error ≡ kind };

    fn validate_ip(&self, kind: IpKind) -> Result<(), AddrParseError>
        ensures value { is_ok result ≡ is_ip_text kind (T.text self.now) }
        ensures grammar { IsTrue (is_ok result) ↔ IsIp kind (T.text self.now) }
        ensures error { IfErr result (λ error. error ≡ kind) }
    {
        if is_ip(self.as_str(), kind) {
            Ok(())
        } else {
            Err(AddrParseError { kind })
        }
    }
}

impl<T: Ip> Ip for Option<T> {
    type Error = T::Error;

    ghost passes = { λ kind. passes_option (T.passes kind) };

    ghost refused = { λ kind. refused_option (T.refused kind) };

    fn validate_ip(&self, kind: IpKind) -> Result<(), T::Error> {
        match self {
            None => Ok(()),
            Some(v) => v.validate_ip(kind),
        }
    }
}

/// Returns Ok where the value is an IP address of the kind, and else the fault with the handler's
/// text.
///
/// `RuleError::Memory` is returned only where the rule does not hold.
pub fn apply<T: Ip, H: I18n>(alloc: Global, v: &T, args: (IpKind,), h: &H) -> Result<(), RuleError>
    ensures { Applies (unless (T.passes args.0 v.now) (datum.ip args.0)) (H.text h.now) result }
{
    let (kind,) = args;
    match v.validate_ip(kind) {
        Ok(()) => Ok(()),
        Err(_) => Err(RuleError::of(alloc, h.ip_invalid(alloc, kind))),
    }
}
