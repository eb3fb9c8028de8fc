//! IP addresses.
ghost use Rattle.std.specs.Prelude.{◌≡◌, false, None};
ghost use Rattle.garde_form.specs.declared.text_type.TextKind.TheVariants.{Quoted};
ghost use Rattle.garde_schema.specs.declared.fault.FormFault.TheVariants.{Wrong};
ghost use Rattle.garde_schema.specs.declared.fault.Wanted.TheVariants as wanted;
ghost use Rattle.garde_tape.specs.declared.kind.Kind.TheVariants as kinds;
ghost use Rattle.garde_parsed.specs.Addresses.{has_colon, ip_of, ip_wanted, ipv4_of, ipv6_of};

use garde_form::{Parse, TextKind, TextType};
use garde_schema::{FormFault, FormI18n, Kind, Wanted};
use std::alloc::{AllocError, Global};
use std::borrow::CowStr;
use std::net::{IpAddr, Ipv4Addr, Ipv6Addr};

/// A text that writes an IPv4 address, as `std::net::Ipv4Addr` reads it: four decimal numbers
/// below 256 without leading zeros, and dots between them.
#[derive(Clone, Copy, Debug)]
pub struct Ipv4;

impl TextType for Ipv4 {
    type Value = Ipv4Addr;

    ghost KIND = { Quoted wanted.Ipv4 };

    const KIND: TextKind<Ipv4Addr> = TextKind::Quoted(Wanted::Ipv4);

    ghost parsed = { λ text. ipv4_of text };

    fn read(text: &str) -> Option<Ipv4Addr> {
        text.parse::<Ipv4Addr>().ok()
    }
}

/// A text that writes an IPv6 address, as `std::net::Ipv6Addr` reads it: eight groups of
/// hexadecimal digits, of which `::` may stand for some (RFC 4291, section 2.2).
#[derive(Clone, Copy, Debug)]
pub struct Ipv6;

impl TextType for Ipv6 {
    type Value = Ipv6Addr;

    ghost KIND = { Quoted wanted.Ipv6 };

    const KIND: TextKind<Ipv6Addr> = TextKind::Quoted(Wanted::Ipv6);

    ghost parsed = { λ text. ipv6_of text };

    fn read(text: &str) -> Option<Ipv6Addr> {
        text.parse::<Ipv6Addr>().ok()
    }
}

/// A text that writes an IP address of either version, as `std::net::IpAddr` reads it. Of another text
/// with a colon it says that it is no IPv6 address, and of one without that it is no IPv4 address.
#[derive(Clone, Copy, Debug)]
pub struct Ip;

// Whether a text has a colon.
fn has_colon(text: &[u8]) -> bool
    ensures { result ≡ has_colon text.now }
{
    for &byte in text {
        if byte == b':' {
            return true;
        }
    }
    false
}

// What is wanted in place of a text.
fn ip_wanted(text: &str) -> Wanted
    ensures { result ≡ ip_wanted text.now }
{
    if has_colon(text.as_bytes()) {
        Wanted::Ipv6
    } else {
        Wanted::Ipv4
    }
}

impl Parse for Ip {
    type Value = IpAddr;

    ghost bare = { λ _. false };

    ghost parsed = { λ _ text. ip_of text };

    ghost message = { λ _ texts text. texts (Wrong (ip_wanted text) kinds.Text) };

    ghost nearest = { λ _ _. None };

    fn parse(&self, text: &str) -> Option<IpAddr> {
        match Ipv4::read(text) {
            Some(address) => Some(IpAddr::V4(address)),
            None => match Ipv6::read(text) {
                Some(address) => Some(IpAddr::V6(address)),
                None => None,
            },
        }
    }

    fn is_bare(&self) -> bool {
        false
    }

    fn message<H: FormI18n>(
        &self,
        alloc: Global,
        text: &str,
        h: &H,
    ) -> Result<CowStr<'static>, AllocError> {
        h.form_fault(alloc, FormFault::Wrong(ip_wanted(text), Kind::Text))
    }

    fn nearest(&self, _text: &str) -> Option<IpAddr> {
        None
    }
}
