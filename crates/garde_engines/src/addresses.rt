//! Texts of IP addresses.
ghost use Rattle.std.specs.Prelude.{◌≡◌, ◌↔◌, IsTrue};
ghost use Rattle.garde_engines.specs.Ip.{IsIp};
ghost use Rattle.garde_engines.specs.IpText.{is_ip_text};

mod v4;
mod v6;

use garde_i18n::IpKind;
pub use v4::is_ipv4;
pub use v6::is_ipv6;

/// Whether the text is an IP address of the kind.
pub fn is_ip(text: &str, kind: IpKind) -> bool
    ensures grammar { IsTrue result ↔ IsIp kind text.now }
    ensures value { result ≡ is_ip_text kind text.now }
{
    match kind {
        IpKind::Any => is_ipv4(text) || is_ipv6(text),
        IpKind::V4 => is_ipv4(text),
        IpKind::V6 => is_ipv6(text),
    }
}
