//! Tests of IP addresses, on a table of texts.
use crate::tests::{has_text, shows};
use garde_rules::ip::{Ip, IpKind, is_ipv4, is_ipv6};
use std::alloc::Global;
use std::process::Abort;

// The texts of the tables below are made from the text forms and the examples of RFC 4291, sections
// 2.2 and 2.3: every place of `::`, with an IPv4 address at the end and without, groups of 1 to 5
// digits, either case; and from what RFC 6943, sections 3.1.1 and 3.1.2, says of forms that other
// programs take: leading zeros, octal and hexadecimal parts, missing parts, zones and brackets.

/// Addresses of version 4.
static V4: [&str; 16] = [
    "0.0.0.0",
    "255.255.255.255",
    "10.0.0.1",
    "192.0.2.1",
    "127.0.0.1",
    "1.2.3.4",
    "9.10.99.100",
    "199.200.249.250",
    "13.1.68.3",
    "129.144.52.38",
    "100.101.102.103",
    "0.0.0.1",
    "1.0.0.0",
    "255.0.0.255",
    "198.51.100.254",
    "203.0.113.9",
];

/// Texts near those of version 4, none of them an address.
static NEAR_V4: [&str; 57] = [
    "",
    ".",
    "...",
    "1",
    "1.2",
    "1.2.3",
    "1.2.3.4.5",
    "1.2.3.",
    ".1.2.3",
    "1..2.3",
    "1.2..3",
    "1.2.3..4",
    ".1.2.3.4",
    "1.2.3.4.",
    "256.1.1.1",
    "1.256.1.1",
    "1.1.256.1",
    "1.1.1.256",
    "1.1.1.999",
    "1000.1.1.1",
    "1.1.1.1000",
    "01.2.3.4",
    "1.02.3.4",
    "1.2.03.4",
    "1.2.3.04",
    "00.0.0.0",
    "0.0.0.00",
    "001.2.3.4",
    "1.2.3.010",
    "1.2.3.0377",
    "0300.0.2.1",
    "0x1.2.3.4",
    "1.2.3.0x4",
    "0x7f000001",
    "2130706433",
    "127.1",
    "127.0.1",
    " 1.2.3.4",
    "1.2.3.4 ",
    "1. 2.3.4",
    "+1.2.3.4",
    "-1.2.3.4",
    "1.2.3.-4",
    "1,2,3,4",
    "1.2.3.4/24",
    "1.2.3.4:80",
    "[1.2.3.4]",
    "1.2.3.4%0",
    "1.2.3.a",
    "a.b.c.d",
    "1.2.3.4a",
    "1.2.3.4\n",
    "\t1.2.3.4",
    "1.2.3.4\0",
    "\u{FF11}.2.3.4",
    "1.2.3.\u{664}",
    "1\u{3002}2\u{3002}3\u{3002}4",
];

/// Addresses of version 6.
static V6: [&str; 83] = [
    "ABCD:EF01:2345:6789:ABCD:EF01:2345:6789",
    "2001:DB8:0:0:8:800:200C:417A",
    "2001:DB8::8:800:200C:417A",
    "FF01:0:0:0:0:0:0:101",
    "FF01::101",
    "0:0:0:0:0:0:0:1",
    "::1",
    "0:0:0:0:0:0:0:0",
    "0:0:0:0:0:0:13.1.68.3",
    "0:0:0:0:0:FFFF:129.144.52.38",
    "::13.1.68.3",
    "::FFFF:129.144.52.38",
    "0000:0000:0000:0000:0000:0000:0000:0000",
    "0001:0002:0003:0004:0005:0006:0007:0008",
    "::0000",
    "0::0",
    "00:000::0000:0",
    "::fffF:127.0.0.1",
    "abcd:EF01::aBcD",
    "2001:db8::1",
    "fe80::1",
    "1:2:3:4:5:6:255.255.255.255",
    "::",
    "::1:2",
    "::1:2:3",
    "::1:2:3:4",
    "::1:2:3:4:5",
    "::1:2:3:4:5:6",
    "::1:2:3:4:5:6:7",
    "1::",
    "1::2",
    "1::2:3",
    "1::2:3:4",
    "1::2:3:4:5",
    "1::2:3:4:5:6",
    "1::2:3:4:5:6:7",
    "1:2::",
    "1:2::3",
    "1:2::3:4",
    "1:2::3:4:5",
    "1:2::3:4:5:6",
    "1:2::3:4:5:6:7",
    "1:2:3::",
    "1:2:3::4",
    "1:2:3::4:5",
    "1:2:3::4:5:6",
    "1:2:3::4:5:6:7",
    "1:2:3:4::",
    "1:2:3:4::5",
    "1:2:3:4::5:6",
    "1:2:3:4::5:6:7",
    "1:2:3:4:5::",
    "1:2:3:4:5::6",
    "1:2:3:4:5::6:7",
    "1:2:3:4:5:6::",
    "1:2:3:4:5:6::7",
    "1:2:3:4:5:6:7::",
    "::9.8.7.6",
    "::1:9.8.7.6",
    "::1:2:9.8.7.6",
    "::1:2:3:9.8.7.6",
    "::1:2:3:4:9.8.7.6",
    "::1:2:3:4:5:9.8.7.6",
    "1::9.8.7.6",
    "1::2:9.8.7.6",
    "1::2:3:9.8.7.6",
    "1::2:3:4:9.8.7.6",
    "1::2:3:4:5:9.8.7.6",
    "1:2::9.8.7.6",
    "1:2::3:9.8.7.6",
    "1:2::3:4:9.8.7.6",
    "1:2::3:4:5:9.8.7.6",
    "1:2:3::9.8.7.6",
    "1:2:3::4:9.8.7.6",
    "1:2:3::4:5:9.8.7.6",
    "1:2:3:4::9.8.7.6",
    "1:2:3:4::5:9.8.7.6",
    "1:2:3:4:5::9.8.7.6",
    "1:2:3:4:5:6:7:8",
    "1:2:3:4:5:6:1.2.3.4",
    "::1.2.3.4",
    "::2:3:4:5:6:7:8",
    "1:2:3:4:5::1.2.3.4",
];

/// Texts near those of version 6, none of them an address.
static NEAR_V6: [&str; 97] = [
    "::1:2:3:4:5:6:7:8",
    "1::2:3:4:5:6:7:8",
    "1:2::3:4:5:6:7:8",
    "1:2:3::4:5:6:7:8",
    "1:2:3:4::5:6:7:8",
    "1:2:3:4:5::6:7:8",
    "1:2:3:4:5:6::7:8",
    "1:2:3:4:5:6:7::8",
    "1:2:3:4:5:6:7:8::",
    "::1:2:3:4:5:6:9.8.7.6",
    "1::2:3:4:5:6:9.8.7.6",
    "1:2::3:4:5:6:9.8.7.6",
    "1:2:3::4:5:6:9.8.7.6",
    "1:2:3:4::5:6:9.8.7.6",
    "1:2:3:4:5::6:9.8.7.6",
    "1:2:3:4:5:6::9.8.7.6",
    "9.8.7.6:1:2:3:4:5:6",
    "1:9.8.7.6:2:3:4:5:6",
    "1:2:9.8.7.6:3:4:5:6",
    "1:2:3:9.8.7.6:4:5:6",
    "1:2:3:4:9.8.7.6:5:6",
    "1:2:3:4:5:9.8.7.6:6",
    "1:2:3:4:5:9.8.7.6",
    "1:2:3:4:5:6:7:9.8.7.6",
    "9.8.7.6::",
    "9.8.7.6::1",
    "1::9.8.7.6:2",
    "9.8.7.6::9.8.7.6",
    "::9.8.7.6:5.4.3.2",
    "1:2",
    "1:2:3:4:5:6:7",
    "1:2:3:4:5:6:7:8:9",
    "2001:db8:0:0:0:0:1",
    ":",
    ":::",
    "::::",
    ":1",
    "1:",
    ":1:2:3:4:5:6:7:8",
    "1:2:3:4:5:6:7:8:",
    "1:2:3:4:5:6:7:",
    ":1:2:3:4:5:6:7",
    "1::2::3",
    "::1::",
    "1:::2",
    ":1::2",
    "1::2:",
    ":::1",
    "1:::",
    "12345::",
    "::00001",
    "2001:db8::12345",
    "1:2:3:4:5:6:7:12345",
    "::g",
    "g::",
    "::1g",
    "1:2:3:4:5:6:7:G",
    "::0x1",
    "::+1",
    "::-1",
    " ::1",
    "::1 ",
    ":: 1",
    "::1\n",
    "::\u{FF11}",
    "::1%0",
    "fe80::1%eth0",
    "fe80::1%",
    "fe80::1%25en0",
    "::ffff:9.8.7.6%1",
    "[::1]",
    "[::]",
    "[::1",
    "::1]",
    "[::1]:80",
    "2001:0DB8:0000:CD30:0000:0000:0000:0000/60",
    "2001:0DB8::CD30:0:0:0:0/60",
    "2001:0DB8:0:CD3/60",
    "::1.2.3",
    "::1.2.3.256",
    "::01.2.3.4",
    "::1.2.3.04",
    "::1.2.3.4.5",
    "::1.2..3",
    "::.1.2.3",
    "::1.2.3.",
    "::1.2.3.4/96",
    "::1.2.3.a",
    "::ffff:1.2.3.4:",
    "::ffff::1.2.3.4",
    ":1.2.3.4",
    "1.2.3.4:",
    "::0x1.2.3.4",
    "::1.2.3.0xa",
    "1:2:3:4:5:6:7:1.2.3.4",
    "1:2:3:4:5:6::1.2.3.4",
    "1.2.3.4::",
];

/// Asserts that each of these texts is an address of this version alone, or none where the version is `-`.
fn assert_version(rt: &impl Abort, texts: &[&str], version: char) {
    for text in texts {
        assert!(rt;
            is_ipv4(text) == (version == '4') && is_ipv6(text) == (version == '6'),
            "{text}"
        );
    }
}

#[test]
fn tells_addresses_by_their_version(rt: HostRuntime) {
    assert_version(&rt, &V4, '4');
    assert_version(&rt, &NEAR_V4, '-');
    assert_version(&rt, &V6, '6');
    assert_version(&rt, &NEAR_V6, '-');
}

/// The kind that is asked for, a text, and what the error prints and shows.
type Row = (IpKind, &'static str, &'static str, &'static str);

const NO_IP: &str = "invalid IP address syntax";

const NO_IPV4: &str = "invalid IPv4 address syntax";

const NO_IPV6: &str = "invalid IPv6 address syntax";

static REFUSED: [Row; 8] = [
    (IpKind::Any, "1.2.3", NO_IP, "AddrParseError(IP)"),
    (IpKind::V4, "1.2.3", NO_IPV4, "AddrParseError(IPv4)"),
    (IpKind::V6, "1.2.3", NO_IPV6, "AddrParseError(IPv6)"),
    (IpKind::Any, "zzz", NO_IP, "AddrParseError(IP)"),
    (IpKind::V4, "zzz", NO_IPV4, "AddrParseError(IPv4)"),
    (IpKind::V6, "zzz", NO_IPV6, "AddrParseError(IPv6)"),
    (IpKind::V4, "::", NO_IPV4, "AddrParseError(IPv4)"),
    (IpKind::V6, "0.0.0.0", NO_IPV6, "AddrParseError(IPv6)"),
];

/// Whether a value with the text of a row is rejected, and the error prints what the row says.
fn prints<T: Ip>(rt: &impl Abort, alloc: Global, value: &T, row: &Row) -> bool {
    match value.validate_ip(row.0) {
        Ok(()) => false,
        Err(refusal) => has_text(rt, alloc, &refusal, row.2),
    }
}

#[test]
fn prints_the_kind_that_was_asked_for(rt: HostRuntime) {
    let alloc = rt.alloc();
    for row in &REFUSED {
        let is_shown = match row.1.validate_ip(row.0) {
            Ok(()) => false,
            Err(refusal) => shows(&rt, alloc, &refusal, row.3),
        };
        assert!(rt;
            is_shown
                && prints(&rt, alloc, &row.1, row)
                && prints(&rt, alloc, &Some(Some(row.1)), row),
            "{}: {}",
            row.1,
            row.2
        );
    }
}
