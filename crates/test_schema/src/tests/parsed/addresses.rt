//! Addresses: the value of each text, or the whole report.

const NO_IPV4: &str = "not an IPv4 address\n";

// Four numbers of RFC 3986, section 3.2.2 (`dec-octet`), and the texts of that section that are no
// such address.
pub(super) static IPV4: [(&str, &str); 18] = [
    ("192.0.2.1", "192.0.2.1"),
    ("0.0.0.0", "0.0.0.0"),
    ("255.255.255.255", "255.255.255.255"),
    ("", NO_IPV4),
    ("192.0.2", NO_IPV4),
    ("192.0.2.1.5", NO_IPV4),
    ("192.0.2.256", NO_IPV4),
    ("192.0.2.01", NO_IPV4),
    ("192.0.2.-1", NO_IPV4),
    ("192.0.2.", NO_IPV4),
    (" 192.0.2.1", NO_IPV4),
    ("192.0.2.1 ", NO_IPV4),
    ("192.0.2.0/24", NO_IPV4),
    ("0x7f.0.0.1", NO_IPV4),
    ("127.1", NO_IPV4),
    ("\u{661}92.0.2.1", NO_IPV4),
    ("::ffff:192.0.2.1", NO_IPV4),
    ("localhost", NO_IPV4),
];

const NO_IPV6: &str = "not an IPv6 address\n";

// The texts of RFC 4291, section 2.2, each with its text by RFC 5952; and texts that are none.
pub(super) static IPV6: [(&str, &str); 27] = [
    (
        "ABCD:EF01:2345:6789:ABCD:EF01:2345:6789",
        "abcd:ef01:2345:6789:abcd:ef01:2345:6789",
    ),
    ("2001:DB8:0:0:8:800:200C:417A", "2001:db8::8:800:200c:417a"),
    ("FF01:0:0:0:0:0:0:101", "ff01::101"),
    ("0:0:0:0:0:0:0:1", "::1"),
    ("0:0:0:0:0:0:0:0", "::"),
    ("2001:DB8::8:800:200C:417A", "2001:db8::8:800:200c:417a"),
    ("FF01::101", "ff01::101"),
    ("::1", "::1"),
    ("::", "::"),
    ("0:0:0:0:0:FFFF:129.144.52.38", "::ffff:129.144.52.38"),
    ("::FFFF:129.144.52.38", "::ffff:129.144.52.38"),
    ("1:2:3:4:5:6:7::", "1:2:3:4:5:6:7:0"),
    ("", NO_IPV6),
    ("192.0.2.1", NO_IPV6),
    ("2001:DB8", NO_IPV6),
    ("1:2:3:4:5:6:7", NO_IPV6),
    ("1:2:3:4:5:6:7:8:9", NO_IPV6),
    ("1:2:3:4:5:6:7:8::", NO_IPV6),
    ("1::2::3", NO_IPV6),
    (":1:2:3:4:5:6:7", NO_IPV6),
    ("12345::", NO_IPV6),
    ("2001:DB8::G", NO_IPV6),
    ("::FFFF:129.144.52.256", NO_IPV6),
    ("2001:0DB8:0:CD30::/60", NO_IPV6),
    ("fe80::1%eth0", NO_IPV6),
    ("[::1]", NO_IPV6),
    (" ::1", NO_IPV6),
];
