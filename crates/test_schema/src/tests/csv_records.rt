//! Records of small lists in CSV.

use csv::StringRecord;
use garde_csv::{Fault, Next, Records};

#[test]
fn reads_rows_and_faults(rt: HostRuntime) {
    let list = b"\xef\xbb\xbfa,\"b \"\"c\"\"\"\r\n\n\"x\"y,z\nq\"r\n1,\"2\n3";
    let wanted = [
        (Next::Row, 1),
        (Next::Faulty(Fault::TextBehindQuote { line: 3 }), 3),
        (Next::Faulty(Fault::QuoteInside { line: 4 }), 4),
        (Next::Faulty(Fault::OpenQuote { line: 5 }), 5),
        (Next::End, 5),
    ];
    let mut records = Records::new(rt.alloc(), &list[..]).expect(&rt, "memory");
    let mut cells = StringRecord::new(rt.alloc());
    for (next, line) in wanted {
        let met = records.read(&mut cells).expect(&rt, "memory");
        assert!(rt;
            met == next
                && records.line() == line
                && (next != Next::Row || cells.get(1) == Some("b \"c\""))
        );
    }
}
