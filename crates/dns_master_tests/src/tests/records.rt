//! The records of files.

use super::reading::{by, example};
use dns_master::{Record, read_zone};
use dns_name::Tally;
use dns_samples_tests::MIXED;
use std::alloc::{AllocError, Global};
use std::io::Read;

pub(super) const MIXED_MEANS: &[u8] =
    b"\x07example\0 60 6 \x02ns\x07example\0\x01h\x07example\0\0\0\0\x01\0\0\0\x02\
    \0\0\0\x03\0\0\0\x04\0\0\0\x05\n\
    \x07example\0 60 2 \x02ns\x07example\0\n\
    \x02ns\x07example\0 60 1 \xc0\0\x02\x01\n\
    \x02ns\x07example\0 60 28 \x20\x01\x0d\xb8\0\0\0\0\0\x01\0\0\0\0\0\x01\n\
    \x03a.b\x04deep\x07example\0 7 16 \x02hi\x03x;y\n\
    \x03a.b\x04deep\x07example\0 9 65280 \xab\xcd\xef\n";

// A file; and its records, each as its owner, TTL, type and data, with spaces between them, and a
// newline.
const FILES: &[(&[u8], &[u8])] = &[
    // Owners and origins.
    (b"", b""),
    (b"\n ; c\r\n\t\n( )\n(\n)", b""),
    (
        b"A.B 1 A 192.0.2.1\n A 192.0.2.2\n\n$ORIGIN x.\n\tA 192.0.2.3\n\
        y A 192.0.2.4\n A 192.0.2.5",
        b"\x01a\x01b\x07example\0 1 1 \xc0\0\x02\x01\n\
        \x01a\x01b\x07example\0 1 1 \xc0\0\x02\x02\n\
        \x01a\x01b\x07example\0 1 1 \xc0\0\x02\x03\n\
        \x01y\x01x\0 1 1 \xc0\0\x02\x04\n\
        \x01y\x01x\0 1 1 \xc0\0\x02\x05\n",
    ),
    (
        b"$ORIGIN B\n$ORIGIN a\n@ 1 NS @\n$ORIGIN @\nc NS d\n$ORIGIN .\n@ NS e\n. NS .",
        b"\x01a\x01b\x07example\0 1 2 \x01a\x01b\x07example\0\n\
        \x01c\x01a\x01b\x07example\0 1 2 \x01d\x01a\x01b\x07example\0\n\
        \0 1 2 \x01e\0\n\
        \0 1 2 \0\n",
    ),
    (
        b"(a\n1) A 192.0.2.1;x\n(\n b) 2 A(192.0.2.2)",
        b"\x01a\x07example\0 1 1 \xc0\0\x02\x01\n\
        \x01b\x07example\0 2 1 \xc0\0\x02\x02\n",
    ),
    (
        b"\\@\\\"\\000.\\$ 1 A 192.0.2.1\n\\IN 1 A 192.0.2.2\r\n*.W 1 A 192.0.2.3",
        b"\x03@\"\0\x01$\x07example\0 1 1 \xc0\0\x02\x01\n\
        \x02in\x07example\0 1 1 \xc0\0\x02\x02\n\
        \x01*\x01w\x07example\0 1 1 \xc0\0\x02\x03\n",
    ),
    (
        b"IN IN 1 A 192.0.2.1\n1 2 A 192.0.2.1\nA CLASS1 A 192.0.2.1",
        b"\x02in\x07example\0 1 1 \xc0\0\x02\x01\n\
        \x011\x07example\0 2 1 \xc0\0\x02\x01\n\
        \x01a\x07example\0 2 1 \xc0\0\x02\x01\n",
    ),
    // TTLs that are taken from earlier entries.
    (
        b"a 5 A 192.0.2.1\nb A 192.0.2.1\nc 6 IN A 192.0.2.1\n\
        d IN A 192.0.2.1\ne IN 7 A 192.0.2.1\n A 192.0.2.1",
        b"\x01a\x07example\0 5 1 \xc0\0\x02\x01\n\
        \x01b\x07example\0 5 1 \xc0\0\x02\x01\n\
        \x01c\x07example\0 6 1 \xc0\0\x02\x01\n\
        \x01d\x07example\0 6 1 \xc0\0\x02\x01\n\
        \x01e\x07example\0 7 1 \xc0\0\x02\x01\n\
        \x01e\x07example\0 7 1 \xc0\0\x02\x01\n",
    ),
    (
        b"$TTL 3\n. A 192.0.2.1\n. 5 A 192.0.2.1\n. A 192.0.2.1\n\
        $TTL 4\n. A 192.0.2.1\n. 6 A 192.0.2.1\n A 192.0.2.1",
        b"\0 3 1 \xc0\0\x02\x01\n\0 5 1 \xc0\0\x02\x01\n\0 3 1 \xc0\0\x02\x01\n\
        \0 4 1 \xc0\0\x02\x01\n\0 6 1 \xc0\0\x02\x01\n\0 4 1 \xc0\0\x02\x01\n",
    ),
    (
        b". 5 A 192.0.2.1\n$TTL 0\n. A 192.0.2.1",
        b"\0 5 1 \xc0\0\x02\x01\n\0 0 1 \xc0\0\x02\x01\n",
    ),
    (
        b". 2147483647 A 192.0.2.1",
        b"\0 2147483647 1 \xc0\0\x02\x01\n",
    ),
    // The words of data.
    (
        b". 60 TXT ( \"a)\" ; )\n\"b\" )\n",
        b"\0 60 16 \x02a)\x01b\n",
    ),
    (b". 60 TXT (a) b", b"\0 60 16 \x01a\x01b\n"),
    (
        b". 60 TXT \"a\"\"b\"c\"\"\"\\\"\\032 \"\"\t;\"\\\"",
        b"\0 60 16 \x01a\x01b\x01c\0\x03\"  \x02\t;\x01\"\n",
    ),
    (
        b". 60 Cname NS.Example.\n. 60 type5 \\# 3 014100\n. 60 TYPE15 10 MAIL",
        b"\0 60 5 \x02ns\x07example\0\n\0 60 5 \x01a\0\n\
        \0 60 15 \0\x0a\x04mail\x07example\0\n",
    ),
    (
        b"_s._tcp 60 SRV 1 2 3 .\n. 60 HINFO A \"b c\"",
        b"\x02_s\x04_tcp\x07example\0 60 33 \0\x01\0\x02\0\x03\0\n\
        \0 60 13 \x01A\x03b c\n",
    ),
];

fn put(text: &mut Vec<u8>, alloc: Global, record: &Record) -> Result<(), AllocError> {
    text.extend_from_slice(record.owner.octets())?;
    let numbers = format!(in alloc; " {} {} ", record.ttl, record.rtype.0)?;
    text.extend_from_slice(numbers.as_bytes())?;
    text.extend_from_slice(record.rdata.octets())?;
    text.extend_from_slice(b"\n")
}

/// Whether a source has these records, which are given as in `FILES`.
pub(super) fn has_records<R: Read + Drop>(alloc: Global, source: R, meant: &[u8]) -> bool {
    let Ok(records) = read_zone(alloc, &example(), &mut Tally::new(source)) else {
        return false;
    };
    let mut text = Vec::new(alloc);
    for record in &records {
        if put(&mut text, alloc, record).is_err() {
            return false;
        }
    }
    text.as_slice() == meant
}

/// Whether a file has these records, also when each octet is a piece of its own.
pub(super) fn means(alloc: Global, text: &[u8], meant: &[u8]) -> bool {
    has_records(alloc, text, meant) && has_records(alloc, by(text, 1), meant)
}

#[test]
fn files_and_their_records(rt: HostRuntime) {
    assert!(rt; means(rt.alloc(), MIXED.as_bytes(), MIXED_MEANS));
    for &(text, meant) in FILES {
        assert!(rt; means(rt.alloc(), text, meant), "of {text:?}");
    }
}
