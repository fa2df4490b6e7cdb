//! Faults of tokens, of which the first is reported, and of entries, of which the lowest code is.

use super::reading::{by, fault, fault_of, is_fault};
use dns_name::Tally;
use dns_samples_tests::SMALL;
use std::alloc::Global;
use std::test::Fail;

// A fault as code and line, `0:0` if there is none; and the files that have it, each after `|`.
const FILES: &[&[u8]] = &[
    // `R01`: invalid octets.
    b"1:1|\0|a\x7f|\x80|\xff|\x0b|a\rb|\r|\r\r\n|\"a\rb\"|\"\r|\"a\0|\"a\x7f\"",
    b"1:2|; \0\r\n\0",
    b"0:0|; \0\xff\r\x7f",
    // `R02`: backslashes that begin no escape.
    b"2:1|\\|\\\n|\\\r\n|\\\t|\\\x7f|\\\x80|\\2|\\25|\\25a|\\256|\\999|\\1 0|\"\\256\"|\"a\\\n\"",
    b"2:1|\"a\\",
    // `R03`: strings without a closing quotation mark.
    b"3:1|\"|\"a\nb\"|\"a\r\nb\"|\"\\\"|(\"",
    b"3:3|\n\n(\n\"a\n\")",
    // `R04`: parentheses that do not match.
    b"4:1|(|)|(()|())|( ; )|( \\)|( \")\"|v 60 TXT a)|v 60 TXT ((a))|v 60 TXT (a) (b",
    b"4:2|\n(\n\n|( )\n)",
    b"0:0|(;(\n)()\n",
    // Files with several faults, of which the leftmost is reported.
    b"1:1|\0 \\256|( \0|\" \0|$X (\n\n\0)",
    b"2:1|\\256 \0|\" \\256|( \\256|a..b \\",
    b"4:1|) \0|(( \0|$X )",
    b"3:1|\" \n\0| A 192.0.2.1 \"",
    b"5:1|$X \n\0",
    b"5:2|\n$X (\n)\n\0",
    b"11:1|a (\n)\n\n\0",
    // `R05` and `R06`: directives.
    b"5:1|$|$X|$INCLUDE x|$GENERATE 1-2 a A 1|$TTLS 5|$TT 5|$\\084TL 5",
    b"5:3|\n\n$ORIGINS .",
    b"6:1|$TTL 2147483648|$TTL 99999999999999999999|$TTL 1h|$TTL 1 2|$TTL \"1\"|$TTL -1|$TTL +1",
    b"6:1|$TTL 00|$TTL \\049|$TTL ; 1|($TTL\n5 6)|$ORIGIN|$ORIGIN a b|$ORIGIN \"a\"|$ORIGIN a..b",
    b"6:1|$ORIGIN ..|$ORIGIN .a",
    b"8:1| $TTL 5|\t$X",
    b"11:1|\\$TTL 5",
    b"7:1|\"$TTL\" 5",
    b"0:0|$ttl 5\n$Ttl 6\n$TTL 0|$TTL 2147483647|($TTL 5)|$origin a\n$ORIGIN @\n$Origin .",
    // `R07` and `R08`: owners.
    b"7:1|a..b 1 A 192.0.2.1|.a 1 A 192.0.2.1|\"\" 1 A 192.0.2.1|\"a\" X",
    b"8:2|$ORIGIN a\n A 192.0.2.1",
    b"8:3|$TTL 1\n\n\tA 192.0.2.1",
    b"8:1| 2147483648 CH X",
    b"3:1| \"a",
    // `R09`: TTLs.
    b"9:1|a 2147483648 A 192.0.2.1|a 01 A 192.0.2.1|a 00 A 192.0.2.1|a 1h A 192.0.2.1",
    b"9:1|a 1\\050 A 192.0.2.1|a IN 1x A 192.0.2.1|a 99999999999999999999 A 192.0.2.1|a CH 01 X",
    b"9:1|a 01",
    b"9:2|a 1 A 192.0.2.1\n 1x A 192.0.2.1",
    b"0:0|\n ;\na 0 A 192.0.2.1\n A 192.0.2.2|a 2147483647 A 192.0.2.1",
    // `R10`: classes.
    b"10:1|a 1 CH A 192.0.2.1|a cs 1 A 192.0.2.1|a hS A 192.0.2.1|a 1 CLASS2 A 192.0.2.1",
    b"10:1|a 1 CLASS A 192.0.2.1|a 1 CLASS01 A 192.0.2.1|a 1 CLASS10 A 192.0.2.1",
    b"10:1|a 1 CLASS1\\  A 192.0.2.1|a 1 classy A 192.0.2.1|a CH|a CH CH|a CH A x",
    b"0:0|a 1 class1 A 192.0.2.1|a ClAsS1 1 A 192.0.2.1|a 1 iN A 192.0.2.1|IN IN 1 A 192.0.2.1",
    b"0:0|1 1 A 192.0.2.1",
    // `R11`: types.
    b"11:1|a|a 1|a IN|a 1 IN|a X|a IN IN A 192.0.2.1|a 1 IN CH A 192.0.2.1|a 1 2 A 192.0.2.1",
    b"11:1|a 1 IN 2 A 192.0.2.1|a IN 1 CLASS1 A 192.0.2.1|a 1 CLAS A 192.0.2.1",
    b"11:1|a 1 \"IN\" A 192.0.2.1|a \"1\" A 192.0.2.1|a 1 \\IN A 192.0.2.1|a \\049 A 192.0.2.1",
    b"11:1|a 1 \"A\" 192.0.2.1|a 1 \\A 192.0.2.1|a 1 DNAME b|a 1 ANY \\# 0|a 1 TYPE \\# 0",
    b"11:1|a 1 TYPE01 192.0.2.1|a 1 TYPE65536 \\# 0|a 1 TYPE0 \\# 0|a 1 TYPE39 \\# 0",
    b"11:1|a 1 TYPE41 \\# 0|a 1 TYPE43 \\# 0|a 1 TYPE46 \\# 0|a 1 TYPE47 \\# 0|a 1 TYPE48 \\# 0",
    b"11:1|a 1 TYPE50 \\# 0|a 1 TYPE51 \\# 0|a 1 TYPE128 \\# 0|a 1 TYPE255 \\# 0",
    b"0:0|a 1 type1 192.0.2.1|a 1 TYPE40 \\# 0|a 1 TYPE42 \\# 0|a 1 TYPE49 \\# 0|a 1 TYPE52 \\# 0",
    b"0:0|a 1 TYPE127 \\# 0|a 1 TYPE256 \\# 0|a 1 TYPE65535 \\# 0",
    // `R12`: missing TTLs.
    b"12:1|a A 192.0.2.1|a IN A 192.0.2.1|a A x|a TYPE65280",
    b"0:0|$TTL 5\na A 192.0.2.1|a 5 A 192.0.2.1\nb A 192.0.2.1",
    // `R13`: data.
    b"13:1|a 1 A|a 1 A 192.0.2.1 x|a 1 A \"192.0.2.1\"|a 1 A 192.0.2.01|a 1 TXT|a 1 MX mail",
    b"13:1|a 1 MX 65536 mail|a 1 NS \"x\"|a 1 NS a..b|a 1 TYPE65280 x|a 1 TYPE65280",
    b"13:1|a 1 A \\# 3 000000|a 1 A \"\\#\" 4 00000000",
    b"0:0|a 1 A \\# 4 000000 00|a 1 TXT \\# 1 00|a 1 TXT \"\\#\" x",
    // Small files, each with one fault or none.
    b"8:1| A 192.0.2.1",
    b"6:1|$TTL|$TTL 010",
    b"7:1|\"www\" 60 A 192.0.2.1",
    b"9:1|www 2147483648 A 192.0.2.1",
    b"10:1|www 60 CH A 192.0.2.1",
    b"11:1|www 60 60 A 192.0.2.1",
    b"13:1|www 60 A 192.0.2.256",
    b"3:1|www 60 TXT \"a\n|$INCLUDE \"x",
    b"2:1|www 60 TXT a\\\n",
    b"1:1|www 60 A \0",
    b"4:5|a 60 A 192.0.2.1\n\nb A ( 192.0.2.1\n)\n  TXT ( \"a\"\n",
    b"12:1|a A 1",
    b"0:0||a 1 A 192.0.2.1 ; (\r\n\tNS @\n",
];

// Whether a file has this fault, also when each octet is a piece of its own.
fn has_fault(alloc: Global, file: &[u8], wanted: &[u8]) -> bool {
    is_fault(alloc, fault(alloc, file), wanted)
        && is_fault(alloc, fault_of(alloc, &mut Tally::new(by(file, 1))), wanted)
}

#[test]
fn faults_of_small_files(rt: HostRuntime) {
    for row in FILES {
        let mut files = row.split(|octet| *octet == b'|');
        let wanted = files.next().unwrap_or(&[]);
        for file in files {
            let holds = has_fault(rt.alloc(), file, wanted);
            assert!(rt; holds, "{wanted:?} of {file:?}");
        }
    }
}

// A text in the file of the small zone; another text in its place; and the fault.
const CHANGED: &[(&str, &str, (u8, u32))] = &[
    ("*.w TXT", "*.w TEXT", (11, 7)),
    ("\nns A", "\nns 1h A", (9, 4)),
    ("$TTL 3600\n", "", (12, 1)),
    (".53\n", ".53\nv TXT ( \"a\"", (4, 11)),
];

#[test]
fn faults_of_a_changed_zone(rt: HostRuntime) -> Result<(), Fail> {
    assert!(rt; fault(rt.alloc(), SMALL.as_bytes()) == (0, 0));
    for &(text, other, wanted) in CHANGED {
        let changed = SMALL.replacen(rt.alloc(), text, other, 1)?;
        let found = fault(rt.alloc(), changed.as_bytes());
        assert!(rt; found == wanted, "with {other}");
    }
    Ok(())
}
