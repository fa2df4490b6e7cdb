use dns_name::{Name, NameFault};
use std::alloc::{AllocError, Global};
use std::test::Fail;

const LABEL: &[u8] = &[b'x'; 63];

const OCTETS_53: &[u8] = &[b'y'; 53];

const OCTETS_54: &[u8] = &[b'y'; 54];

// The name that a word spells, or the code of its fault. A word without a final dot continues with
// `example.`
fn read(word: &[u8]) -> Result<Name, u8> {
    let origin = Name::read_text(b"example.", &Name::root()).unwrap_or_default();
    Name::read_text(word, &origin).map_err(NameFault::code)
}

// Spells a word in place and in lower case. The origin is `EXAMPLE.`, in capitals.
fn spelled(word: &[u8]) -> Result<Name, u8> {
    let origin = Name::read_text(b"EXAMPLE.", &Name::root()).unwrap_or_default();
    let mut name = Name::root();
    match name.spell(word, &origin) {
        Ok(()) => Ok(name),
        Err(fault) => Err(fault.code()),
    }
}

// Words, separated by `|`, and the octets of their name or the code of their fault. Within a label,
// a bad escape is reported before an empty or a long label; an invalid label is reported before a
// long name.
const READ: &[(&[u8], Result<&[u8], u8>)] = &[
    (b"www", Ok(b"\x03www\x07example\0")),
    (b"WwW.a", Ok(b"\x03WwW\x01a\x07example\0")),
    (b"www.", Ok(b"\x03www\0")),
    (b"@", Ok(b"\x07example\0")),
    (b".", Ok(b"\0")),
    (b"\\@", Ok(b"\x01@\x07example\0")),
    (b"a@b.", Ok(b"\x03a@b\0")),
    (b"a\\.b.", Ok(b"\x03a.b\0")),
    (b"a\\\\.", Ok(b"\x02a\\\0")),
    (b"\\000\\255.", Ok(b"\x02\0\xff\0")),
    (b"\\0656.", Ok(b"\x02A6\0")),
    (b" \x7f\xff.", Ok(b"\x03 \x7f\xff\0")),
    (b"a.\\..", Ok(b"\x01a\x01.\0")),
    (b"|..|.a|a..b|a..\\", Err(1)),
    (
        b"\\|a\\|\\1x2|\\12|\\256|\\999.|\\\x1f|\\\x7f|\\1..",
        Err(4),
    ),
];

#[test]
fn names_read(rt: HostRuntime) {
    for &(words, wanted) in READ {
        for word in words.split(|octet| *octet == b'|') {
            assert!(rt; is_read_as(word, wanted), "at {word:?}");
        }
    }
}

// Whether a word has this name or fault, and spells its name in lower case in place.
fn is_read_as(word: &[u8], wanted: Result<&[u8], u8>) -> bool {
    match (read(word), spelled(word)) {
        (Ok(name), Ok(spelled)) => {
            wanted == Ok(name.octets()) && spelled.octets() == name.fold().octets()
        }
        (Err(fault), Err(other)) => wanted == Err(fault) && other == fault,
        _ => false,
    }
}

// Three labels of 63 octets, one of 53 and `example.` fill 255 octets on the wire.
const THREE: &[&[u8]] = &[LABEL, b".", LABEL, b".", LABEL, b"."];

// What follows three labels of 63 octets, and the word's fault, or 0: a fourth label is too much.
const LAST: &[(&[&[u8]], u8)] = &[
    (&[OCTETS_53], 0),
    (&[OCTETS_54], 3),
    (&[OCTETS_54, b"."], 0),
    (&[LABEL, b"."], 3),
    (&[LABEL, b"x"], 2),
    (&[LABEL, b"\\x"], 2),
    (&[OCTETS_53, b"\\x"], 3),
    (&[LABEL, b"..a"], 1),
    (&[LABEL, b".\\"], 4),
    (&[LABEL, b"x\\"], 4),
];

fn long_word(alloc: Global, last: &[&[u8]]) -> Result<Vec<u8>, AllocError> {
    let mut word = Vec::new(alloc);
    for part in THREE.iter().chain(last) {
        word.extend_from_slice(*part)?;
    }
    Ok(word)
}

#[test]
fn long_labels_and_names(rt: HostRuntime) -> Result<(), Fail> {
    for &(last, code) in LAST {
        let word = long_word(rt.alloc(), last)?;
        assert!(rt; read(&word).err().unwrap_or(0) == code, "at {last:?}");
    }
    Ok(())
}
