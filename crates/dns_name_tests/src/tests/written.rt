use dns_name::{Name, SinkFailed, Tally, TextBuffer};
use dns_samples_tests::Kept;
use std::alloc::Global;
use std::cmp::Ordering;
use std::test::Fail;

// The names of RFC 4034 6.1 in their order, after the root.
const IN_ORDER: &[&[u8]] = &[
    b".",
    b"example.",
    b"a.example.",
    b"yljkjljk.a.example.",
    b"Z.a.example.",
    b"zABC.a.EXAMPLE.",
    b"z.example.",
    b"\\001.z.example.",
    b"*.z.example.",
    b"\\200.z.example.",
];

// The name that a word spells. An invalid word gives the root, which only the rows of `.` expect.
fn read(word: &[u8]) -> Name {
    Name::read_text(word, &Name::root()).unwrap_or_default()
}

fn is_ordered(first: &[u8], second: &[u8], wanted: Ordering) -> bool {
    read(first).order(&read(second)) == wanted
}

#[test]
fn canonical_order(rt: HostRuntime) {
    for (i, first) in IN_ORDER.iter().enumerate() {
        for (j, second) in IN_ORDER.iter().enumerate() {
            let is_ordered = is_ordered(*first, *second, i.cmp(&j));
            assert!(rt; is_ordered, "at {first:?} and {second:?}");
        }
    }
    assert!(rt; is_ordered(b"z.a.example.", b"Z.A.Example.", Ordering::Equal));
}

// Whether the name of a word is written as a text, and also without the final dot unless it is the
// root.
fn is_written(alloc: Global, word: &[u8], text: &[u8]) -> bool {
    let name = read(word);
    let mut sink = Tally::new(Vec::new(alloc));
    let mut buffer = TextBuffer::new();
    name.append_bare_text(&mut buffer);
    let bare = match text {
        [bare @ .., b'.'] if !bare.is_empty() => bare,
        _ => text,
    };
    name.write_text(&mut sink).is_ok()
        && sink.into_inner().as_slice() == text
        && buffer.octets() == bare
}

// The word to read, and what is written for its name.
const WRITTEN: &[(&[u8], &[u8])] = &[
    (b".", b"."),
    (b"org.", b"org."),
    (b"WwW.Example", b"WwW.Example."),
    (b"a.b\\..", b"a.b\\.."),
    (b"\\@", b"\\@."),
    (b"a\\.b.\\;\\(\\)\\$", b"a\\.b.\\;\\(\\)\\$."),
    (b"\\\"\\\\.\\032\\127", b"\\\"\\\\.\\032\\127."),
    (b"\\000\\255.\\~\\!\\'", b"\\000\\255.~!'."),
];

#[test]
fn names_written(rt: HostRuntime) {
    for &(word, text) in WRITTEN {
        assert!(rt; is_written(rt.alloc(), word, text), "at {word:?}");
    }
}

// Whether `ns.example.` is written by four calls, of three octets each but the last, and only the
// octets of the calls before it are written if one of the four fails.
fn is_written_in_four(alloc: Global, text: &[u8], calls: u32) -> bool {
    let mut sink = Tally::new(Kept::new(alloc, 3, calls));
    let (fails, has_failed) = (calls < 4, read(text).write_text(&mut sink).is_err());
    let failures = sink.failures();
    let device = sink.into_inner();
    let end = text.len().min(3 * calls as usize);
    (has_failed, failures, device.calls.has_failed()) == (fails, u64::from(fails), fails)
        && device.text.as_slice() == &text[..end]
}

#[test]
fn each_write_of_a_name_fails(rt: HostRuntime) {
    for calls in 0..5 {
        let holds = is_written_in_four(rt.alloc(), b"ns.example.", calls);
        assert!(rt; holds, "{calls} calls");
    }
}

const PUT: &[(&[u8], &[u8])] = &[
    (b"", b"b"),
    (&[b'a'; 4095], b"b"),
    (&[b'a'; 4096], b"b"),
    (b"a", &[b'b'; 4096]),
    (&[b'a'; 5000], &[b'b'; 5000]),
];

fn put(alloc: Global, first: &[u8], second: &[u8]) -> Result<Vec<u8>, SinkFailed> {
    let mut sink = Tally::new(Vec::new(alloc));
    let mut text = TextBuffer::new();
    text.put(first, &mut sink)?;
    text.put(second, &mut sink)?;
    text.finish(&mut sink)?;
    Ok(sink.into_inner())
}

#[test]
fn texts_of_any_length_are_put(rt: HostRuntime) -> Result<(), Fail> {
    for &(first, second) in PUT {
        let written = put(rt.alloc(), first, second)?;
        assert!(rt; written.len() == first.len() + second.len());
        assert!(rt; written.starts_with(first) && written.ends_with(second));
    }
    Ok(())
}
