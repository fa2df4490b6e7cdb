use dns_name::{Label, Name, NameRef};

// The labels of a name.
type Labels<'a> = &'a [&'a [u8]];

const WWW: Labels<'static> = &[b"www", b"example"];

const CAPITALS: Labels<'static> = &[b"WWW", b"Example"];

const EXAMPLE: Labels<'static> = &[b"example"];

// Labels that fill 255 octets on the wire.
const LONGEST: Labels<'static> = &[&[b'a'; 63], &[b'b'; 63], &[b'c'; 63], &[b'd'; 61]];

// Adds labels next to the root. Returns false if one of them is no label or does not fit.
fn push_all(name: &mut Name, labels: Labels<'_>) -> bool {
    let mut fit = true;
    for octets in labels {
        match Label::new(*octets) {
            Some(label) => fit &= name.push(label),
            None => fit = false,
        }
    }
    fit
}

fn has_labels(name: &NameRef<'_>, wanted: Labels<'_>) -> bool {
    let mut labels = name.labels();
    for octets in wanted {
        let label = labels.next();
        if label.map(|label| label.octets()) != Some(*octets) {
            return false;
        }
    }
    labels.next().is_none() && name.labels().count() == wanted.len()
}

// Labels, the octets of their name on the wire (RFC 1035 3.1), and whether the name is a wildcard.
const PUSHED: &[(Labels<'static>, &[u8], bool)] = &[
    (&[], b"\0", false),
    (WWW, b"\x03www\x07example\0", false),
    (&[b"*", b"example"], b"\x01*\x07example\0", true),
    (&[b"a", b"*", b"example"], b"\x01a\x01*\x07example\0", false),
    (&[b"**", b"example"], b"\x02**\x07example\0", false),
];

// Whether the name of these labels, also borrowed, has these octets and is a wildcard as wanted.
fn is_pushed(labels: Labels<'_>, octets: &[u8], is_wildcard: bool) -> bool {
    let mut name = Name::root();
    let fit = push_all(&mut name, labels);
    let borrowed = name.borrowed();
    fit && name.octets() == octets
        && borrowed.octets() == octets
        && borrowed.is_wildcard() == is_wildcard
        && has_labels(&borrowed, labels)
        && name.labels().count() == labels.len()
}

#[test]
fn pushed_labels(rt: HostRuntime) {
    for &(labels, octets, is_wildcard) in PUSHED {
        assert!(rt; is_pushed(labels, octets, is_wildcard), "of {labels:?}");
    }
}

#[test]
fn longest_name(rt: HostRuntime) {
    let mut name = Name::root();
    assert!(rt; push_all(&mut name, LONGEST));
    assert!(rt; name.octets().len() == 255);
    assert!(rt; !push_all(&mut name, &[b"e"]));
    assert!(rt; has_labels(&name.borrowed(), LONGEST));
}

// Two names; whether they are equal; the same in any case; and the first at or below the second.
// `@` and `[` are next to A to Z, and differ from `` ` `` and `{` by the same bit as letters of
// different case. The octets of `a.` are the last ones of the label `x\001a`, but do not begin at a
// label.
const PAIRS: &[(Labels<'static>, Labels<'static>, [bool; 3])] = &[
    (WWW, WWW, [true, true, true]),
    (CAPITALS, WWW, [false, true, true]),
    (WWW, CAPITALS, [false, true, true]),
    (WWW, EXAMPLE, [false, false, true]),
    (WWW, &[b"EXAMPLE"], [false, false, true]),
    (WWW, &[], [false, false, true]),
    (EXAMPLE, WWW, [false, false, false]),
    (&[b"x\x01a"], &[b"a"], [false, false, false]),
    (&[b"@["], &[b"`{"], [false, false, false]),
];

// Whether comparing two names gives the wanted results, also when they are borrowed.
fn compare(first: Labels<'_>, second: Labels<'_>, wanted: [bool; 3]) -> bool {
    let (mut a, mut b) = (Name::root(), Name::root());
    let fit = push_all(&mut a, first) && push_all(&mut b, second);
    let (c, d) = (a.borrowed(), b.borrowed());
    fit && [a == b, a.same(&b), a.at_or_below(&b)] == wanted
        && [c == d, c.same(&d), c.at_or_below(&d)] == wanted
}

#[test]
fn compared_names(rt: HostRuntime) {
    for &(first, second, wanted) in PAIRS {
        assert!(rt; compare(first, second, wanted), "{first:?} and {second:?}");
    }
}

// Whether a name is equal to each copy of it.
fn is_copied(name: &Name) -> bool {
    let is_cloned = name.clone().map_or(false, |copy| *name == copy);
    is_cloned && *name == name.copied() && *name == name.borrowed().to_name()
}

#[test]
fn copies(rt: HostRuntime) {
    let mut name = Name::root();
    assert!(rt; push_all(&mut name, CAPITALS) && is_copied(&name));
    assert!(rt; has_labels(&name.fold().borrowed(), WWW));
    name.fold_in_place();
    assert!(rt; has_labels(&name.borrowed(), WWW));
}

#[test]
fn label_lengths(rt: HostRuntime) {
    assert!(rt; Label::new(b"").is_none());
    assert!(rt; Label::new(&[b'x'; 1]).is_some());
    assert!(rt; Label::new(&[b'x'; 63]).is_some());
    assert!(rt; Label::new(&[b'x'; 64]).is_none());
}
