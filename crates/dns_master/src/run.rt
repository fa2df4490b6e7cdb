//! Runs of octets: how far a word, a string, a blank or a comment extends (RFC 1035 5.1).
ghost use Rattle.std.specs.Prelude.{◌≡◌, ◌==◌, ◌≤◌, true, not, length, take, drop};
ghost use Rattle.std.specs.List.{list_all, list_any, prefix_len, position};
ghost use Rattle.dns_spec.specs.ZoneText.{is_blank, run_length};
ghost use Rattle.dns_spec.specs.DataText.{is_string_octet, is_word_octet};
ghost use Rattle.dns_spec.proofs.NameTexts.Escapes.{counted_escape};
ghost use Rattle.dns_master.specs.TokenForm.{by_itself};

/// A kind of run, by the octets that may appear in it unescaped.
#[derive(Clone, Copy, Debug, PartialEq, Eq)]
pub(crate) enum RunKind {
    /// The printable octets of a word, without `"`, `(`, `)`, `;` and `\`.
    Word,
    /// The printable octets, spaces and tabs of a quoted string, without `"` and `\`.
    String,
}

// The number of octets in a group, which is checked at once, because a run may be long.
const GROUP: usize = 16;

// Where each octet may appear unescaped: 2 stands for words and strings, 1 for strings only, and 0
// for neither.
const PLAIN_IN: [u8; 256] = [
    0, 0, 0, 0, 0, 0, 0, 0, 0, 1, 0, 0, 0, 0, 0, 0, 0, 0, 0, 0, 0, 0, 0, 0, 0, 0, 0, 0, 0, 0, 0, 0,
    1, 2, 0, 2, 2, 2, 2, 2, 1, 1, 2, 2, 2, 2, 2, 2, 2, 2, 2, 2, 2, 2, 2, 2, 2, 2, 2, 1, 2, 2, 2, 2,
    2, 2, 2, 2, 2, 2, 2, 2, 2, 2, 2, 2, 2, 2, 2, 2, 2, 2, 2, 2, 2, 2, 2, 2, 2, 2, 2, 2, 0, 2, 2, 2,
    2, 2, 2, 2, 2, 2, 2, 2, 2, 2, 2, 2, 2, 2, 2, 2, 2, 2, 2, 2, 2, 2, 2, 2, 2, 2, 2, 2, 2, 2, 2, 0,
    0, 0, 0, 0, 0, 0, 0, 0, 0, 0, 0, 0, 0, 0, 0, 0, 0, 0, 0, 0, 0, 0, 0, 0, 0, 0, 0, 0, 0, 0, 0, 0,
    0, 0, 0, 0, 0, 0, 0, 0, 0, 0, 0, 0, 0, 0, 0, 0, 0, 0, 0, 0, 0, 0, 0, 0, 0, 0, 0, 0, 0, 0, 0, 0,
    0, 0, 0, 0, 0, 0, 0, 0, 0, 0, 0, 0, 0, 0, 0, 0, 0, 0, 0, 0, 0, 0, 0, 0, 0, 0, 0, 0, 0, 0, 0, 0,
    0, 0, 0, 0, 0, 0, 0, 0, 0, 0, 0, 0, 0, 0, 0, 0, 0, 0, 0, 0, 0, 0, 0, 0, 0, 0, 0, 0, 0, 0, 0, 0,
];

impl RunKind {
    /// The length in octets of the run at the beginning of a text. All octets of an escape count.
    #[inline(always)]
    pub(crate) fn length(self, text: &[u8]) -> usize
        ensures value { result ≡ run_length (by_itself self) 0 text.now }
        ensures bound { result ≤ length text.now }
    {
        match self {
            RunKind::Word => {
                let front = word_front(text);
                if front < text.len() && text[front] == b'\\' {
                    self.length_from(text, front)
                } else {
                    front
                }
            }
            // Strings may be long, so groups without escapes are skipped first.
            RunKind::String => self.length_from(text, plain_front(text)),
        }
    }

    // The length of the run at the beginning of a text. Condition: the first `front` octets may
    // appear in the run unescaped.
    #[inline(never)]
    fn length_from(self, text: &[u8], front: usize) -> usize
        requires bound { front ≤ length text.now }
        requires plain { list_all (by_itself self) (take front text.now) ≡ true }
        ensures value { result ≡ run_length (by_itself self) 0 text.now }
        ensures bound { result ≤ length text.now }
    {
        let mut index = front;
        'units: while index < text.len() {
            let octet = text[index];
            if self.has(octet) {
                index += 1;
                continue;
            }
            if octet != b'\\' {
                break;
            }
            let escape = escape_length(text.split_at(index + 1).1);
            if escape == 0 {
                break;
            }
            index += 1 + escape;
        }
        index
    }

    /// Whether an octet may appear in the run unescaped.
    #[inline(always)]
    pub(crate) fn has(self, octet: u8) -> bool
        ensures { result ≡ by_itself self octet }
    {
        let least = match self {
            RunKind::Word => 2,
            RunKind::String => 1,
        };
        PLAIN_IN[octet as usize] >= least
    }
}

// The number of unescaped word octets at the front of a text.
#[inline(always)]
fn word_front(text: &[u8]) -> usize
    ensures { result ≡ prefix_len is_word_octet text.now }
{
    let mut front = 0;
    let mut rest = text;
    'groups: while let Some((group, others)) = rest.split_first_chunk::<GROUP>() {
        if let Some(index) = word_end(group) {
            return front + index;
        }
        front += GROUP;
        rest = others;
    }
    front + word_end(rest).unwrap_or(rest.len())
}

// The index of the first octet that may not appear in a word unescaped, if there is one.
#[inline(always)]
fn word_end(text: &[u8]) -> Option<usize>
    ensures { result ≡ position (λ x. not (is_word_octet x)) text.now }
{
    text.iter().position(|octet| !RunKind::Word.has(*octet))
}

// The number of octets in the groups at the front of a text, up to the first group with an octet
// that may not appear in a string unescaped. Octets after the last whole group are not counted.
fn plain_front(text: &[u8]) -> usize
    ensures bound { result ≤ length text.now }
    ensures plain { list_all is_string_octet (take result text.now) ≡ true }
{
    // A fast path: an empty string takes a seventh less time.
    if text.first() == Some(&b'"') {
        return 0;
    }
    let mut front = 0;
    let mut rest = text;
    'groups: while let Some((group, others)) = rest.split_first_chunk::<GROUP>() {
        if !are_plain(group) {
            break;
        }
        front += GROUP;
        rest = others;
    }
    front
}

// Whether a group contains only printable octets, spaces and tabs, without `"` and `\`. The loop
// does not stop early, so that a processor can check many octets at once.
fn are_plain(group: &[u8; GROUP]) -> bool
    ensures { result ≡ list_all is_string_octet group.now }
{
    let mut all = true;
    'octets: for octet in group {
        let octet = *octet;
        all &= (octet == b'\t')
            | ((octet >= b' ') & (octet <= b'~') & (octet != b'"') & (octet != b'\\'));
    }
    all
}

// The number of octets of an escape after its backslash: 1 if the first is printable and not a
// digit, 3 if there are three digits up to 255, and 0 if the backslash begins no escape.
fn escape_length(text: &[u8]) -> usize
    ensures value { result ≡ counted_escape text.now }
    ensures bound { result ≤ length text.now }
{
    let Some(first) = text.first() else {
        return 0;
    };
    if !first.is_ascii_digit() {
        return usize::from(*first >= b' ' && *first <= b'~');
    }
    let Some(digits) = text.first_chunk::<3>() else {
        return 0;
    };
    let [a, b, c] = *digits;
    if !(b.is_ascii_digit() && c.is_ascii_digit()) {
        return 0;
    }
    let value = 100 * u16::from(a - b'0') + 10 * u16::from(b - b'0') + u16::from(c - b'0');
    if value < 256 { 3 } else { 0 }
}

/// The text without the spaces and tabs at its front.
#[inline(always)]
pub(crate) fn after_blanks(text: &[u8]) -> &[u8]
    ensures { result.now ≡ drop (prefix_len is_blank text.now) text.now }
{
    match text {
        [first, others @ ..] if is_blank(*first) => match others.first() {
            // A fast path: other octets can't be blank.
            Some(next) if *next <= b' ' => after_long_blank(others),
            _ => others,
        },
        _ => text,
    }
}

// Does the same as `after_blanks`. It is rarely called, because most blanks are one octet. It skips
// eight spaces at once, because a line may be padded with spaces.
#[inline(never)]
fn after_long_blank(text: &[u8]) -> &[u8]
    ensures { result.now ≡ drop (prefix_len is_blank text.now) text.now }
{
    let mut rest = text;
    'blanks: while let Some((first, others)) = rest.split_first() {
        if !is_blank(*first) {
            break;
        }
        rest = others.strip_prefix(b"        ").unwrap_or(others);
    }
    rest
}

/// Whether a text begins with a space or a tab.
pub(crate) fn begins_blank(text: &[u8]) -> bool
    ensures { result ≡ list_any is_blank (take 1 text.now) }
{
    text.first().is_some_and(|first| is_blank(*first))
}

fn is_blank(octet: u8) -> bool
    ensures { result ≡ is_blank octet }
{
    octet == b' ' || octet == b'\t'
}

/// The text from its first LF on; an empty text if it has no LF.
pub(crate) fn after_comment(text: &[u8]) -> &[u8]
    ensures { result.now ≡ drop (prefix_len (λ x. not (x == 10)) text.now) text.now }
{
    match line_feed_index(text) {
        Some(index) => text.split_at(index).1,
        None => &[],
    }
}

fn line_feed_index(text: &[u8]) -> Option<usize>
    ensures { result ≡ position (λ x. x == 10) text.now }
{
    text.iter().position(|octet| *octet == b'\n')
}
