//! Writes names as they appear in zone files (RFC 1035 5.1).
ghost use Rattle.std.specs.Prelude.{◌≡◌, ◌+◌, ◌-◌, ◌*◌, ◌^◌, ◌<◌, ◌≤◌, ◌++◌, length};
ghost use Rattle.dns_spec.specs.NameText.{is_special, octet_text, label_text, name_text};
ghost use Rattle.dns_spec.specs.Report.{bare_name_text};
ghost use Rattle.dns_name.specs.Counted.{Writes};

use crate::buffer::TextBuffer;
use crate::name::Name;
use crate::name_ref::NameRef;
use crate::tally::{SinkFailed, Tally};
use std::io::Write;

impl Name {
    /// Writes the name as it appears in a zone file (RFC 1035 5.1): its labels, each followed by a
    /// dot. The root is written as `.`
    ///
    /// In a label, `"`, `$`, `(`, `)`, `.`, `;`, `@` and `\` are written with a backslash before
    /// them. Other octets from 33 to 126 are written as they are, and all others as `\DDD`, three
    /// decimal digits. Does not allocate.
    ///
    /// If the writer fails, a prefix of the text has been written, and the failure is counted.
    pub fn write_text<W: Write>(&self, sink: &mut Tally<W>) -> Result<(), SinkFailed>
        requires { sink.old.failures < 2 ^ 64 - 1 }
        ensures { Writes W.contents sink.old sink.new result (name_text self.now) }
    {
        self.borrowed().write_text(sink)
    }

    /// Appends the name without its final dot, as most programs print it: its labels, separated by
    /// dots, or `.` for the root; at most 1,020 octets. Octets are written as in `write_text`.
    pub fn append_bare_text(&self, text: &mut TextBuffer)
        requires { length text.old + 1020 ≤ 4096 }
        ensures { text.new ≡ text.old ++ bare_name_text self.now }
    {
        let name = self.borrowed();
        name.append_text(text);
        if name.label_count() > 0 {
            text.pop();
        }
    }
}

impl NameRef<'_> {
    /// Writes the name as it appears in a zone file, as `Name::write_text` does (RFC 1035 5.1).
    ///
    /// If the writer fails, a prefix of the text has been written, and the failure is counted.
    pub fn write_text<W: Write>(&self, sink: &mut Tally<W>) -> Result<(), SinkFailed>
        requires { sink.old.failures < 2 ^ 64 - 1 }
        ensures { Writes W.contents sink.old sink.new result (name_text self.now) }
    {
        let mut text = TextBuffer::new();
        self.append_text(&mut text);
        text.finish(sink)
    }

    /// Appends the text that `write_text` writes, at most 1,020 octets.
    pub fn append_text(&self, text: &mut TextBuffer)
        requires { length text.old + 1020 ≤ 4096 }
        ensures text { text.new ≡ text.old ++ name_text self.now }
        ensures upto { length text.new ≤ length text.old + 1020 }
    {
        if self.octets().len() == 1 {
            text.push(b'.');
            return;
        }
        'labels: for label in self.labels() {
            append_label(text, label.octets());
            text.push(b'.');
        }
    }
}

fn append_label(text: &mut TextBuffer, label: &[u8])
    requires { length text.old + 4 * length label.now ≤ 4096 }
    ensures { text.new ≡ text.old ++ label_text label.now }
{
    'octets: for octet in label {
        append_octet(text, *octet);
    }
}

fn append_octet(text: &mut TextBuffer, octet: u8)
    requires { length text.old + 4 ≤ 4096 }
    ensures text { text.new ≡ text.old ++ octet_text octet }
    ensures upto { length text.new ≤ length text.old + 4 }
{
    if is_special(octet) {
        text.append(&[b'\\', octet]);
    } else if octet.is_ascii_graphic() {
        text.push(octet);
    } else {
        text.push_escape(octet);
    }
}

// Whether an octet has a special meaning in a zone file unless a backslash precedes it. Most octets
// of names are lower-case letters, for which the first test is enough.
fn is_special(octet: u8) -> bool
    ensures { result ≡ is_special octet }
{
    !octet.is_ascii_lowercase()
        && matches!(
            octet,
            b'"' | b'$' | b'(' | b')' | b'.' | b';' | b'@' | b'\\'
        )
}
