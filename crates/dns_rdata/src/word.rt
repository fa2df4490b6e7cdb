//! Words of a zone file.
use std::marker::Model;

/// A word of a record's data as it is spelled in a zone file, with its escapes but without its
/// quotation marks (RFC 1035 5.1).
#[derive(Debug, Default, Drop)]
pub struct Word<'a> {
    /// The spelling of the word.
    pub raw: &'a [u8],
    /// Whether the word is in quotation marks.
    pub quoted: bool,
}

impl<'a> Model for Word<'a> {
    ghost use Rattle.dns_spec.specs.DataText as text;

    ghost Value = { text.Word };

    ghost view = { λ w. record { raw = w.raw.now; is_quoted = w.quoted } };
}
