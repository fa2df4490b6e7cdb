//! Messages and their replies, each after its length in two octets.

/// The query `www.example. IN A`, of 29 octets.
pub(super) const WWW: &[u8] = b"\x00\x1d\x12\x34\x00\x00\x00\x01\x00\x00\x00\x00\x00\x00\
    \x03www\x07example\x00\x00\x01\x00\x01";

/// The reply to `WWW`, of 45 octets.
pub(super) const WWW_REPLY: &[u8] = b"\x00\x2d\x12\x34\x84\x00\x00\x01\x00\x01\x00\x00\x00\x00\
    \x03www\x07example\x00\x00\x01\x00\x01\xc0\x0c\x00\x01\x00\x01\x00\x00\x0e\x10\x00\x04\
    \xc0\x00\x02\x0a";

/// The beginning of a message of 600 octets: its length, and the query of `WWW`.
pub(super) const LONG: &[u8] = b"\x02\x58\x12\x34\x00\x00\x00\x01\x00\x00\x00\x00\x00\x00\
    \x03www\x07example\x00\x00\x01\x00\x01";

/// The zeros that end the message that `LONG` begins.
pub(super) const ZEROS: &[u8] = &[0; 571];

/// The reply to a message that is not a query.
pub(super) const REFUSED: &[u8] = b"\x00\x0c\x12\x34\x80\x01\x00\x00\x00\x00\x00\x00\x00\x00";

/// A message of no octets, after its length.
pub(super) const EMPTY: &[u8] = b"\x00\x00";
