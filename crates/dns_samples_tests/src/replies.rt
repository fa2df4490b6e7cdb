//! Worked replies.

use std::alloc::{AllocError, Global};

/// A question, and its reply: a header, the question again, and records.
#[derive(Clone, Copy)]
pub struct Reply<'a> {
    /// The name of the case.
    pub name: &'a str,
    /// The question: a name, a type and a class.
    pub question: &'a [u8],
    /// The header of the reply.
    pub head: &'a [u8],
    /// The records, mostly one in each piece.
    pub records: &'a [&'a [u8]],
}

impl Reply<'_> {
    /// The reply as it is sent.
    pub fn octets(&self, alloc: Global) -> Result<Vec<u8>, AllocError> {
        let mut octets = [self.head, self.question].concat(alloc)?;
        for record in self.records {
            octets.extend_from_slice(*record)?;
        }
        Ok(octets)
    }
}

/// The header of a query with one question.
pub const QUERY: &[u8] = b"\x12\x34\0\0\0\x01\0\0\0\0\0\0";

// The numbers of the zone's SOA record.
const NUMBERS: &[u8] = b"\0\0\0\x01\0\0\x1c\x20\0\0\x03\x84\0\x12\x75\0\0\0\x01\x2c";

/// Worked replies from the small zone, octet for octet. Each fits the limit for UDP, and so that
/// for TCP.
pub const REPLIES: &[Reply<'static>] = &[
    Reply {
        name: "an address",
        question: b"\x03www\x07example\0\0\x01\0\x01",
        head: b"\x12\x34\x84\0\0\x01\0\x01\0\0\0\0",
        records: &[b"\xc0\x0c\0\x01\0\x01\0\0\x0e\x10\0\x04\xc0\0\x02\x0a"],
    },
    Reply {
        name: "a name error",
        question: b"\x04nope\x07example\0\0\x01\0\x01",
        head: b"\x12\x34\x84\x03\0\x01\0\0\0\x01\0\0",
        records: &[
            b"\xc0\x11\0\x06\0\x01\0\0\x01\x2c\0\x26\x02ns\xc0\x11\x0ahostmaster\xc0\x11",
            NUMBERS,
        ],
    },
    Reply {
        name: "an empty non-terminal",
        question: b"\x01b\x03ent\x07example\0\0\x01\0\x01",
        head: b"\x12\x34\x84\0\0\x01\0\0\0\x01\0\0",
        records: &[
            b"\xc0\x12\0\x06\0\x01\0\0\x01\x2c\0\x26\x02ns\xc0\x12\x0ahostmaster\xc0\x12",
            NUMBERS,
        ],
    },
    Reply {
        name: "a wildcard",
        question: b"\x01x\x01y\x01w\x07example\0\0\x10\0\x01",
        head: b"\x12\x34\x84\0\0\x01\0\x01\0\0\0\0",
        records: &[b"\xc0\x0c\0\x10\0\x01\0\0\x0e\x10\0\x04\x03any"],
    },
    Reply {
        name: "the name above a wildcard",
        question: b"\x01w\x07example\0\0\x10\0\x01",
        head: b"\x12\x34\x84\0\0\x01\0\0\0\x01\0\0",
        records: &[
            b"\xc0\x0e\0\x06\0\x01\0\0\x01\x2c\0\x26\x02ns\xc0\x0e\x0ahostmaster\xc0\x0e",
            NUMBERS,
        ],
    },
    Reply {
        name: "a referral with glue",
        question: b"\x01h\x03sub\x07example\0\0\x01\0\x01",
        head: b"\x12\x34\x80\0\0\x01\0\0\0\x01\0\x01",
        records: &[
            b"\xc0\x0e\0\x02\0\x01\0\0\x0e\x10\0\x05\x02ns\xc0\x0e",
            b"\xc0\x2b\0\x01\0\x01\0\0\x0e\x10\0\x04\xc0\0\x02\x35",
        ],
    },
    Reply {
        name: "an alias",
        question: b"\x05alias\x07example\0\0\x01\0\x01",
        head: b"\x12\x34\x84\0\0\x01\0\x02\0\0\0\0",
        records: &[
            b"\xc0\x0c\0\x05\0\x01\0\0\x0e\x10\0\x06\x03www\xc0\x12",
            b"\xc0\x2b\0\x01\0\x01\0\0\x0e\x10\0\x04\xc0\0\x02\x0a",
        ],
    },
    Reply {
        name: "an address asked for in capitals",
        question: b"\x03WWW\x07Example\0\0\x01\0\x01",
        head: b"\x12\x34\x84\0\0\x01\0\x01\0\0\0\0",
        records: &[b"\xc0\x0c\0\x01\0\x01\0\0\x0e\x10\0\x04\xc0\0\x02\x0a"],
    },
    Reply {
        name: "a name error in capitals",
        question: b"\x04NOPE\x07Example\0\0\x01\0\x01",
        head: b"\x12\x34\x84\x03\0\x01\0\0\0\x01\0\0",
        records: &[
            b"\x07example\0\0\x06\0\x01\0\0\x01\x2c\0\x26",
            b"\x02ns\xc0\x1e\x0ahostmaster\xc0\x1e",
            NUMBERS,
        ],
    },
    Reply {
        name: "name servers",
        question: b"\x07example\0\0\x02\0\x01",
        head: b"\x12\x34\x84\0\0\x01\0\x01\0\0\0\x01",
        records: &[
            b"\xc0\x0c\0\x02\0\x01\0\0\x0e\x10\0\x05\x02ns\xc0\x0c",
            b"\xc0\x25\0\x01\0\x01\0\0\x0e\x10\0\x04\xc0\0\x02\x01",
        ],
    },
    Reply {
        name: "all types of the origin",
        question: b"\x07example\0\0\xff\0\x01",
        head: b"\x12\x34\x84\0\0\x01\0\x01\0\0\0\x01",
        records: &[
            b"\xc0\x0c\0\x02\0\x01\0\0\x0e\x10\0\x05\x02ns\xc0\x0c",
            b"\xc0\x25\0\x01\0\x01\0\0\x0e\x10\0\x04\xc0\0\x02\x01",
        ],
    },
    Reply {
        name: "all types of an alias",
        question: b"\x05alias\x07example\0\0\xff\0\x01",
        head: b"\x12\x34\x84\0\0\x01\0\x01\0\0\0\0",
        records: &[b"\xc0\x0c\0\x05\0\x01\0\0\x0e\x10\0\x06\x03www\xc0\x12"],
    },
    Reply {
        name: "all types of no records",
        question: b"\x01w\x07example\0\0\xff\0\x01",
        head: b"\x12\x34\x84\0\0\x01\0\0\0\x01\0\0",
        records: &[
            b"\xc0\x0e\0\x06\0\x01\0\0\x01\x2c\0\x26\x02ns\xc0\x0e\x0ahostmaster\xc0\x0e",
            NUMBERS,
        ],
    },
];

/// A reply from the large zone.
pub const RING: Reply<'static> = Reply {
    name: "a ring of aliases",
    question: b"\x02r1\x07example\0\0\x01\0\x01",
    head: b"\x12\x34\x84\0\0\x01\0\x02\0\0\0\0",
    records: &[
        b"\xc0\x0c\0\x05\0\x01\0\0\x0e\x10\0\x05\x02r2\xc0\x0f",
        b"\xc0\x28\0\x05\0\x01\0\0\x0e\x10\0\x02\xc0\x0c",
    ],
};

/// The reply to a query that cannot be read.
pub const FORMAT_ERROR: &[&[u8]] = &[b"\x12\x34\x80\x01\0\0\0\0\0\0\0\0"];

const REFUSED: &[u8] = b"\x12\x34\x80\x05\0\x01\0\0\0\0\0\0";

const NOT_IMPLEMENTED: &[u8] = b"\x12\x34\x80\x04\0\x01\0\0\0\0\0\0";

/// A question, and the header of the reply, which repeats the question.
pub const QUESTIONS: &[(&[u8], &[u8])] = &[
    (b"\x03www\x05other\0\0\x01\0\x01", REFUSED),
    (b"\x03www\x07example\0\0\x01\0\x03", REFUSED),
    (b"\x07example\0\0\xfc\0\x01", NOT_IMPLEMENTED),
    (b"\x07example\0\0\0\0\x01", NOT_IMPLEMENTED),
    // The class is checked before the type, and the type before the name.
    (b"\x05other\0\0\xfc\0\x03", REFUSED),
    (b"\x05other\0\0\xfc\0\x01", NOT_IMPLEMENTED),
];

// The question `www.example. IN A`, and an OPT record (RFC 6891 6.1.2).
const WWW: &[u8] = b"\x03www\x07example\0\0\x01\0\x01";

const OPT: &[u8] = b"\0\0\x29\x10\0\0\0\0\0\0\0";

/// A message in pieces, and the pieces of its reply; no pieces if it gets no reply.
pub const MESSAGES: &[(&[&[u8]], &[&[u8]])] = &[
    (&[b"\x12\x34\x80\0\0\x01\0\0\0\0\0\0", WWW], &[]),
    (
        &[b"\x12\x34\x10\0\0\x01\0\0\0\0\0\0", WWW],
        &[b"\x12\x34\x90\x04\0\0\0\0\0\0\0\0"],
    ),
    (
        &[b"\x12\x34\0\0\0\x01\0\0\0\0\0\x01", WWW, OPT],
        FORMAT_ERROR,
    ),
    (&[QUERY, b"\xc0\x0c\0\x01\0\x01"], FORMAT_ERROR),
    (&[QUERY, WWW, b"\0"], FORMAT_ERROR),
];
