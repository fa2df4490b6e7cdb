//! Reads and writes messages on the wire, and reads queries (RFC 1035 4.1).
#![tactic(auto)]

mod data;
mod message;
mod message_builder;
mod name;
mod number;
mod query;
mod quick_hash;
mod reader;
mod spelled;
mod suffix_number;
mod suffix_offsets;
mod suffixes;
mod wire_fault;
mod writer;

pub use message::{CLASS_IN, Head, Message, Question, QuestionRef, WireRecord};
pub use message_builder::{MessageBuilder, Section};
pub use query::{QueryRead, QueryRef, Rcode, query_ref, read_query};
pub use quick_hash::QuickHash;
pub use reader::read_message;
pub use suffix_offsets::SuffixHash;
pub use wire_fault::WireFault;
pub use writer::Writer;
