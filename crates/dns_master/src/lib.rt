//! Reads zone files (RFC 1035 section 5) into records.
#![tactic(auto)]

mod blame;
mod earlier;
mod entry;
mod fields;
mod listing;
mod pieces;
mod place;
mod read_fault;
mod reader;
mod record;
mod record_collection;
mod run;
mod scanned;
mod source;
mod take;
mod token;
mod words;

pub use listing::{FaultList, MOST_LISTED, list_text, read_octets};
pub use place::Span;
pub use read_fault::{ReadCode, ReadFault};
pub use reader::{MOST_RECORDS, read_into, read_zone};
pub use record::Record;
pub use record_collection::RecordCollection;
pub use scanned::EntryFault;
