//! Types of records and their data, as octets and as text.
#![tactic(auto)]

mod hex;
mod ipv4;
mod ipv6;
mod ipv6_text;
mod number;
mod parts;
mod rdata;
mod rdata_fault;
mod read;
mod rtype;
mod set;
mod soa;
mod string;
mod table;
mod typed;
mod unknown;
mod word;
mod write;

pub use number::read_number;
pub use parts::{Part, Parts, first_part};
pub use rdata::Rdata;
pub use rdata_fault::RdataFault;
pub use read::DataBuffers;
pub use rtype::RType;
pub use set::SetView;
pub use table::{Field, fields_of_type};
pub use word::Word;
