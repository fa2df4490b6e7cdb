//! Domain names: their labels, their wire form, and how they are compared; and devices that count
//! their failures.
#![tactic(auto)]

mod buffer;
mod label;
mod name;
mod name_octets;
mod name_ref;
mod octets;
mod plain;
mod tally;
mod text;
mod written;

pub use buffer::TextBuffer;
pub use label::Label;
pub use name::Name;
pub use name_ref::{Labels, NameRef, first_label};
pub use octets::{are_equal, begins_with, ends_with};
pub use tally::{SinkFailed, SourceFailed, Tally};
pub use text::{NameFault, first_digit, first_octet};
