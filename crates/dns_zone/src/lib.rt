//! Zones: the checks that a zone must pass before it is served, the walk over its names, and its
//! canonical text.
#![tactic(auto)]

mod build_fault;
mod checked;
mod checks;
mod names;
mod order;
mod printed;
mod shared_slice;
mod store;
mod tree;
mod zone;

pub use build_fault::{BuildFault, CheckFault, CheckFaults};
pub use checked::CheckedZone;
pub use printed::{PrintFault, print};
pub use store::Store;
pub use tree::labels::{MOST_LABELS, label_after, put_starts};
pub use tree::node::Node;
pub use tree::set::RecordSet;
pub use tree::sought::Sought;
pub use tree::steps::Steps;
pub use zone::Zone;
