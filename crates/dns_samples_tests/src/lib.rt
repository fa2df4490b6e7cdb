//! Shared by the tests of several crates: devices whose calls fail, a set of one record, the texts
//! of zones, and worked replies.
#![tactic(auto)]

mod devices;
mod long;
mod replies;
mod set;
mod texts;

pub use devices::{Calls, Kept, Pieces};
pub use long::{SERVICES, STRINGS, put_addresses, services, strings};
pub use replies::{FORMAT_ERROR, MESSAGES, QUERY, QUESTIONS, REPLIES, RING, Reply};
pub use set::OneRecord;
pub use texts::{LOADED, MIXED, MIXED_PRINTED, SMALL, SMALL_PRINTED};
