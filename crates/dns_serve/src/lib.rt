//! A server's transports: datagrams and their replies, and the messages of a stream and their
//! replies.
#![tactic(auto)]

mod datagrams;
mod frame;
mod session;
mod stream;
mod turn;
mod turn_fault;

pub use datagrams::{Datagrams, Failed};
pub use frame::Frame;
pub use session::Session;
pub use stream::serve_stream;
pub use turn::{udp_turn, udp_turn_in};
pub use turn_fault::{StreamFault, TurnFault};
