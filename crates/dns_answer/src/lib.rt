//! The answer of a zone to a query (RFC 1034 4.3.2): what is found for a name, which sets end an
//! answer, and the reply to which they are offered.
#![tactic(auto)]

mod addresses;
mod chain;
mod ending;
mod lookup;
mod reply;
mod reply_builder;

pub use reply::{Limit, TcpBuilder, UdpBuilder, respond, respond_in};
pub use reply_builder::ReplyBuilder;
