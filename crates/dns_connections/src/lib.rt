//! Connections over TCP, many at once, which one process serves in turn.
#![tactic(auto)]

mod connections;
mod peer;
mod sockets;

pub use connections::{Capacity, serve_connections};
pub use sockets::{Found, Sockets, Stopped, Stream};
