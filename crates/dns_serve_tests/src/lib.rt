//! Tests of `dns_serve`, through its public functions. They are a separate crate, so that
//! `dns_serve` is proved only once, while wrong edits of it are tried. The tests of `dns_tools`
//! also use the device.
#![tactic(auto)]

mod devices;
#[cfg(test)]
mod tests;

pub use devices::Mailbox;
