//! Tests of `dns_zone`, through its public functions. They are a separate crate, so that `dns_zone`
//! is proved only once, while wrong edits of it are tried. This crate also makes the zones of other
//! tests.
#![tactic(auto)]

#[cfg(test)]
mod tests;
mod zones;

pub use zones::{built, deep, wide, zone_of};
