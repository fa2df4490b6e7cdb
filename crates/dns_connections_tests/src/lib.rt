//! Tests of `dns_connections`, over sockets in memory. They are a separate crate, so that
//! `dns_connections` is proved only once, while wrong edits of it are tried.
#![tactic(auto)]

#[cfg(test)]
mod tests;
