//! Tests of `dns_rdata`, in a separate crate so that `dns_rdata` is not proved again with them.
#![tactic(auto)]

#[cfg(test)]
mod tests;
