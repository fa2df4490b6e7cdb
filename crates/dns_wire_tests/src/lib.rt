//! Tests of `dns_wire`, in a separate crate so that `dns_wire` is not proved again with them.
#![tactic(auto)]

#[cfg(test)]
mod tests;
