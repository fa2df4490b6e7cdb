//! Tests of `dns_master`, in a separate crate so that `dns_master` is not proved again with them.
#![tactic(auto)]

#[cfg(test)]
mod tests;
