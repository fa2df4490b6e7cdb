//! Tests of `dns_name`, in a separate crate so that `dns_name` is not proved again with them.
#![tactic(auto)]

#[cfg(test)]
mod tests;
