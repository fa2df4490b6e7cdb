//! Tests of `dns_tools`, through its public functions.
#![tactic(auto)]

#[cfg(test)]
mod tests;
