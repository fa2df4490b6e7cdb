//! Tests of `dns_answer`, through its public functions. They are a separate crate, so that their
//! proofs are made only once, while wrong edits of `dns_answer` are tried.
#![tactic(auto)]

#[cfg(test)]
mod tests;
