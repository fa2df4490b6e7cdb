// The definitions that all contracts of the product use, and the laws about them.
#![tactic(auto)]

pub mod checks;
pub mod commands;
pub mod data;
pub mod layout;
pub mod meaning;
pub mod names;
pub mod printed;
pub mod reading;
pub mod reply;
pub mod stream;
pub mod text;
