mod addresses;
mod rdata;
mod said;
mod types;
mod words;
mod write;
