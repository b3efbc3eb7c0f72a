// The service: load, advance, run, look, write, model, symbols, clear. Document 01, "The calls". Every call is a method of `Service`; those that cannot change it
// take it by `&self`.
#![tactic(auto)]

pub mod advance;
pub mod load;
pub mod look;
pub mod service;
pub mod fill; // calls that fill lent bytes: what they wrote
pub mod model;
pub mod print;
pub mod symbol;
mod tables; // for load and run: no call of the service
pub mod write;
