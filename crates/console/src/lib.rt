// What the programs share: numbers that a user writes, the service's figures in print, how a program ends.
#![tactic(auto)]

pub mod end;
pub mod number;
pub mod print;
