// Programs, their stable models and costs: what specs/ defines, computed over lent tables.
#![tactic(auto)]

pub mod atoms; // sets of atoms, as bytes by atom
pub mod cost; // what a set costs on each level
pub mod entries; // the entries of minimise lines, and their normal form
pub mod literal;
pub mod rules; // a pool of literals, and a row for each rule
pub mod symbols;
