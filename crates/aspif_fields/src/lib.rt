// The fields of aspif 1.0.0's lines, as document 01 restricts it: numbers, atoms and literals, how a rule opens, and pairs, read from a line; nothing is stored.
// Each reader takes what it reads from the front of what is left of the line.
#![tactic(auto)]

pub mod refusal; // why a text is refused
pub mod token; // what is left of a line, and numbers by their form
pub mod field; // numbers, atoms and literals, by form, range and accepted part
pub mod opening; // `h m`: how a rule opens
pub mod pair; // a literal and its weight
