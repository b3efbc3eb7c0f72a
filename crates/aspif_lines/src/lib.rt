// The statements of aspif 1.0.0, as document 01 restricts it: rules, minimise lines and symbols, read from a line into lent tables, field by field (aspif_fields).
// Each reader takes what it reads from the front of what is left of the line.
#![tactic(auto)]

pub mod room; // the sizes of the tables
pub mod members; // the atoms of a head, the literals of a body or condition, into a pool
pub mod weighted; // k pairs of literal and weight, into a pool
pub mod body; // `0 k literals`, or `1 bound k` and k pairs of literal and weight
pub mod rule; // `1 h m atoms` and a body
pub mod minimise; // `2 p k` and k pairs of literal and weight
pub mod symbol; // `4 m s k literals`
