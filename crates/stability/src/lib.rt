// Whether a set is a stable model, by the closure of the rules: what `asp` defines, computed over lent tables.
#![tactic(auto)]

pub mod stable;
