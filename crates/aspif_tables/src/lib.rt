// One line of a text into lent tables: its statement added, or its refusal.
#![tactic(auto)]

pub mod table; // the tables: how far they are filled, the limits, one more row or level
pub mod add; // one statement into the tables
pub mod line; // one line into the tables
