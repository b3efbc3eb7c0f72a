// What a query asks of the tables of a level: which soft literals a set violates, the next stratum, what is assumed and what its entries wish for.
#![tactic(auto)]

pub mod judge;
pub mod query;
