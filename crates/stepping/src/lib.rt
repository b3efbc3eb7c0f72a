// The moves of the trail with the numbers beside it, the scan that passes over a rule by one number, and one step.

#![tactic(auto)]

pub mod scan;
pub mod step;
pub mod trail;
