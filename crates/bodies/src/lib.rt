// Weighted bodies under the values of a trail, as the code reads them; what they are is said by crate `search`, specs/Weigh.
#![tactic(auto)]

pub mod weigh;
