// One optimization: levels over strata over queries over the trail. Document 01, "Question and path" and "Wishes and cores".
#![tactic(auto)]

pub mod blame;
pub mod finish;
pub mod ground;
pub mod judge;
pub mod prepare;
pub mod query;
pub mod run;
pub mod turn;
