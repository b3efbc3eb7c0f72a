// Soft literals (document 01: wishes), cores and levels: what specs/ defines, computed over tables.
#![tactic(auto)]

pub mod level;
pub mod recording;
pub mod soft;
pub mod softs;
