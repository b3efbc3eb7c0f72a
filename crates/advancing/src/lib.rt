// What an advance of an optimization is, on its tables, and what holds after any number of advances. Definitions and theorems; of code, only whether an optimization runs and how its advances
// are counted.
#![tactic(auto)]

pub mod state;
