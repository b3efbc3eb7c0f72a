// The machine that searches for one query: the trail, its test, branching. Document 01, "Question and path".
// Definitions: specs/Trail (the trail as a list), Query (wanted, conflict, open), Machine (an advance); Places, Scan, Weigh, Soft, Branch, Step (the same on tables), Link.
// Code: the places of the trail, the conditions of a rule, the soft literals, the branch, the test where no rule is broken. Weighted bodies are read in `bodies`, the atoms to try in first found in `choosing`;
// the scan and the step are in `stepping`, by the number that `counting` keeps for each rule.
// Theorems: proofs/Search (any class of sought sets, any right test, blame, the count), Agree (broken in every set that agrees), Breakers (the noted literal),
// Scans (the scan is exact), Steps (the test on the tables is document 01's, a step on the tables is the machine's), ByRules, Kept (what callers of a step and of a cut know), Blamed, Unbroken.
#![tactic(auto)]

pub mod branch;
pub mod scan;
pub mod soft;
pub mod step;
pub mod trail;
pub mod value;
