// Which atoms a free branch of the search tries in first, from the rules and the entries.
#![tactic(auto)]

pub mod first;
