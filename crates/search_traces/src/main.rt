// Runs the machine on small stored programs and prints each trail as it changes. tests/traces.py writes what must be printed.
// The stored tables are checked by computing: so many definitions are looked into.
#![tactic(auto, using(crate::proofs::Checked::formed, crate::proofs::Checked::roomy, crate::proofs::Checked::wished), unfolding(asp::specs::Literal::occurs_among, asp::specs::Literal::one_signed, asp::specs::Tables::span, asp::specs::Tables::is_choice, asp::specs::Tables::is_weighted, asp::specs::Tables::is_mixed, counting::specs::Counts::sum_from))]

mod machine;
mod program;
mod programs;
mod run;
mod weighted;

use std::io;

fn main(rt: HostRuntime) -> io::Result<()> {
    run::run(&rt, programs::no_statement())?;
    run::run(&rt, programs::itself())?;
    run::run(&rt, programs::not_itself())?;
    run::run(&rt, programs::either())?;
    run::run(&rt, programs::chain())?;
    run::run(&rt, programs::plan())?;
    run::run(&rt, programs::plan_wishes())?;
    run::run(&rt, programs::plan_other_wishes())?;
    run::run(&rt, programs::three_in_two())?;
    run::run(&rt, weighted::capacity())?;
    run::run(&rt, weighted::one_or_two())?;
    run::run(&rt, weighted::both_signs())?;
    run::run(&rt, weighted::nothing())?;
    run::run(&rt, weighted::twice())?;
    run::run(&rt, weighted::worth())?;
    run::run(&rt, weighted::not_twice())?;
    run::run(&rt, weighted::itself_weighed())?;
    run::run(&rt, weighted::not_itself_weighed())?;
    run::run(&rt, weighted::head_by_sum())?;
    run::run(&rt, weighted::choice_by_sum())
}
