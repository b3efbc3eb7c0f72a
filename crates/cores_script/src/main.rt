// Plays a script of numbers from standard input over crate `cores`, and prints figures. tests/cores.py writes the script and computes the figures.
//   1 PRIORITY SIGN ATOM MINUS WEIGHT   an entry; SIGN is 1 for a default negation, MINUS for a weight below 0, else 0; weights up to 1,024 here
//   2 PRIORITY   opens the level: prints its soft literals, the first stratum
//   3 S N PLACES   records a core at stratum S: prints 1 if full, the lower bound, soft literals, members
//   4 N ATOMS   a set: prints the remaining weights of what it violates
//   5 S   prints the next stratum below S, how many are assumed at S, and how many of them are an entry's; S above 1,000,001 counts as that
#![tactic(auto)]

ghost use Rattle.std.specs.Prelude.{◌≤◌, length};

use numbers::Numbers;
use std::io;
use world::World;

mod measure;
mod numbers;
mod strata;
mod world;

// Above every weight of an entry, so that nothing is assumed at it as a level begins.
const ABOVE_ALL: u32 = 1_000_001;

// One statement of the script.
fn obey(rt: &impl Print, w: &mut World, op: usize, script: &mut Numbers) -> io::Result<()>
    ensures { length script.new.rest.now ≤ length script.old.rest.now }
{
    let a = script.due();
    let stratum = u32::try_from(a).unwrap_or(u32::MAX);
    match op {
        1 => {
            w.put_entry(a, script);
            Ok(())
        }
        2 => w.open_level(rt, a),
        3 => w.keep_core(rt, stratum, script),
        4 => w.weigh_set(rt, a, script),
        5 => rt.println(w.strata(stratum.min(ABOVE_ALL))),
        _ => Ok(()),
    }
}

fn play(rt: &impl Print, text: &[u8]) -> io::Result<()> {
    let mut w = World::new();
    let mut script = Numbers { rest: text };
    while let Some(op) = script.next() {
        obey(rt, &mut w, op, &mut script)?;
    }
    Ok(())
}

fn main(rt: HostRuntime) -> io::Result<()> {
    // Kept: an array, since no program allocates.
    let mut text = [0u8; 65536];
    let n = inputs::fill(&mut rt.stdin(), &mut text)?;
    play(&rt, &text[..n])
}
