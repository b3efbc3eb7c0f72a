// Loads each text that an argument names, tries every set of its atoms, and prints the stable models with their costs.
// tests/models/make.py writes the texts and the expected output, by clasp.
#![tactic(auto)]

ghost use Rattle.std.specs.Prelude.{◌≤◌, length};
ghost use Rattle.aspif.specs.Store.{WellFormed};

use asp::atoms::AtomSet;
use asp::cost::Objective;
use asp::rules::RuleTable;
use aspif::lent::{objective, rule_table};
use aspif::text::Stored;
use stability::stable::{Stability, is_stable};
use std::io;
use std::rt::Files;

// The most atoms that are tried.
const MOST_ATOMS: usize = 12;

// Kept: the loop of optima's `main`, since a closure over the arguments would be no shorter.
fn main(rt: HostRuntime) -> io::Result<()> {
    for i in 1..usize::MAX {
        // Kept: an array, since no program allocates.
        let mut name = [0u8; 64];
        let Some(k) = inputs::argument(&rt, i, &mut name) else {
            return Ok(());
        };
        one_text(&rt, &name[..k])?;
    }
    Ok(())
}

fn one_text(rt: &(impl Files + Print), name: &[u8]) -> io::Result<()> {
    // Kept: an array, since no program allocates.
    let mut text = [0u8; 65537];
    let k = inputs::read(rt, name, &mut text)?;
    let loaded = aspif::text::load(&text[..k]);
    rt.write_all(name)?;
    match loaded {
        Ok(p) => models(rt, &p),
        Err(_) => rt.print(": refused\n"),
    }
}

// Every set of the atoms 1 to n, as a number whose bits are its atoms.
fn models(rt: &impl Print, p: &Stored) -> io::Result<()>
    requires { WellFormed p.now }
{
    if MOST_ATOMS < p.counts.atoms {
        return rt.print(": too many atoms\n");
    }
    let rules = rule_table(p);
    let objective = objective(p);
    let sets = 1u32 << p.counts.atoms;
    let found = (0..sets)
        .filter(|number| is_model(rules, &set_of(*number)))
        .count();
    println!(rt; ": {found} of {sets}")?;
    for number in 0..sets {
        let m = set_of(number);
        if is_model(rules, &m) {
            print_set(rt, &m)?;
            print_costs(rt, objective, &m)?;
        }
    }
    Ok(())
}

// The set whose atoms are the bits of a number: bit 0 is atom 1.
fn set_of(number: u32) -> [u8; 1025] {
    // Kept: an array, since no program allocates.
    let mut m = [0u8; 1025];
    for a in 0..MOST_ATOMS {
        m[a + 1] = u8::from(number >> a & 1 == 1);
    }
    m
}

fn is_model(rules: RuleTable<'_>, m: &[u8; 1025]) -> bool {
    matches!(is_stable(rules, AtomSet { bytes: m }), Stability::Stable)
}

fn print_set(rt: &impl Print, m: &[u8; 1025]) -> io::Result<()> {
    rt.print("{")?;
    let mut separator = "";
    for a in 1..=MOST_ATOMS {
        if m[a] == 1 {
            print!(rt; "{separator}{a}")?;
            separator = ",";
        }
    }
    rt.print("}")
}

// The cost of each level, after a space.
fn print_costs(rt: &impl Print, objective: Objective<'_>, m: &[u8; 1025]) -> io::Result<()>
    requires { length objective.levels.now ≤ 8 }
{
    // Kept: an array, since no program allocates.
    let mut costs = [0i64; 8];
    objective.level_costs(AtomSet { bytes: m }, &mut costs);
    for cost in &costs[..objective.levels.len()] {
        print!(rt; " {cost}")?;
    }
    rt.print("\n")
}
