// The machine of a query. The program and the lists of its rules are lent; the trail, the rules' numbers and the blame are its own.
ghost use Rattle.std.specs.Prelude.{◌≡◌, false, length, replicate};
ghost use Rattle.search.specs.Places.{SoundTrail, fresh_places};
ghost use Rattle.search.specs.Lent.{rules_lent};
ghost use Rattle.search.specs.Alone.{sound_trail-prop};
ghost use Rattle.indexing.specs.Sorting.{Sorted};
ghost use Rattle.counting.specs.Counts.{Tracks};
ghost use Rattle.counting.specs.Lent.{lists_lent};
ghost use Rattle.std.proofs.Props.{props};
ghost use Rattle.search_traces.specs.Stored.{Wished};

use crate::program::Program;
use counting::counters::Counters;
use counting::index::Index;
use counting::listed::Listed;
use indexing::fill;
use search::soft::Wishes;
use search::step::Tested;
use search::trail::Places;
use std::fmt;
use stepping::{step, trail};

#[derive(Drop)]
pub struct Machine<'a> {
    pub listed: Listed<'a>,
    pub wished: &'a [i32],
    pub models: &'a [u32],
    pub trail: Places,
    pub counters: Counters,
    // Kept: 1 where blamed, as `search` reads it
    pub blamed: [u8; 8],
    pub ghost wishes: { Wished listed.rules.atoms wished.now } by { Prim.hlevel props },
    pub ghost sound: { SoundTrail listed.rules.atoms trail } by { sound_trail-prop _ _ },
    pub ghost tracks: { Tracks (rules_lent listed.rules) (lists_lent listed.lists) trail.value counters },
    pub ghost wide: { length listed.lists.rules.now ≡ 16385 },
}

impl<'a> Machine<'a> {
    // At the empty trail.
    pub fn new(program: Program<'a>, conditions: &'a Index) -> Machine<'a>
        requires { Sorted false (rules_lent program.table) conditions.now }
        ensures { (result.trail ≡ fresh_places) × (result.blamed ≡ replicate 8 0) }
    {
        let listed = Listed {
            rules: program.table,
            lists: conditions.lent(),
        };
        let trail = Places::fresh();
        let rules = listed.readable();
        let counters = fill::fill(&rules, &listed.lists, &trail.value);
        Machine {
            listed,
            wished: program.wished,
            models: program.models,
            trail,
            counters,
            blamed: [0; 8],
        }
    }
}

impl Machine<'_> {
    ghost use Rattle.std.specs.Prelude.{◌≡◌, ◌<◌, set};
    ghost use Rattle.search.specs.Places.{back_of};
    ghost use Rattle.search.specs.Soft.{violated_of};
    ghost use Rattle.search.specs.Step.{stepped, step_of};
    ghost use Rattle.search.specs.Lent.{rules_lent};
    ghost use Rattle.search_traces.specs.Asked.{wishes_of, SameQuery, SameProgram};

    // One step. No atom is to be tried in first.
    pub fn step(&mut self) -> Tested
        ensures stepped { stepped result self.new.trail ≡ step_of (rules_lent self.old.listed.rules) self.old.listed.rules.atoms (wishes_of self.old) self.old.trail }
        ensures same { SameQuery self.old self.new }
    {
        let wishes = Wishes {
            atoms: self.listed.rules.atoms,
            literals: self.wished,
            blamed: &self.blamed,
            tried: &[0; 1025],
        };
        step::step(&self.listed, &wishes, &mut self.trail, &mut self.counters)
    }

    // Back to the last decision, which is flipped.
    pub fn back(&mut self)
        ensures back { self.new.trail ≡ back_of self.old.trail }
        ensures same { SameQuery self.old self.new }
    {
        let rules = self.listed.weighable();
        trail::back(&rules, &mut self.trail, &mut self.counters);
    }

    // The wish that the trail violates.
    pub fn violated(&self) -> Option<usize>
        ensures { result ≡ violated_of (wishes_of self.now) self.now.trail.value }
    {
        let wishes = Wishes {
            atoms: self.listed.rules.atoms,
            literals: self.wished,
            blamed: &self.blamed,
            tried: &[0; 1025],
        };
        wishes.violated(&self.trail.value)
    }

    // The wish at i is blamed; the table has eight.
    pub fn blame(&mut self, i: usize)
        ensures blamed { i < 8 → self.new.blamed ≡ set self.old.blamed i 1 }
        ensures trail { self.new.trail ≡ self.old.trail }
        ensures same { SameProgram self.old self.new }
    {
        if i < 8 {
            self.blamed[i] = 1;
        }
    }

    // The trail's set as a number, atom 1 first.
    pub fn mask(&self) -> u32 {
        let atoms = &self.trail.value[1..self.listed.rules.atoms + 1];
        atoms
            .iter()
            .fold(0, |mask, value| (mask << 1) | u32::from(*value == 1))
    }
}

// The literals of the trail, a star behind each decision.
impl fmt::Display for Machine<'_> {
    fn fmt<W: fmt::Write>(&self, f: &mut fmt::Formatter<W>) -> fmt::Result {
        for (i, l) in self.trail.lits[..self.trail.len].iter().enumerate() {
            let star = if self.trail.marks[i].is_decision() {
                "*"
            } else {
                ""
            };
            write!(f, " {l}{star}")?;
        }
        Ok(())
    }
}
