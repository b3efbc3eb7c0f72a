// A query, lent: the program that it is asked of and what it reads beside it. Steps of it, by numbers that are filled anew.
ghost use Rattle.judging.specs.Lent.{tables_of};
ghost use Rattle.advancing.specs.Turn.{query_tables};
ghost use Rattle.advancing.specs.Ready.{ReadyQuery};
ghost use Rattle.optimizer.specs.Tables.{source_by};
ghost use Rattle.optimizer.specs.Alone.{ready_query-prop};

use crate::ground::Ground;
use crate::turn::{Steps, Walk};
use advancing::state::{Blame, Work};
use indexing::fill;
use judging::judge::Cores;
use judging::query;
use search::trail::Places;

// How many levels are settled, and the lower bounds; the literals that the assumed soft literals of entries wish for, and their places; the places of all that are
// assumed; and the cores.
#[derive(Clone, Copy)]
pub struct Query<'a> {
    pub ground: Ground<'a>,
    pub level: usize,
    pub lowers: &'a [i64; 8],
    pub wished: &'a [i32],
    pub spots: &'a [u16],
    pub assumed: &'a [u16],
    pub cores: Cores<'a>,
    ghost ready: { ReadyQuery (source_by ground.listed.rules ground.limited.objective) (query_tables level lowers.now wished.now spots.now assumed.now (tables_of cores)) } by { ready_query-prop _ _ },
}

// What steps of a query came to, and the greatest remaining weight below its stratum.
#[derive(Clone, Copy, PartialEq, Eq, Debug)]
pub struct Asked {
    pub steps: Steps,
    pub below: u32,
}

impl Query<'_> {
    ghost use Rattle.std.specs.Prelude.{◌≡◌};
    ghost use Rattle.search.specs.Places.{SoundTrail};
    ghost use Rattle.advancing.specs.Turn.{turned, turns, turns_of};
    ghost use Rattle.advancing.specs.Ready.{GoodBlame};
    ghost use Rattle.optimizer.specs.Lent.{source_lent, query_lent};

    // Steps until the query ends or `budget` are made, by numbers that are filled anew.
    fn run(&self, blame: &mut Blame, trail: &mut Places, budget: u32) -> Steps
        requires good_blame { GoodBlame (query_lent self.now) blame.old }
        requires sound_trail { SoundTrail self.now.ground.listed.rules.atoms trail.old }
        ensures { turns (turned result.turn trail.new blame.new) result.made ≡ turns_of (source_lent self.now.ground) (query_lent self.now) budget trail.old blame.old }
    {
        let listed = &self.ground.listed;
        let rules = listed.readable();
        let mut counters = fill::fill(&rules, &listed.lists, &trail.value);
        let mut walk = Walk {
            query: self,
            blame,
            trail,
            counters: &mut counters,
        };
        walk.turns(budget)
    }
}

impl Ground<'_> {
    ghost use Rattle.std.specs.Prelude.{◌≡◌};
    ghost use Rattle.search.specs.Places.{SoundTrail};
    ghost use Rattle.cores.specs.Level.{under};
    ghost use Rattle.cores.specs.Tables.{level_of, SoundTables};
    ghost use Rattle.advancing.specs.Turn.{turned, turns, turns_of};
    ghost use Rattle.advancing.specs.Advance.{work_query};
    ghost use Rattle.advancing.specs.Ready.{ReadyQuery, GoodBlame};
    ghost use Rattle.optimizer.specs.Lent.{source_lent};

    // Steps of the query that stands at the level, with its tables and its stratum.
    pub(crate) fn query_steps(
        &self,
        w: &Work,
        blame: &mut Blame,
        trail: &mut Places,
        budget: u32,
    ) -> Steps
        requires ready_query { ReadyQuery (source_lent self.now) (work_query w.now) }
        requires good_blame { GoodBlame (work_query w.now) blame.old }
        requires sound_trail { SoundTrail self.now.listed.rules.atoms trail.old }
        requires sound_tables { SoundTables w.now.tables }
        ensures { turns (turned result.turn trail.new blame.new) result.made ≡ turns_of (source_lent self.now) (work_query w.now) budget trail.old blame.old }
    {
        let cores = Cores::of(&w.tables);
        // Kept: arrays of document 01's sizes, since nothing here takes memory from the heap.
        let mut assumed = [0; 4096];
        let mut spots = [0; 4096];
        let mut wished = [0; 4096];
        let m = query::assumed(cores.softs, w.stratum, &mut assumed);
        let k = query::entries(&assumed[..m], cores.softs, &mut spots, &mut wished);
        let q = Query {
            ground: *self,
            level: w.level,
            lowers: &w.lowers,
            wished: &wished[..k],
            spots: &spots[..k],
            assumed: &assumed[..m],
            cores,
        };
        q.run(blame, trail, budget)
    }

    // The same with the next stratum, for a caller that reads it: a run takes the steps alone, since an end on the level finds it by itself.
    pub fn run_query(&self, w: &Work, blame: &mut Blame, trail: &mut Places, budget: u32) -> Asked
        requires ready_query { ReadyQuery (source_lent self.now) (work_query w.now) }
        requires good_blame { GoodBlame (work_query w.now) blame.old }
        requires sound_trail { SoundTrail self.now.listed.rules.atoms trail.old }
        requires sound_tables { SoundTables w.now.tables }
        ensures steps { turns (turned result.steps.turn trail.new blame.new) result.steps.made ≡ turns_of (source_lent self.now) (work_query w.now) budget trail.old blame.old }
        ensures below { result.below ≡ under w.now.stratum (level_of w.now.tables).rests }
    {
        let steps = self.query_steps(w, blame, trail, budget);
        let below = query::next_stratum(w.tables.soft_literals(), w.stratum);
        Asked { steps, below }
    }
}
