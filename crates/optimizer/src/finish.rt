// The end of a query: the best model, the stratum, the core; levels are settled and opened. What stands still during a query is lent and changed where it lies; each function
// answers the phase.
ghost use Rattle.std.specs.Prelude.{◌≡◌, ◌+◌, ◌-◌, ◌≤◌, ◌<◌, pos, length, get_or};
ghost use Rattle.asp.specs.Literal.{same_ℤ};
ghost use Rattle.cores.specs.Level.{under};
ghost use Rattle.cores.specs.Tables.{level_of, tried_tables};
ghost use Rattle.advancing.specs.Source.{levels_lent};
ghost use Rattle.advancing.specs.Ready.{ReadyCore};
ghost use Rattle.advancing.specs.Finish.{placed, next_from, begun_at, open_from, settle_of, costs_of, with_best, better_of, fallen, tried_work, finish_first, finish_level, finish_of};

use crate::ground::Limited;
use advancing::state::{Phase, Turn, Work};
use asp::atoms::AtomSet;
use asp::cost::Objective;
use cores::level::LevelTables;
use cores::soft::Soft;

// Whether the bounds on a level are equal.
fn bounds_meet(w: &Work, i: usize) -> bool
    requires { i < 8 }
    ensures { result ≡ same_ℤ (get_or w.now.uppers i (pos 0)) (get_or w.now.lowers i (pos 0)) }
{
    w.uppers[i] == w.lowers[i]
}

// The first level from place j on, below k, on which the bounds are not equal; k if there is none.
fn next_level(w: &Work, j: usize, k: usize) -> usize
    requires { (j ≤ k) × (k ≤ 8) }
    ensures { (result ≡ next_from w.now.lowers w.now.uppers j (k - j)) × (result ≤ k) }
{
    for i in j..k {
        if !bounds_meet(w, i) {
            return i;
        }
    }
    k
}

// The greatest remaining weight below s; 0 if there is none. It asks nothing of the tables: a count past the end is of all.
fn next_stratum(t: &LevelTables, s: u32) -> u32
    ensures { result ≡ under s (level_of t.now).rests }
{
    let softs: &[Soft] = &t.softs;
    let count = t.count.min(softs.len());
    judging::query::next_stratum(&softs[..count], s)
}

impl Limited<'_> {
    // The levels from place j on; those that the best model settles where they start are passed over. A level is opened in emptied tables; after the last,
    // the optimum.
    fn open_from(&self, w: &mut Work, j: usize) -> Phase
        requires { j ≤ length self.now.objective.levels.now }
        ensures { placed result w.new ≡ open_from (levels_lent self.now.objective) w.old j }
    {
        let Objective { levels, entries } = self.objective;
        w.level = next_level(w, j, levels.len());
        if levels.len() <= w.level {
            return Phase::Optimum;
        }
        w.tables = LevelTables::opened(entries, levels[w.level]);
        w.stratum = next_stratum(&w.tables, 1000001);
        Phase::Level
    }

    // The level in work is settled if the best model costs its lower bound there.
    fn settle(&self, w: &mut Work) -> Phase
        requires { w.old.level < length self.now.objective.levels.now }
        ensures { placed result w.new ≡ settle_of (levels_lent self.now.objective) w.old }
    {
        if !bounds_meet(w, w.level) {
            return Phase::Level;
        }
        let next = w.level + 1;
        self.open_from(w, next)
    }

    // The set's costs, at the front of eight figures.
    fn costs(&self, value: &[u8; 1025]) -> [i64; 8]
        ensures { result ≡ costs_of (levels_lent self.now.objective) value.now }
    {
        // Kept: an array of document 01's size, since nothing here takes memory from the heap.
        let mut figures = [0i64; 8];
        self.objective
            .level_costs(AtomSet { bytes: value }, &mut figures);
        figures
    }

    // The set is the best model.
    fn keep_best(&self, w: &mut Work, value: &[u8; 1025])
        ensures { w.new ≡ with_best (levels_lent self.now.objective) w.old value.now }
    {
        w.uppers = self.costs(value);
        w.best = *value;
    }

    // It is if it is cheaper.
    fn keep_better(&self, w: &mut Work, value: &[u8; 1025])
        ensures { w.new ≡ better_of (levels_lent self.now.objective) w.old value.now }
    {
        let figures = self.costs(value);
        let k = self.objective.levels.len();
        if !asp::cost::is_cheaper(&figures[..k], &w.uppers[..k]) {
            return;
        }
        w.uppers = figures;
        w.best = *value;
    }

    // The end of the first query.
    fn finish_first(&self, w: &mut Work, value: &[u8; 1025], turn: Turn) -> Phase
        ensures { placed result w.new ≡ finish_first (levels_lent self.now.objective) w.old value.now turn }
    {
        match turn {
            Turn::Going => Phase::First,
            Turn::Without => Phase::Incoherent,
            Turn::Model => {
                self.keep_best(w, value);
                self.open_from(w, 0)
            }
        }
    }

    // The end of a query on a level. With a model: that is the best if it is cheaper, and the stratum falls. Without one: the core is recorded, and the lower bound rises;
    // or the tables are full.
    fn finish_level(&self, w: &mut Work, core: &[u16], value: &[u8; 1025], turn: Turn) -> Phase
        requires level { w.old.level < length self.now.objective.levels.now }
        requires core { turn ≡ Turn.Without → ReadyCore w.old core.now }
        ensures { placed result w.new ≡ finish_level (levels_lent self.now.objective) w.old value.now core.now turn }
    {
        match turn {
            Turn::Going => Phase::Level,
            Turn::Without => {
                if w.tables.try_record(core, w.stratum).is_err() {
                    return Phase::Full;
                }
                w.lowers[w.level] += i64::from(w.stratum);
                self.settle(w)
            }
            Turn::Model => {
                self.keep_better(w, value);
                w.stratum = next_stratum(&w.tables, w.stratum);
                self.settle(w)
            }
        }
    }

    // The end of any query; value is the trail's set, core what is blamed.
    pub fn finish(
        &self,
        phase: Phase,
        w: &mut Work,
        core: &[u16],
        value: &[u8; 1025],
        turn: Turn,
    ) -> Phase
        requires level { phase ≡ Phase.Level → w.old.level < length self.now.objective.levels.now }
        requires core { phase ≡ Phase.Level → turn ≡ Turn.Without → ReadyCore w.old core.now }
        ensures { placed result w.new ≡ finish_of (levels_lent self.now.objective) phase w.old value.now core.now turn }
    {
        match phase {
            Phase::First => self.finish_first(w, value, turn),
            Phase::Level => self.finish_level(w, core, value, turn),
            Phase::Optimum => Phase::Optimum,
            Phase::Incoherent => Phase::Incoherent,
            Phase::Full => Phase::Full,
        }
    }
}
