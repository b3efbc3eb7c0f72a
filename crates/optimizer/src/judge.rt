// A full trail: whether its set is one that the query seeks.
ghost use Rattle.std.specs.Prelude.{◌≡◌, List, ℕ, ◌≤◌, ◌<◌, ℤ, pos, length, get_or};
ghost use Rattle.asp.specs.Sets.{set_of};
ghost use Rattle.asp.specs.Literal.{same_ℤ};
ghost use Rattle.asp.specs.Program.{All};
ghost use Rattle.asp.specs.Cost.{cost, level};
ghost use Rattle.judging.specs.Lent.{tables_of};
ghost use Rattle.advancing.specs.Turn.{query_tables, settled_from, soft_or_wanted, judge_full};
ghost use Rattle.advancing.specs.Ready.{softs};
ghost use Rattle.optimizer.specs.Tables.{source_by};
ghost use Rattle.optimizer.specs.Lent.{source_lent, query_lent, LeafFor};

use crate::query::Query;
use advancing::state::Judgement;
use asp::atoms::AtomSet;
use asp::cost::Objective;
use counting::counters::Counters;
use indexing::leaf::FullTrail;
use judging::judge::Cores;

// Whether a set costs on level l what that is settled at.
fn is_settled_at(objective: &Objective<'_>, l: usize, m: AtomSet<'_>, lowers: &[i64; 8]) -> bool
    requires { (l < length objective.now.levels.now) × (l < 8) }
    ensures { result ≡ same_ℤ (cost (set_of m.entry.bytes.now) (level (get_or objective.now.levels.now l (pos 0)) objective.now.entries.now)) (get_or lowers.now l (pos 0)) }
{
    objective.level_cost(objective.levels[l], m) == lowers[l]
}

// Whether it does on each of the first k levels.
pub fn is_settled(objective: &Objective<'_>, k: usize, m: AtomSet<'_>, lowers: &[i64; 8]) -> bool
    requires { (k ≤ length objective.now.levels.now) × (k ≤ 8) }
    ensures { result ≡ settled_from (λ j. cost (set_of m.entry.bytes.now) (level (get_or objective.now.levels.now j (pos 0)) objective.now.entries.now)) lowers.now 0 k }
{
    for l in 0..k {
        if !is_settled_at(objective, l, m, lowers) {
            return false;
        }
    }
    true
}

// What the first violated soft literal makes of a full trail.
fn soft_or_wanted(j: Option<usize>) -> Judgement
    ensures { result ≡ soft_or_wanted j }
{
    match j {
        None => Judgement::Wanted,
        Some(p) => Judgement::Violated(p),
    }
}

// The judgement of a full trail: by the rules and the costs on the settled levels, `level` of them, and then by the soft literals, those that are blamed already first.
pub fn judge_full(
    full: &FullTrail<'_>,
    objective: &Objective<'_>,
    level: usize,
    lowers: &[i64; 8],
    assumed: &[u16],
    cores: &Cores<'_>,
    blamed: &[u16],
) -> Judgement
    requires level { (level ≤ length objective.now.levels.now) × (level ≤ 8) }
    requires inside { All (λ m. m < length cores.now.softs.now) assumed.now × All (λ m. m < length cores.now.softs.now) blamed.now }
    ensures { (ws : List ℤ) (ps : List ℕ) → result ≡ judge_full (source_by full.now.listed.rules objective.now) (query_tables level lowers.now ws ps assumed.now (tables_of cores.now)) blamed.now full.now.value.now }
{
    let value = full.value;
    let set = AtomSet { bytes: value };
    if !full.is_stable() || !is_settled(objective, level, set, lowers) {
        return Judgement::Dead;
    }
    soft_or_wanted(cores.judge_both(blamed, assumed, set))
}

impl Query<'_> {
    // That of a trail of the query.
    pub fn judge_full(&self, blamed: &[u16], value: &[u8; 1025], counters: &Counters) -> Judgement
        requires inside { All (λ m. m < softs (query_lent self.now)) blamed.now }
        requires leaf { LeafFor self.now.ground value.now counters.now }
        ensures { result ≡ judge_full (source_lent self.now.ground) (query_lent self.now) blamed.now value.now }
    {
        let full = FullTrail {
            listed: self.ground.listed,
            heads: self.ground.heads,
            value,
            counters,
        };
        let objective = &self.ground.limited.objective;
        judge_full(
            &full,
            objective,
            self.level,
            self.lowers,
            self.assumed,
            &self.cores,
            blamed,
        )
    }
}
