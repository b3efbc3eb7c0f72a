// A query under way: one step of it, and steps until it ends.
ghost use Rattle.std.specs.Prelude.{◌≡◌};
ghost use Rattle.search.specs.Places.{SoundTrail};
ghost use Rattle.search.specs.Lent.{rules_lent};
ghost use Rattle.counting.specs.Counts.{Tracks};
ghost use Rattle.counting.specs.Lent.{lists_lent};
ghost use Rattle.advancing.specs.Turn.{is_going};
ghost use Rattle.advancing.specs.Ready.{GoodBlame};
ghost use Rattle.search.specs.Alone.{sound_trail-prop};
ghost use Rattle.optimizer.specs.Alone.{good_blame-prop};
ghost use Rattle.optimizer.specs.Lent.{query_lent};
ghost use Rattle.optimizer.specs.Turning.{backed_turn};

use crate::blame::{blame_entry, blame_place, blamed};
use crate::query::Query;
use advancing::state::{Blame, Judgement, Turn};
use counting::counters::Counters;
use search::soft::Wishes;
use search::step::Tested;
use search::trail::Places;
use stepping::{step, trail};

// What it has blamed, the trail, and the numbers of the trail's values.
#[derive(Drop)]
pub struct Walk<'a> {
    pub query: &'a Query<'a>,
    pub blame: &'a mut Blame,
    pub trail: &'a mut Places,
    pub counters: &'a mut Counters,
    ghost good_blame: { GoodBlame (query_lent query.now) blame.now } by { good_blame-prop _ _ },
    ghost sound_trail: { SoundTrail query.now.ground.listed.rules.atoms trail.now } by { sound_trail-prop _ _ },
    ghost tracks: { Tracks (rules_lent query.now.ground.listed.rules) (lists_lent query.now.ground.listed.lists) trail.now.value counters.now },
}

// What some steps came to, and how many they were.
#[derive(Clone, Copy, PartialEq, Eq, Debug)]
pub struct Steps {
    pub turn: Turn,
    pub made: u32,
}

// After a cut: without a decision the query has ended.
fn backed(trail: &Places) -> Turn
    ensures { result ≡ backed_turn trail.now.len }
{
    if trail.len == 0 {
        return Turn::Without;
    }
    Turn::Going
}

impl Walk<'_> {
    ghost use Rattle.advancing.specs.Turn.{turned, turn_of, turns, turns_of, judged_turn, judge_full, blamed_of};
    ghost use Rattle.optimizer.specs.Lent.{source_lent, LeafFor};
    ghost use Rattle.optimizer.specs.Walking.{Same};

    // The step on a full trail.
    fn judged(&mut self) -> Turn
        requires { LeafFor self.old.query.now.ground self.old.trail.now.value self.old.counters.now }
        ensures same { Same self.old self.new }
        ensures turned { turned result self.new.trail.now self.new.blame.now ≡ judged_turn (query_lent self.old.query.now) self.old.trail.now self.old.blame.now (judge_full (source_lent self.old.query.now.ground) (query_lent self.old.query.now) (blamed_of self.old.blame.now) self.old.trail.now.value) }
    {
        let query = self.query;
        let rules = query.ground.listed.weighable();
        match query.judge_full(blamed(self.blame), &self.trail.value, self.counters) {
            Judgement::Wanted => Turn::Model,
            Judgement::Dead => {
                trail::back(&rules, self.trail, self.counters);
                backed(self.trail)
            }
            Judgement::Violated(p) => {
                blame_place(query.spots, p, self.blame);
                trail::back(&rules, self.trail, self.counters);
                backed(self.trail)
            }
        }
    }

    // One step of the query: the test, the move that it asks for, the blame. A full trail is judged.
    pub fn turn(&mut self) -> Turn
        ensures same { Same self.old self.new }
        ensures turned { turned result self.new.trail.now self.new.blame.now ≡ turn_of (source_lent self.old.query.now.ground) (query_lent self.old.query.now) self.old.trail.now self.old.blame.now }
    {
        let query = self.query;
        let wishes = Wishes {
            atoms: query.ground.listed.rules.atoms,
            literals: query.wished,
            blamed: &self.blame.flags,
            tried: query.ground.tried,
        };
        match step::step(&query.ground.listed, &wishes, self.trail, self.counters) {
            Tested::RuleBroken(_) => backed(self.trail),
            Tested::SoftViolated(i) => {
                blame_entry(query.spots, i, self.blame);
                backed(self.trail)
            }
            Tested::Open(_) => Turn::Going,
            Tested::Full => self.judged(),
        }
    }

    // Steps until the query ends or `budget` are made.
    pub fn turns(&mut self, budget: u32) -> Steps
        ensures same { Same self.old self.new }
        ensures turns { turns (turned result.turn self.new.trail.now self.new.blame.now) result.made ≡ turns_of (source_lent self.old.query.now.ground) (query_lent self.old.query.now) budget self.old.trail.now self.old.blame.now }
    {
        for made in 0..budget {
            let turn = self.turn();
            if !is_going(turn) {
                return Steps {
                    turn,
                    made: made + 1,
                };
            }
        }
        Steps {
            turn: Turn::Going,
            made: budget,
        }
    }
}

// Whether the query goes on.
pub fn is_going(turn: Turn) -> bool
    ensures { result ≡ is_going turn }
{
    matches!(turn, Turn::Going)
}
