// Advances of an optimization.
ghost use Rattle.std.specs.Prelude.{◌≡◌, ◌≤◌, ◌<◌, length};
ghost use Rattle.advancing.specs.Source.{levels_lent};
ghost use Rattle.advancing.specs.Turn.{blamed_of};
ghost use Rattle.advancing.specs.State.{fresh_blame, fresh_search, fresh_for};
ghost use Rattle.advancing.specs.Finish.{finish_of};
ghost use Rattle.advancing.specs.Advance.{ended_query, advance_of};
ghost use Rattle.advancing.specs.Ready.{ReadyCore};
ghost use Rattle.advancing.specs.Run.{after_run, Reached, run_of};
ghost use Rattle.optimizer.specs.Lent.{source_lent};

use crate::ground::{Ground, Limited};
use crate::{blame, turn};
use advancing::state;
use advancing::state::{Blame, Phase, Search, Turn, Work};
use cores::level::LevelTables;
use search::trail::Places;

fn fresh_blame() -> Blame
    ensures { result ≡ fresh_blame }
{
    Blame {
        flags: [0; 4096],
        core: [0; 4096],
        from: 4096,
    }
}

// An optimization before its first advance, over the lower bounds that it starts with.
fn fresh_over(lowers: [i64; 8]) -> Search
    ensures { result ≡ fresh_search lowers }
{
    Search {
        phase: Phase::First,
        advances: 0,
        trail: Places::fresh(),
        blame: fresh_blame(),
        work: Work {
            level: 0,
            tables: LevelTables::empty(),
            stratum: 0,
            lowers,
            uppers: [0; 8],
            best: [0; 1025],
        },
    }
}

impl Limited<'_> {
    // An optimization before its first advance: each lower bound starts at the sum of its level's negative weights.
    pub fn fresh(&self) -> Search
        ensures { result ≡ fresh_for (levels_lent self.now.objective) }
    {
        // Kept: an array of document 01's size, since nothing here takes memory from the heap.
        let mut starts = [0i64; 8];
        self.objective.level_starts(&mut starts);
        fresh_over(starts)
    }

    // A query has ended. "An ended question empties the path, and the same advance prepares the next."
    fn end_query(&self, s: &mut Search, turn: Turn)
        requires level { s.old.phase ≡ Phase.Level → s.old.work.level < length self.now.objective.levels.now }
        requires blame { s.old.blame.from ≤ 4096 }
        requires core { s.old.phase ≡ Phase.Level → turn ≡ Turn.Without → ReadyCore s.old.work (blamed_of s.old.blame) }
        ensures { s.new ≡ ended_query s.old.advances (finish_of (levels_lent self.now.objective) s.old.phase s.old.work s.old.trail.value (blamed_of s.old.blame) turn) }
    {
        let core = blame::blamed(&s.blame);
        s.phase = self.finish(s.phase, &mut s.work, core, &s.trail.value, turn);
        s.trail = Places::fresh();
        s.blame = fresh_blame();
    }
}

impl Ground<'_> {
    // Advances until the status is not running or `budget` are made: how many were made.
    pub fn run(&self, s: &mut Search, budget: u32) -> u32
        requires { Reached (source_lent self.now) s.old }
        ensures { after_run s.new result ≡ run_of (source_lent self.now) budget s.old }
    {
        let mut made: u32 = 0;
        while made < budget {
            if !s.phase.is_running() {
                return made;
            }
            let steps = self.query_steps(&s.work, &mut s.blame, &mut s.trail, budget - made);
            made += steps.made;
            s.advances = state::counted(s.advances, steps.made);
            if turn::is_going(steps.turn) {
                return made;
            }
            self.limited.end_query(s, steps.turn);
        }
        made
    }

    // One advance. "An advance after the end does nothing and isn't counted."
    pub fn advance(&self, s: &mut Search)
        requires { Reached (source_lent self.now) s.old }
        ensures { s.new ≡ advance_of (source_lent self.now) s.old }
    {
        self.run(s, 1);
    }
}
