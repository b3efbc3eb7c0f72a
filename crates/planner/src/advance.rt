// Advance and run.
ghost use Rattle.std.specs.Prelude.{◌≡◌};
ghost use Rattle.planner.specs.Held.{status_of};
ghost use Rattle.planner.specs.Sound.{Sound};
ghost use Rattle.planner.specs.Calls.{outcome, says, moved_to, advance_call, count_of, made, ran, run_call};

use crate::service::{Loaded, Refusal, Service, Status};
use crate::tables;
use counting::listed::Listed;
use optimizer::ground::Ground;

// How many advances were made, and the status after them.
#[derive(Clone, Copy, PartialEq, Eq, Debug)]
pub struct Count {
    pub made: u32,
    pub status: Status,
}

impl Loaded {
    fn run(&mut self, budget: u32) -> Count
        requires { ∥ Sound self.old ∥₁ }
        ensures moved { self.new ≡ moved_to self.old (ran self.old budget) }
        ensures count { result ≡ count_of (made self.old budget) (status_of (ran self.old budget).phase) }
    {
        let rules = tables::rules(&self.stored);
        let limited = tables::limited(&self.stored);
        let ground = Ground {
            listed: Listed {
                rules,
                lists: self.prepared.conditions.lent(),
            },
            heads: &self.prepared.heads,
            tried: &self.prepared.tried,
            limited,
        };
        let made = ground.run(&mut self.search, budget);
        Count {
            made,
            status: Status::from(self.search.phase),
        }
    }
}

impl Service {
    // One advance: the status after it.
    pub fn advance(&mut self) -> Result<Status, Refusal>
        ensures { outcome (says result) self.new.held ≡ advance_call self.old.held }
    {
        Ok(self.run(1)?.status)
    }

    // "advances until the status is not running or the count of advances made equals the budget"
    pub fn run(&mut self, budget: u32) -> Result<Count, Refusal>
        ensures { outcome (says result) self.new.held ≡ run_call self.old.held budget }
    {
        match &mut self.held {
            Some(program) => Ok(program.run(budget)),
            None => Err(Refusal::NotLoaded),
        }
    }
}
