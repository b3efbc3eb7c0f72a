// The test of a trail that breaks no rule. The whole test and the step are in `stepping`.
ghost use Rattle.std.specs.Prelude.{◌≡◌, ◌≤◌};
ghost use Rattle.search.specs.Branch.{Noted, lowest_of};
ghost use Rattle.search.specs.Lent.{assumed_lent};
ghost use Rattle.search.specs.Step.{unbroken};

use crate::scan::Found;
use crate::soft::Wishes;
use crate::trail::Places;

// What the test says of a trail: a rule is broken; it holds all n atoms, for the caller to judge; an assumed soft literal is violated; or it is open, with the literal to add.
#[derive(Clone, Copy, PartialEq, Eq, Debug)]
pub enum Tested {
    RuleBroken(usize),
    Full,
    SoftViolated(usize),
    Open(i32),
}

impl Wishes<'_> {
    // The test where no rule is broken; a is the lowest undecided atom.
    pub fn test_unbroken(&self, found: Found, trail: &Places, a: usize) -> Tested
        requires noted { Noted found }
        requires a_value { 1 ≤ self.now.atoms → a ≡ lowest_of trail.now.value self.now.atoms }
        ensures { result ≡ unbroken self.now.atoms (assumed_lent self.now) trail.now.value trail.now.len found }
    {
        if self.atoms <= trail.len {
            return Tested::Full;
        }
        match self.violated(&trail.value) {
            Some(i) => Tested::SoftViolated(i),
            None => Tested::Open(self.branch(found, &trail.value, a)),
        }
    }
}
