// The test of a trail, and one step of the machine, by the numbers of the rules.
ghost use Rattle.std.specs.Prelude.{◌≡◌, ◌≤◌};
ghost use Rattle.search.specs.Places.{Good};
ghost use Rattle.search.specs.Soft.{FormedSoft};
ghost use Rattle.search.specs.Branch.{Noted, lowest_of};
ghost use Rattle.search.specs.Step.{test_by, test_of, stepped, step_of};
ghost use Rattle.search.specs.Lent.{rules_lent, assumed_lent};
ghost use Rattle.counting.specs.Counts.{Tracks};
ghost use Rattle.counting.specs.Lent.{lists_lent};

use crate::{scan, trail};
use counting::counters::{Counters, Marks};
use counting::listed::Listed;
use search::branch;
use search::scan::Found;
use search::soft::Wishes;
use search::step::Tested;
use search::trail::Places;

// What the test says where the scan found this; a is the lowest undecided atom.
fn test_by(found: Found, w: &Wishes<'_>, trail: &Places, a: usize) -> Tested
    requires noted { Noted found }
    requires a_value { 1 ≤ w.now.atoms → a ≡ lowest_of trail.now.value w.now.atoms }
    ensures { result ≡ test_by w.now.atoms (assumed_lent w.now) trail.now.value trail.now.len found }
{
    match found {
        Found::Broken(r) => Tested::RuleBroken(r),
        Found::Breaker(_) | Found::Clear => w.test_unbroken(found, trail, a),
    }
}

// The test of a trail; the marks rise with it.
fn test(g: &Listed<'_>, w: &Wishes<'_>, trail: &Places, t: &mut Counters) -> Tested
    requires { Tracks (rules_lent g.now.rules) (lists_lent g.now.lists) trail.now.value t.old }
    ensures tested { result ≡ test_of (rules_lent g.now.rules) w.now.atoms (assumed_lent w.now) trail.now.value trail.now.len }
    ensures tracks { Tracks (rules_lent g.now.rules) (lists_lent g.now.lists) trail.now.value t.new }
{
    let rules = g.readable();
    let s = scan::scan(&rules, t, &trail.value);
    let a = branch::lowest(&trail.value, w.atoms, t.marks.atom);
    t.marks = Marks {
        low: s.low,
        zero: s.zero,
        atom: a,
        ..t.marks
    };
    test_by(s.found, w, trail, a)
}

// One step: the test, then the move that it asks for. A full trail stays, for the caller to judge.
pub fn step(g: &Listed<'_>, w: &Wishes<'_>, trail: &mut Places, t: &mut Counters) -> Tested
    requires atoms { w.now.atoms ≡ g.now.rules.atoms }
    requires formed { FormedSoft w.now.atoms (assumed_lent w.now) }
    requires good { Good trail.old }
    requires tracks { Tracks (rules_lent g.now.rules) (lists_lent g.now.lists) trail.old.value t.old }
    ensures stepped { stepped result trail.new ≡ step_of (rules_lent g.now.rules) w.now.atoms (assumed_lent w.now) trail.old }
    ensures tracks { Tracks (rules_lent g.now.rules) (lists_lent g.now.lists) trail.new.value t.new }
{
    let tested = test(g, w, trail, t);
    let rules = g.weighable();
    match tested {
        Tested::RuleBroken(_) | Tested::SoftViolated(_) => trail::back(&rules, trail, t),
        Tested::Open(l) => trail::push(&rules, trail, t, l),
        Tested::Full => (),
    }
    tested
}
