// The moves of the trail, with the numbers of the rules kept beside it.
ghost use Rattle.std.specs.Prelude.{◌≡◌, ◌-◌, ◌<◌, ◌≤◌, get_or, pos, nat_abs};
ghost use Rattle.search.specs.Places.{Good};
ghost use Rattle.counting.specs.Lent.{lists_lent};
ghost use Rattle.counting.specs.Moves.{counted_trail, put_all, push_all, drop_all, back_all};
ghost use Rattle.counting.specs.Views.{bodies_weighed};

use asp::literal;
use counting::counters::Counters;
use counting::views::WeighableRules;
use counting::weigh;
use search::trail::{Mark, Places};
use search::value;

// A literal is added, with its mark.
fn put(g: &WeighableRules<'_>, trail: &mut Places, t: &mut Counters, l: i32, mark: Mark)
    requires { (trail.old.len < 1024) × (nat_abs l ≤ 1024) }
    ensures { counted_trail trail.new t.new ≡ put_all (bodies_weighed g.now) (lists_lent g.now.lists) l mark (counted_trail trail.old t.old) }
{
    let a = literal::atom(l);
    t.assign(&g.lists, &trail.value, a, value::side(l));
    trail.put(l, mark);
    if !weigh::is_named(g.lists.starts, a) {
        return;
    }
    g.reweigh(a, &trail.value, t);
}

// On an open trail: a literal is added as a decision.
pub fn push(g: &WeighableRules<'_>, trail: &mut Places, t: &mut Counters, l: i32)
    requires { (trail.old.len < 1024) × (nat_abs l ≤ 1024) }
    ensures { counted_trail trail.new t.new ≡ push_all (bodies_weighed g.now) (lists_lent g.now.lists) l (counted_trail trail.old t.old) }
{
    put(g, trail, t, l, Mark::Decision);
}

// The last literal is taken away.
fn take(g: &WeighableRules<'_>, trail: &mut Places, t: &mut Counters) -> i32
    requires { (0 < trail.old.len) × (trail.old.len ≤ 1024) × (nat_abs (get_or trail.old.lits (trail.old.len - 1) (pos 0)) ≤ 1024) }
    ensures trail { counted_trail trail.new t.new ≡ drop_all (bodies_weighed g.now) (lists_lent g.now.lists) (trail.old.len - 1) (counted_trail trail.old t.old) }
    ensures literal { result ≡ get_or trail.old.lits (trail.old.len - 1) (pos 0) }
{
    let a = literal::atom(trail.lits[trail.len - 1]);
    t.forget(&g.lists, &trail.value, a);
    let l = trail.take();
    if !weigh::is_named(g.lists.starts, a) {
        return l;
    }
    g.reweigh(a, &trail.value, t);
    l
}

// On a conflict: cut after the last decision, which is replaced by its complement, flipped. The length is 0 where there was no decision.
pub fn back(g: &WeighableRules<'_>, trail: &mut Places, t: &mut Counters)
    requires { Good trail.old }
    ensures { counted_trail trail.new t.new ≡ back_all (bodies_weighed g.now) (lists_lent g.now.lists) (counted_trail trail.old t.old) }
{
    while 0 < trail.len {
        let mark = trail.marks[trail.len - 1];
        let l = take(g, trail, t);
        if mark.is_decision() {
            put(g, trail, t, literal::complement(l), Mark::Flipped);
            return;
        }
    }
}
