// The numbers of the rules with weighted bodies (order 2): each by the values alone, made anew where the value of one of its atoms changes.
ghost use Rattle.std.specs.Prelude.{◌≡◌, false, ◌+◌, ◌-◌, ◌≤◌, ◌<◌, max, eqb, ltb, length, get_or};
ghost use Rattle.asp.specs.Sets.{pick};
ghost use Rattle.asp.specs.Tables.{row_at};
ghost use Rattle.asp.specs.Growth.{pairs_of};
ghost use Rattle.search.specs.Scan.{head_rest, weighted_rest};
ghost use Rattle.search.specs.Weigh.{met_at, body_rest, both_rest};
ghost use Rattle.counting.specs.Moves.{RowWeighs, RowReadable, ListReadable};
ghost use Rattle.counting.specs.Counters.{least, rest_number, weigh_number, broken_after, put_marks, put_at, renew_at, open_at, weigh_from, weigh_of};
ghost use Rattle.counting.specs.Lent.{lists_lent};
ghost use Rattle.counting.specs.Views.{bodies_weighed};

use crate::counters;
use crate::counters::{Counters, Marks};
use crate::views::WeighableRules;
use asp::rules::{HeadKind, Pairs, Row};
use bodies::weigh;
use search::scan::Rest;
use search::{scan, value};

fn rest_number(rest: Rest) -> u16
    ensures value { result ≡ rest_number rest }
    ensures small { result ≤ 2 }
{
    match rest {
        Rest::All => 0,
        Rest::One(_) => 1,
        Rest::Off => 2,
    }
}

fn both(head: Rest, body: Rest) -> Rest
    ensures { result ≡ both_rest head body }
{
    match (head, body) {
        (Rest::All, _) => body,
        (Rest::One(_), Rest::All) => head,
        _ => Rest::Off,
    }
}

// What pairs come to: the weights of the true literals, and the greatest of an undecided one.
#[derive(Clone, Copy, PartialEq, Eq, Debug)]
struct Tally {
    met: u64,
    most: u64,
}

impl Tally {
    // One more pair, of weight w, whose literal is x: 0 undecided, 1 true, 2 false.
    fn with(self, x: u8, w: u64) -> Tally
        requires { self.met + w < 18446744073709551616 }
        ensures met { result.met ≡ self.met + pick (eqb x 1) w 0 }
        ensures most { result.most ≡ max self.most (pick (eqb x 0) w 0) }
    {
        // Chosen without a branch on x, which cannot be foreseen.
        Tally {
            met: self.met + if x == 1 { w } else { 0 },
            most: self.most.max(if x == 0 { w } else { 0 }),
        }
    }
}

// The pairs of a body, in one pass.
fn sum(body: Pairs<'_>, value: &[u8; 1025]) -> Tally
    ensures met { result.met ≡ met_at value.now (pairs_of body.entry.literals.now body.entry.weights.now) }
    ensures most { result.most ≡ open_at value.now (pairs_of body.entry.literals.now body.entry.weights.now) }
{
    let mut t = Tally { met: 0, most: 0 };
    for (i, l) in body.literals.iter().enumerate() {
        t = t.with(
            value::truth(value, *l),
            u64::from(body.weights[i].unsigned_abs()),
        );
    }
    t
}

// The number of a body in which no atom has both signs.
fn plain_number(body: Pairs<'_>, bound: u64, value: &[u8; 1025]) -> u16
    ensures value { result ≡ rest_number (body_rest false value.now bound (pairs_of body.entry.literals.now body.entry.weights.now)) }
    ensures small { result ≤ 2 }
{
    let t = sum(body, value);
    if bound <= t.met {
        0
    } else if bound - t.met <= t.most {
        1
    } else {
        2
    }
}

// A rule with a weighted body, in the pool of its literals.
#[derive(Clone, Copy)]
pub struct WeightedRule<'a> {
    pub pool: &'a [i32],
    pub row: Row,
    pub ghost weighs: { RowWeighs pool.now row },
}

impl WeightedRule<'_> {
    // What is left of its head.
    fn head_rest(self, value: &[u8; 1025]) -> Rest
        ensures { result ≡ head_rest self.entry.pool.now value.now self.entry.row }
    {
        match self.row.head {
            HeadKind::Choice => Rest::Off,
            HeadKind::Plain if self.row.heads == 0 => Rest::All,
            HeadKind::Plain => {
                let first = usize::from(self.row.first);
                let mid = first + usize::from(self.row.heads);
                scan::left_at(self.pool, value, mid, first)
            }
        }
    }

    // What is left of its body.
    fn body_rest(self, value: &[u8; 1025]) -> Rest
        ensures { result ≡ weighted_rest self.entry.pool.now value.now self.entry.row }
    {
        let pairs = self.row.pairs(self.pool);
        let bound = self.row.bound(self.pool);
        weigh::body_rest(pairs, bound, self.row.body.is_mixed(), value)
    }

    // What is left of it.
    pub fn rest(self, value: &[u8; 1025]) -> Rest
        ensures { result ≡ both_rest (head_rest self.entry.pool.now value.now self.entry.row) (weighted_rest self.entry.pool.now value.now self.entry.row) }
    {
        both(self.head_rest(value), self.body_rest(value))
    }

    // The number of its body.
    fn body_number(self, value: &[u8; 1025]) -> u16
        ensures value { result ≡ rest_number (weighted_rest self.entry.pool.now value.now self.entry.row) }
        ensures small { result ≤ 2 }
    {
        if self.row.body.is_mixed() {
            rest_number(self.body_rest(value))
        } else {
            plain_number(self.row.pairs(self.pool), self.row.bound(self.pool), value)
        }
    }

    // Its number.
    pub fn number(self, value: &[u8; 1025]) -> u16
        ensures value { result ≡ weigh_number self.entry.pool.now value.now self.entry.row }
        ensures small { result ≤ 4 }
    {
        rest_number(self.head_rest(value)) + self.body_number(value)
    }
}

// How many rules are broken, after one had `old` and has `new`.
fn broken_after(old: u16, new: u16, b: usize) -> usize
    ensures { result ≡ broken_after old new b }
{
    match (old, new) {
        (0, 0) => b,
        (_, 0) => counters::bump(b),
        (0, _) => b.saturating_sub(1),
        _ => b,
    }
}

fn low_after(r: usize, new: u16, low: usize) -> usize
    ensures { result ≡ pick (ltb new 2) (least r low) low }
{
    if new < 2 {
        return counters::least(r, low);
    }
    low
}

fn zero_after(r: usize, new: u16, zero: usize) -> usize
    ensures { result ≡ pick (eqb new 0) (least r zero) zero }
{
    if new == 0 {
        return counters::least(r, zero);
    }
    zero
}

// The marks after rule r had `old` and has `new`.
fn put_marks(m: Marks, r: usize, old: u16, new: u16) -> Marks
    ensures { result ≡ put_marks r old new m }
{
    Marks {
        broken: broken_after(old, new, m.broken),
        low: low_after(r, new, m.low),
        zero: zero_after(r, new, m.zero),
        atom: m.atom,
    }
}

// Rule r has the number k.
// Kept: the bounds of a rule's number and of an atom stand in contracts, as in `counters`.
fn put_at(t: &mut Counters, r: usize, k: u16)
    requires { r < 2048 }
    ensures { t.new ≡ put_at r k t.old }
{
    let old = t.key[r];
    t.key[r] = k;
    t.marks = put_marks(t.marks, r, old, k);
}

// Rule r has the number k, if it is another.
fn renew_at(t: &mut Counters, r: usize, k: u16)
    requires { r < 2048 }
    ensures { t.new ≡ renew_at r k t.old }
{
    if t.key[r] == k {
        return;
    }
    put_at(t, r, k);
}

// Whether some rule with a weighted body names the atom a.
pub fn is_named(starts: &[u16], a: usize) -> bool
    requires { (a ≤ 1024) × (length starts.now ≡ 3076) }
    ensures { result ≡ ltb (get_or starts.now (2050 + a) 0) (get_or starts.now (2050 + a + 1) 0) }
{
    starts[2050 + a] < starts[2050 + a + 1]
}

impl WeighableRules<'_> {
    // The rules at the places `from` to `end` get their numbers.
    fn weigh_all(&self, from: usize, end: usize, value: &[u8; 1025], t: &mut Counters)
        requires { ListReadable (bodies_weighed self.now) self.now.lists.rules.now from end }
        ensures { t.new ≡ weigh_from (bodies_weighed self.now) value.now self.now.lists.rules.now from (end - from) t.old }
    {
        for e in from..end {
            let r = usize::from(self.lists.rules[e]);
            let rule = WeightedRule {
                pool: self.pool,
                row: self.rows[r],
            };
            renew_at(t, r, rule.number(value));
        }
    }

    // The value of the atom a has changed: the rules that name it get their numbers.
    pub fn reweigh(&self, a: usize, value: &[u8; 1025], t: &mut Counters)
        requires { a ≤ 1024 }
        ensures { t.new ≡ weigh_of (bodies_weighed self.now) (lists_lent self.now.lists) a value.now t.old }
    {
        let from = usize::from(self.lists.starts[2050 + a]);
        let end = usize::from(self.lists.starts[2050 + a + 1]);
        self.weigh_all(from, end, value, t);
    }
}
