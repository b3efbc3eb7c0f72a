// What a scan over rules and their literals meets: a condition of a rule, what is left of it, what is found. The scan itself is in `stepping`.
ghost use Rattle.std.specs.Prelude.{◌≡◌, ℕ, ◌<◌, ◌≤◌, length, get_or, pos, nat_abs};
ghost use Rattle.search.specs.Scan.{cond_at, meet_of, free_of, is_all, note_of};

use crate::value;
use asp::literal;

// What is left of a rule's conditions: nothing (all are on the trail), one undecided literal, or too much.
#[derive(Clone, Copy, PartialEq, Eq, Debug)]
pub enum Rest {
    All,
    One(i32),
    Off,
}

// What the scan finds: the first broken rule; else the first literal that would break one; else neither.
#[derive(Clone, Copy, PartialEq, Eq, Debug)]
pub enum Found {
    Broken(usize),
    Breaker(i32),
    Clear,
}

// The condition at place k: the complement of a head atom, before mid, or a body literal.
pub fn condition(pool: &[i32], mid: usize, k: usize) -> i32
    requires k_in_bounds { k < length pool.now }
    requires pos_bound { nat_abs (get_or pool.now k (pos 0)) ≤ 1024 }
    ensures { result ≡ cond_at pool.now mid k }
{
    let l = pool[k];
    if k < mid { literal::complement(l) } else { l }
}

// What is left of one condition.
fn left(value: &[u8; 1025], l: i32) -> Rest
    requires { nat_abs l ≤ 1024 }
    ensures { result ≡ meet_of value.now Rest.All l }
{
    let x = value[literal::atom(l)];
    if x == 0 {
        Rest::One(l)
    } else if value::side(l) == x {
        Rest::All
    } else {
        Rest::Off
    }
}

// What is left of the condition at place k.
pub fn left_at(pool: &[i32], value: &[u8; 1025], mid: usize, k: usize) -> Rest
    requires k_in_bounds { k < length pool.now }
    requires pos_bound { nat_abs (get_or pool.now k (pos 0)) ≤ 1024 }
    ensures { result ≡ meet_of value.now Rest.All (cond_at pool.now mid k) }
{
    left(value, condition(pool, mid, k))
}

// An undecided condition beside what is left of those before.
fn free(rest: Rest, l: i32) -> Rest
    ensures { result ≡ free_of rest l }
{
    match rest {
        Rest::All => Rest::One(l),
        Rest::One(f) => { if f == l { rest } else { Rest::Off } }
        Rest::Off => Rest::Off,
    }
}

// One more condition beside what is left of those before.
fn meet(value: &[u8; 1025], rest: Rest, l: i32) -> Rest
    requires { nat_abs l ≤ 1024 }
    ensures { result ≡ meet_of value.now rest l }
{
    match left(value, l) {
        Rest::All => rest,
        Rest::One(_) => free(rest, l),
        Rest::Off => Rest::Off,
    }
}

// The condition at place k is met, beside what is left of those before.
pub fn meet_at(pool: &[i32], value: &[u8; 1025], rest: Rest, mid: usize, k: usize) -> Rest
    requires k_in_bounds { k < length pool.now }
    requires pos_bound { nat_abs (get_or pool.now k (pos 0)) ≤ 1024 }
    ensures { result ≡ meet_of value.now rest (cond_at pool.now mid k) }
{
    meet(value, rest, condition(pool, mid, k))
}

impl Rest {
    pub fn is_all(self) -> bool
        ensures { result ≡ is_all self }
    {
        matches!(self, Rest::All)
    }

    // What is found of a condition of which this is left: a literal that is left alone is noted.
    pub fn noted(self) -> Found
        ensures { result ≡ note_of Found.Clear self }
    {
        match self {
            Rest::One(l) => Found::Breaker(l),
            Rest::All | Rest::Off => Found::Clear,
        }
    }
}

// The first literal that is left alone is noted.
pub fn note(found: Found, rest: Rest) -> Found
    ensures { result ≡ note_of found rest }
{
    match found {
        Found::Broken(_) | Found::Breaker(_) => found,
        Found::Clear => rest.noted(),
    }
}
