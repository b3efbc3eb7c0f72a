// The scan over rules and their literals, left at the first broken rule. A rule whose number says that neither is it broken nor has it a single literal left is passed over.
ghost use Rattle.std.specs.Prelude.{◌≡◌, ℕ, ◌+◌, ◌*◌, ◌<◌, ◌≤◌, true, false, eqb, pos, nat_abs, length, get_or};
ghost use Rattle.asp.specs.Sets.{pick};
ghost use Rattle.asp.specs.Tables.{is_weighted, row_at};
ghost use Rattle.search.specs.Scan.{scan_of};
ghost use Rattle.counting.specs.Counters.{counters, marks};
ghost use Rattle.counting.specs.Counts.{Told, MarksRight, NoneBelow, NoneIn, SpotSays, spotted_of, Spotted};
ghost use Rattle.counting.specs.Views.{rules_read};

use counting::counters::{Counters, Marks};
use counting::views::ReadableRules;
use counting::weigh::WeightedRule;
use search::scan;
use search::scan::{Found, Rest};

// What the scan finds; a rule below which all numbers are 2 or more, and one below which none is 0.
#[derive(Clone, Copy, PartialEq, Eq, Debug)]
pub struct ScanDone {
    pub found: Found,
    pub low: usize,
    pub zero: usize,
}

// The number to look for: 0 where a rule is broken, else 1.
fn sought(broken: usize) -> u16
    ensures { result ≡ pick (eqb broken 0) 1 0 }
{
    u16::from(broken == 0)
}

// Where the scan starts.
fn start(m: Marks) -> usize
    ensures { result ≡ pick (eqb m.broken 0) m.low m.zero }
{
    if m.broken == 0 { m.low } else { m.zero }
}

fn lowest(m: Marks, r: usize) -> usize
    ensures { result ≡ pick (eqb m.broken 0) r m.low }
{
    if m.broken == 0 { r } else { m.low }
}

// Where no rule is broken none has 0; else rule r is the first.
fn lowest_zero(m: Marks, count: usize, r: usize) -> usize
    ensures { result ≡ pick (eqb m.broken 0) count r }
{
    if m.broken == 0 { count } else { r }
}

fn differs(key: &[u16; 2048], r: usize, x: u16) -> bool
    requires { r < 2048 }
    ensures { result ≡ pick (eqb (get_or key.now r 0) x) false true }
{
    key[r] != x
}

// Whether the numbers of so many rules are all others than x. There is no branch for each, so that the compiler compares them side by side.
fn two_differ(key: &[u16; 2048], r: usize, x: u16) -> bool
    requires { r + 2 ≤ 2048 }
    ensures { result ≡ true → NoneIn key.now x r 2 }
{
    let first = differs(key, r, x);
    let second = differs(key, r + 1, x);
    first & second
}

fn four_differ(key: &[u16; 2048], r: usize, x: u16) -> bool
    requires { r + 4 ≤ 2048 }
    ensures { result ≡ true → NoneIn key.now x r 4 }
{
    let first = two_differ(key, r, x);
    let second = two_differ(key, r + 2, x);
    first & second
}

fn eight_differ(key: &[u16; 2048], r: usize, x: u16) -> bool
    requires { r + 8 ≤ 2048 }
    ensures { result ≡ true → NoneIn key.now x r 8 }
{
    let first = four_differ(key, r, x);
    let second = four_differ(key, r + 4, x);
    first & second
}

fn sixteen_differ(key: &[u16; 2048], r: usize, x: u16) -> bool
    requires { r + 16 ≤ 2048 }
    ensures { result ≡ true → NoneIn key.now x r 16 }
{
    let first = eight_differ(key, r, x);
    let second = eight_differ(key, r + 8, x);
    first & second
}

// Whether the scan may pass over sixteen rules at once.
fn may_skip(key: &[u16; 2048], r: usize, x: u16) -> bool
    requires { r < 2048 }
    ensures { result ≡ true → NoneIn key.now x r 16 }
{
    if 2032 < r {
        return false;
    }
    sixteen_differ(key, r, x)
}

// What is found of rule r, with a weighted body.
fn spotted(rest: Rest, r: usize) -> Found
    ensures { result ≡ spotted_of rest r }
{
    match rest {
        Rest::All => Found::Broken(r),
        Rest::One(l) => Found::Breaker(l),
        Rest::Off => Found::Clear,
    }
}

// What is found of rule r, whose number is `want`, with a weighted body.
fn weighed(
    g: &ReadableRules<'_>,
    key: &[u16; 2048],
    want: u16,
    r: usize,
    value: &[u8; 1025],
) -> Found
    requires told { Told (rules_read g.now) value.now key.now }
    requires sought { (r < length g.now.rows.now) × (want ≤ 1) × (get_or key.now r 0 ≡ want) }
    requires weighted { is_weighted (row_at g.now.rows.now r).body ≡ true }
    ensures { SpotSays (rules_read g.now) value.now want result r }
{
    let rule = WeightedRule {
        pool: g.pool,
        row: g.rows[r],
    };
    spotted(rule.rest(value), r)
}

// What the scan found, and the rule at which it was left.
#[derive(Clone, Copy, PartialEq, Eq, Debug)]
pub struct Spot {
    pub found: Found,
    pub rule: usize,
}

// The scan for the first rule with the number `want`, from `start` on. It is left there: at the first of its conditions that is not true, or, where all are, with the rule broken.
fn first_with(
    g: &ReadableRules<'_>,
    key: &[u16; 2048],
    want: u16,
    start: usize,
    value: &[u8; 1025],
) -> Spot
    requires told { Told (rules_read g.now) value.now key.now × (want ≤ 1) }
    requires none_below { NoneBelow key.now (length g.now.rows.now) want start }
    ensures { Spotted (rules_read g.now) value.now key.now want result.found result.rule }
{
    let mut found = Found::Clear;
    let mut r = start;
    // Kept: a loop by hand, since it goes on by one rule or by sixteen.
    'rules: while r < g.rows.len() {
        if may_skip(key, r, want) {
            r += 16;
            continue 'rules;
        }
        if differs(key, r, want) {
            r += 1;
            continue 'rules;
        }
        let row = g.rows[r];
        if row.body.is_weighted() {
            found = weighed(g, key, want, r, value);
            break 'rules;
        }
        let mid = row.body_first();
        for k in usize::from(row.first)..mid + usize::from(row.literals) {
            let rest = scan::left_at(g.pool, value, mid, k);
            if !rest.is_all() {
                found = rest.noted();
                break 'rules;
            }
        }
        found = Found::Broken(r);
        break 'rules;
    }
    Spot { found, rule: r }
}

// The scan of the rules under the values of a trail, by their numbers.
pub fn scan(g: &ReadableRules<'_>, t: &Counters, value: &[u8; 1025]) -> ScanDone
    requires told { Told (rules_read g.now) value.now t.now.key }
    requires marked { MarksRight (length g.now.rows.now) t.now }
    ensures found { result.found ≡ scan_of (rules_read g.now) value.now }
    ensures marked { MarksRight (length g.now.rows.now) (counters t.now.key (marks t.now.marks.broken result.low result.zero t.now.marks.atom)) }
{
    let m = t.marks;
    let s = first_with(g, &t.key, sought(m.broken), start(m), value);
    ScanDone {
        found: s.found,
        low: lowest(m, s.rule),
        zero: lowest_zero(m, g.rows.len(), s.rule),
    }
}
