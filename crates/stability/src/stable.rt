// Whether a set is a stable model, by the closure of the rules.
ghost use Rattle.std.specs.Prelude.{◌≡◌, not, ◌≤◌, length, pos, set, get_or, replicate};
ghost use Rattle.asp.specs.Sets.{set_of, same, In};
ghost use Rattle.asp.specs.Stable.{Closed, constraint_fails, any_violated, closure};
ghost use Rattle.asp.specs.Program.{All};
ghost use Rattle.asp.specs.Tables.{named, rule_at, rules_of};
ghost use Rattle.asp.specs.Growth.{Grown, ChosenAtom, Chosen, KeptBy, RowFormed, atoms_named};
ghost use Rattle.stability.specs.Verdict.{stability_of};

use asp::atoms::AtomSet;
use asp::literal::atom;
use asp::rules::{HeadKind, Row, RuleTable};

#[derive(Clone, Copy, PartialEq, Eq, Debug)]
pub enum Stability {
    Stable,
    // a constraint's body holds
    Violated,
    // the least closed set is another
    NotLeast,
}

// Adds an atom; whether it is new.
fn add(x: &mut [u8; 1025], a: usize) -> bool
    requires { a ≤ 1024 }
    ensures added { x.new ≡ set x.old a 1 }
    ensures new { result ≡ not (set_of x.old a) }
{
    let new = x[a] != 1;
    x[a] = 1;
    new
}

// Adds an atom, if it is in `m`.
fn add_chosen(a: usize, m: AtomSet<'_>, x: &mut [u8; 1025]) -> bool
    requires { In 1024 a }
    ensures { Grown (ChosenAtom (set_of m.entry.bytes.now) a) x.old x.new result }
{
    m.has(a) && add(x, a)
}

// Adds those of a choice's atoms that are in `m`.
fn add_choice(heads: &[i32], m: AtomSet<'_>, x: &mut [u8; 1025]) -> bool
    requires { All (In 1024) (atoms_named heads.now) }
    ensures { Grown (Chosen (set_of m.entry.bytes.now) (atoms_named heads.now)) x.old x.new result }
{
    let mut new = false;
    for l in heads {
        new |= add_chosen(atom(*l), m, x);
    }
    new
}

// Adds what a rule adds, its negated atoms and its choice looked up in `m`; whether anything is new.
pub fn add_rule(row: Row, pool: &[i32], m: AtomSet<'_>, x: &mut [u8; 1025]) -> bool
    requires { RowFormed pool.now row }
    ensures { Grown (KeptBy (set_of m.entry.bytes.now) (rule_at pool.now row)) x.old x.new result }
{
    if !row.body_holds(pool, m, AtomSet { bytes: x }) {
        return false;
    }
    let heads = row.head_atoms(pool);
    match row.head {
        HeadKind::Choice => add_choice(heads, m, x),
        HeadKind::Plain if row.heads == 0 => false,
        HeadKind::Plain => add(x, atom(heads[0])),
    }
}

// One round: adds what each rule adds.
fn add_round(rules: RuleTable<'_>, m: AtomSet<'_>, x: &mut [u8; 1025]) -> bool
    ensures { Grown (Closed (rules_of rules.entry.pool.now rules.entry.rows.now (length rules.entry.rows.now)) (set_of m.entry.bytes.now)) x.old x.new result }
{
    let mut new = false;
    for row in rules.rows {
        new |= add_rule(*row, rules.pool, m, x);
    }
    new
}

// Rounds until nothing is new: the least closed set, from the empty one. Each round but the last adds one of the rules' atoms.
fn close(rules: RuleTable<'_>, m: AtomSet<'_>, x: &mut [u8; 1025])
    requires { x.old ≡ replicate 1025 0 }
    ensures { set_of x.new ≡ closure rules.entry.atoms (rules_of rules.entry.pool.now rules.entry.rows.now (length rules.entry.rows.now)) (set_of m.entry.bytes.now) }
{
    let mut new = true;
    while new {
        new = add_round(rules, m, x);
    }
}

// Whether a rule is a constraint whose body holds in `m`.
fn is_violated(row: Row, pool: &[i32], m: AtomSet<'_>) -> bool
    requires { RowFormed pool.now row }
    ensures { result ≡ constraint_fails (set_of m.entry.bytes.now) (rule_at pool.now row) }
{
    match row.head {
        HeadKind::Choice => false,
        HeadKind::Plain => row.heads == 0 && row.body_holds(pool, m, m),
    }
}

fn any_violated(rules: RuleTable<'_>, m: AtomSet<'_>) -> bool
    ensures { result ≡ any_violated (set_of m.entry.bytes.now) (rules_of rules.entry.pool.now rules.entry.rows.now (length rules.entry.rows.now)) }
{
    for row in rules.rows {
        if is_violated(*row, rules.pool, m) {
            return true;
        }
    }
    false
}

// Whether two sets agree on the atoms 1 to n.
pub fn same(m: AtomSet<'_>, x: AtomSet<'_>, n: usize) -> bool
    requires { n ≤ 1024 }
    ensures { result ≡ same n (set_of m.entry.bytes.now) (set_of x.entry.bytes.now) }
{
    for a in 1..n + 1 {
        if m.has(a) != x.has(a) {
            return false;
        }
    }
    true
}

// Whether the set `m` is a stable model of the rules.
pub fn is_stable(rules: RuleTable<'_>, m: AtomSet<'_>) -> Stability
    ensures { result ≡ stability_of rules.entry.atoms (rules_of rules.entry.pool.now rules.entry.rows.now (length rules.entry.rows.now)) (set_of m.entry.bytes.now) }
{
    if any_violated(rules, m) {
        return Stability::Violated;
    }
    // Kept: an array of document 01's size, since nothing here takes memory from the heap.
    let mut x = [0u8; 1025];
    close(rules, m, &mut x);
    if same(m, AtomSet { bytes: &x }, rules.atoms) {
        Stability::Stable
    } else {
        Stability::NotLeast
    }
}
