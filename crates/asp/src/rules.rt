// The tables of rules: a pool of literals, and a row for each rule that says where its head and its body stand there (specs/Tables.antt).
ghost use Rattle.std.specs.Prelude.{◌≡◌, true, ◌+◌, ◌≤◌, ◌<◌, nat_abs, nat_le, length, get_or, drop};
ghost use Rattle.asp.specs.Sets.{set_of};
ghost use Rattle.asp.specs.Stable.{pair_counts, counts, body_holds};
ghost use Rattle.asp.specs.Tables.{is_choice, is_weighted, is_mixed, literals_at, row_pairs, bound_at, rule_at, Formed};
ghost use Rattle.asp.specs.Growth.{PairsFormed, RowPairs, RowFormed, weighed, pairs_of};
ghost use Rattle.std.proofs.Props.{props};
ghost use Rattle.asp.specs.Alone.{rules_in-prop};

use crate::atoms::AtomSet;
use crate::literal::part;

#[derive(Clone, Copy, PartialEq, Eq, Debug, Default)]
pub enum HeadKind {
    #[default]
    Plain,
    Choice,
}

#[derive(Clone, Copy, PartialEq, Eq, Debug, Default)]
pub enum BodyKind {
    #[default]
    Normal,
    // order 2: a bound that the weights of pairs have to reach; each atom stands with one sign
    Weighted,
    // some atom stands with both signs
    Mixed,
}

impl HeadKind {
    #[tactic(auto, unfolding(crate::specs::Tables::is_choice))]
    pub fn is_choice(self) -> bool
        ensures { result ≡ is_choice self }
    {
        matches!(self, HeadKind::Choice)
    }
}

impl BodyKind {
    #[tactic(auto, unfolding(crate::specs::Tables::is_weighted))]
    pub fn is_weighted(self) -> bool
        ensures { result ≡ is_weighted self }
    {
        !matches!(self, BodyKind::Normal)
    }

    #[tactic(auto, unfolding(crate::specs::Tables::is_mixed))]
    pub fn is_mixed(self) -> bool
        ensures { result ≡ is_mixed self }
    {
        matches!(self, BodyKind::Mixed)
    }
}

#[derive(Clone, Copy, PartialEq, Eq, Debug, Default)]
pub struct Row {
    pub head: HeadKind,
    pub body: BodyKind,
    // its first place in the pool
    pub first: u16,
    // how many head atoms stand there, and how many body literals after them
    pub heads: u16,
    pub literals: u16,
}

// The literals and weights of a weighted body, as far as they stand side by side.
#[derive(Clone, Copy)]
pub struct Pairs<'a> {
    pub literals: &'a [i32],
    pub weights: &'a [i32],
    pub ghost formed: { PairsFormed literals.now weights.now },
}

// What a pair counts: a positive literal is looked up in `x`, a negated one in `m`.
// Kept: the bound of a literal stands in the contract, as in `literal`.
fn counted(l: i32, w: i32, m: AtomSet<'_>, x: AtomSet<'_>) -> u64
    requires { nat_abs l ≤ 1024 }
    ensures value { result ≡ pair_counts (set_of m.entry.bytes.now) (set_of x.entry.bytes.now) (weighed l w) }
    ensures small { result < 4294967296 }
{
    if m.holds_in(x, l) {
        u64::from(w.unsigned_abs())
    } else {
        0
    }
}

impl<'a> Pairs<'a> {
    // Those from place i on.
    pub fn after(self, i: usize) -> Pairs<'a>
        requires { i ≤ length self.literals.now }
        ensures literals { result.literals.now ≡ drop i self.entry.literals.now }
        ensures weights { result.weights.now ≡ drop i self.entry.weights.now }
    {
        Pairs {
            literals: &self.literals[i..],
            weights: &self.weights[i..],
        }
    }

    // What they count.
    pub fn counts(self, m: AtomSet<'_>, x: AtomSet<'_>) -> u64
        ensures { result ≡ counts (set_of m.entry.bytes.now) (set_of x.entry.bytes.now) (pairs_of self.entry.literals.now self.entry.weights.now) }
    {
        let mut sum: u64 = 0;
        for (i, l) in self.literals.iter().enumerate() {
            sum += counted(*l, self.weights[i], m, x);
        }
        sum
    }
}

impl Row {
    // Where its body begins in the pool.
    pub fn body_first(self) -> usize
        ensures value { result ≡ self.first + self.heads }
        ensures small { result < 131072 }
    {
        usize::from(self.first) + usize::from(self.heads)
    }

    // Its head atoms, as literals.
    pub fn head_atoms(self, pool: &[i32]) -> &[i32]
        requires { self.first + self.heads ≤ length pool.now }
        ensures { result.now ≡ literals_at pool.now self.first self.heads }
    {
        part(pool, usize::from(self.first), usize::from(self.heads))
    }

    // The literals of its body.
    pub fn body_literals(self, pool: &[i32]) -> &[i32]
        requires { self.first + self.heads + self.literals ≤ length pool.now }
        ensures { result.now ≡ literals_at pool.now (self.first + self.heads) self.literals }
    {
        part(pool, self.body_first(), usize::from(self.literals))
    }

    // The bound of its weighted body.
    pub fn bound(self, pool: &[i32]) -> u64
        requires { self.first + self.heads + self.literals < length pool.now }
        ensures bound { result ≡ bound_at pool.now self }
        ensures small { result < 4294967296 }
    {
        let at = self.body_first() + usize::from(self.literals);
        u64::from(pool[at].unsigned_abs())
    }

    // The pairs of its weighted body.
    pub fn pairs<'a>(self, pool: &'a [i32]) -> Pairs<'a>
        requires { RowPairs pool.now self }
        ensures { pairs_of result.literals.now result.weights.now ≡ row_pairs pool.now self }
    {
        let literals = self.body_literals(pool);
        let at = self.body_first() + usize::from(self.literals) + 1;
        let weights = part(pool, at, usize::from(self.literals));
        Pairs { literals, weights }
    }

    // Whether its body holds: a positive literal is looked up in `x`, a negated one in `m`.
    pub fn body_holds(self, pool: &[i32], m: AtomSet<'_>, x: AtomSet<'_>) -> bool
        requires { RowFormed pool.now self }
        ensures { result ≡ body_holds (set_of m.entry.bytes.now) (set_of x.entry.bytes.now) (rule_at pool.now self).body }
    {
        if self.body.is_weighted() {
            self.bound(pool) <= self.pairs(pool).counts(m, x)
        } else {
            m.all_hold(x, self.body_literals(pool))
        }
    }
}

// The rules over the atoms 1 to `atoms`.
#[derive(Clone, Copy)]
pub struct RuleTable<'a> {
    pub atoms: usize,
    pub pool: &'a [i32],
    pub rows: &'a [Row],
    pub ghost formed: { Formed atoms pool.now rows.now (length rows.now) } by { Prim.hlevel (props, rules_in-prop) },
}
