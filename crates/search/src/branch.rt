// Where to branch on an open trail. Document 01 leaves it free; docs/DECISIONS.md says why this way.
ghost use Rattle.std.specs.Prelude.{◌≡◌, ◌≤◌, length};
ghost use Rattle.asp.specs.Sets.{set_of};
ghost use Rattle.search.specs.Branch.{Noted, DecidedBelow, LowestIs, lowest_of, free_literal, free_branch, branch_of};
ghost use Rattle.search.specs.Lent.{branch_lent};
ghost use Rattle.search.specs.Soft.{ReadableWishes};

use crate::scan::Found;
use crate::soft::{Wishes, undecided};
use asp::literal;

// The lowest undecided atom, where all below `start` are decided; n where there is none below it.
pub fn lowest(value: &[u8; 1025], n: usize, start: usize) -> usize
    requires n_bound { n ≤ 1024 }
    requires decided_below { DecidedBelow value.now start }
    ensures { LowestIs value.now n result }
{
    for a in start.max(1)..n {
        if value[a] == 0 {
            return a;
        }
    }
    n
}

// The literal of atom a to try first: in, if the table says so.
fn free_literal(tried: &[u8; 1025], a: usize) -> i32
    requires { a ≤ 1024 }
    ensures { result ≡ free_literal (set_of tried.now) a }
{
    if tried[a] == 1 {
        literal::positive(a)
    } else {
        literal::negative(a)
    }
}

// Where no literal would break a rule: the first undecided wished literal; else that of a, the lowest undecided atom.
fn free_branch(tried: &[u8; 1025], wished: &[i32], n: usize, value: &[u8; 1025], a: usize) -> i32
    requires le_n { 1 ≤ n }
    requires n_bound { n ≤ 1024 }
    requires a_value { a ≡ lowest_of value.now n }
    requires readable_wishes { ReadableWishes wished.now (length wished.now) }
    ensures { result ≡ free_branch (set_of tried.now) wished.now (length wished.now) value.now n }
{
    match undecided(wished, value) {
        Some(l) => l,
        None => free_literal(tried, a),
    }
}

// The literal to add: the complement of the one that would break a rule, else a free one.
pub fn branch(
    found: Found,
    tried: &[u8; 1025],
    wished: &[i32],
    n: usize,
    value: &[u8; 1025],
    a: usize,
) -> i32
    requires le_n { 1 ≤ n }
    requires n_bound { n ≤ 1024 }
    requires noted { Noted found }
    requires a_value { a ≡ lowest_of value.now n }
    requires readable_wishes { ReadableWishes wished.now (length wished.now) }
    ensures { result ≡ branch_of (set_of tried.now) wished.now (length wished.now) value.now n found }
{
    match found {
        Found::Breaker(l) => literal::complement(l),
        Found::Broken(_) | Found::Clear => free_branch(tried, wished, n, value, a),
    }
}

impl Wishes<'_> {
    // The literal to add, by these wishes.
    pub fn branch(&self, found: Found, value: &[u8; 1025], a: usize) -> i32
        requires le_n { 1 ≤ self.now.atoms }
        requires noted { Noted found }
        requires a_value { a ≡ lowest_of value.now self.now.atoms }
        ensures { result ≡ branch_lent self.now value.now found }
    {
        branch(found, self.tried, self.literals, self.atoms, value, a)
    }
}
