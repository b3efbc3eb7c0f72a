// Order 2: k pairs of literal and weight, stored in a pool.
ghost use Rattle.std.specs.Prelude.{◌≡◌, [], ◌+◌, ◌≤◌, max, length, pos, nat_abs, IfOk};
ghost use Rattle.asp.specs.Literal.{occurs_among, one_signed};
ghost use Rattle.asp.specs.Program.{All, LiteralIn, highest};
ghost use Rattle.asp.specs.Tables.{literals_at, pairs_at};
ghost use Rattle.aspif_fields.specs.Fields.{weighed_field};
ghost use Rattle.aspif_fields.specs.SeenFields.{read_into};
ghost use Rattle.aspif_lines.specs.Text.{more};
ghost use Rattle.aspif_lines.specs.Seen.{Kept};

use asp::literal::{atom, complement};
use aspif_fields::pair::Pair;
use aspif_fields::refusal::Refusal;
use aspif_fields::token::Rest;

// k pairs: the literals in the pool from `used` on, then a place for the bound, then the weights. The highest atom so far.
// Kept: beside `read_members`, since a pair goes to two places.
pub fn read_weights(
    rest: &mut Rest,
    k: usize,
    pool: &mut [i32],
    used: usize,
    start: usize,
) -> Result<usize, Refusal>
    requires { used + k + 1 + k ≤ length pool.old }
    ensures answer { read_into result (pairs_at pool.new (k + 1) used k) rest.new.bytes.now ≡ more weighed_field k [] rest.old.bytes.now }
    ensures top { IfOk result (λ t. t ≡ max start (highest nat_abs (literals_at pool.new used k))) }
    ensures kept { Kept (pos 0) used pool.old pool.new }
{
    let mut top = start;
    for i in 0..k {
        let Pair { literal, weight } = rest.read_weighed()?;
        pool[used + i] = literal;
        pool[used + i + k + 1] = weight;
        top = top.max(atom(literal));
    }
    Ok(top)
}

// Whether the literal is one of these.
fn occurs(literals: &[i32], l: i32) -> bool
    ensures { result ≡ occurs_among l literals.now }
{
    literals.contains(&l)
}

// Whether each atom of the literals stands with one sign only.
pub fn is_one_signed(literals: &[i32]) -> bool
    requires { All (LiteralIn 1024) literals.now }
    ensures { result ≡ one_signed literals.now }
{
    let mut rest = literals;
    while let Some((l, others)) = rest.split_first() {
        if occurs(others, complement(*l)) {
            return false;
        }
        rest = others;
    }
    true
}
