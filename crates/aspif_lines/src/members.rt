// Counted lists: the atoms of a head, the literals of a body or a condition, stored in a pool.
ghost use Rattle.std.specs.Prelude.{◌≡◌, ◌≤◌, ◌+◌, Bool, [], max, length, pos, nat_abs, true, false, IfOk, MatchResult};
ghost use Rattle.asp.specs.Program.{highest};
ghost use Rattle.asp.specs.Tables.{literals_at};
ghost use Rattle.aspif_fields.specs.Fields.{nil};
ghost use Rattle.aspif_fields.specs.Refusals.{refusal_number};
ghost use Rattle.aspif_fields.specs.SeenFields.{read_into};
ghost use Rattle.aspif_lines.specs.Text.{member_field, more};
ghost use Rattle.aspif_lines.specs.Seen.{MemberRead, Kept};

use asp::literal::atom;
use aspif_fields::refusal::Refusal;
use aspif_fields::token::Rest;

// k members, each as `member` reads it, stored in the pool from `used` on. The highest atom so far.
pub fn read_members<F: Fn(&mut Rest) -> Result<i32, Refusal>>(
    rest: &mut Rest,
    member: F,
    k: usize,
    pool: &mut [i32],
    used: usize,
    start: usize,
) -> Result<usize, Refusal>
    ghost head: { Bool }
    requires room { used + k ≤ length pool.old }
    requires can { F.IsAlwaysCallable member }
    requires reads { (x : _) (r : _) (y : _) → F.post member x r y → MemberRead head r x.now.bytes.now y.now.bytes.now }
    ensures answer { read_into result (literals_at pool.new used k) rest.new.bytes.now ≡ more (member_field head) k [] rest.old.bytes.now }
    ensures top { IfOk result (λ t. t ≡ max start (highest nat_abs (literals_at pool.new used k))) }
    ensures kept { Kept (pos 0) used pool.old pool.new }
{
    let mut top = start;
    for i in 0..k {
        let literal = member(rest)?;
        pool[used + i] = literal;
        top = top.max(atom(literal));
    }
    Ok(top)
}

// The same of a head's atoms, or of the literals of a body or a condition.
pub fn read_list(
    rest: &mut Rest,
    head: bool,
    k: usize,
    pool: &mut [i32],
    used: usize,
    start: usize,
) -> Result<usize, Refusal>
    requires { used + k ≤ length pool.old }
    ensures answer { read_into result (literals_at pool.new used k) rest.new.bytes.now ≡ more (member_field head) k [] rest.old.bytes.now }
    ensures top { IfOk result (λ t. t ≡ max start (highest nat_abs (literals_at pool.new used k))) }
    ensures kept { Kept (pos 0) used pool.old pool.new }
{
    if head {
        read_members(rest, |rest| rest.read_atom(), k, pool, used, start)
    } else {
        read_members(rest, |rest| rest.read_literal(), k, pool, used, start)
    }
}

// "with none at the ends": after the last field the line is over.
pub fn read_end(rest: &Rest) -> Result<(), Refusal>
    ensures { MatchResult result (λ u. nil rest.now.bytes.now ≡ true) (λ e. (nil rest.now.bytes.now ≡ false) × (refusal_number e ≡ 2)) }
{
    if rest.is_ended() {
        Ok(())
    } else {
        Err(Refusal::Malformed)
    }
}
