// The body of a rule: `0 k literals`, or, order 2, `1 bound k` and k pairs of literal and weight.
ghost use Rattle.std.specs.Prelude.{◌≡◌, ◌+◌, ◌≤◌, true, not, length, pos, IfOk};
ghost use Rattle.asp.specs.Literal.{one_signed};
ghost use Rattle.asp.specs.Program.{All, LiteralIn};
ghost use Rattle.asp.specs.Tables.{is_weighted, is_mixed};
ghost use Rattle.aspif_fields.specs.SeenFields.{read_as};
ghost use Rattle.aspif_lines.specs.Text.{normal_body, weighted_body, body_field};
ghost use Rattle.aspif_lines.specs.Seen.{body_in, BodyGood, Kept};

use super::members::read_members;
use super::weighted::{is_one_signed, read_weights};
use asp::rules::BodyKind;
use aspif_fields::field::MOST_COUNT;
use aspif_fields::refusal::Refusal;
use aspif_fields::token::Rest;

const MOST_BOUND: usize = 1000000000; // order 2: "Bound is 0 to 1,000,000,000"

// A body in the pool: how many literals it has, and the highest atom so far.
#[derive(Clone, Copy, PartialEq, Eq, Debug)]
pub struct BodyPart {
    pub kind: BodyKind,
    pub count: usize,
    pub top: usize,
}

// Of a body with these literals and their weights.
#[tactic(auto, unfolding(asp::specs::Tables::is_weighted, asp::specs::Tables::is_mixed))]
fn weighed_kind(literals: &[i32]) -> BodyKind
    requires { All (LiteralIn 1024) literals.now }
    ensures weighed { is_weighted result ≡ true }
    ensures signed { is_mixed result ≡ not (one_signed literals.now) }
{
    if is_one_signed(literals) {
        BodyKind::Weighted
    } else {
        BodyKind::Mixed
    }
}

// `k literals`
#[tactic(auto, unfolding(crate::specs::Text::normal_body, asp::specs::Tables::is_weighted))]
fn read_normal(
    rest: &mut Rest,
    pool: &mut [i32],
    used: usize,
    start: usize,
) -> Result<BodyPart, Refusal>
    requires { used + 1024 ≤ length pool.old }
    ensures answer { read_as (body_in pool.new used) result rest.new.bytes.now ≡ normal_body rest.old.bytes.now }
    ensures good { IfOk result (BodyGood pool.new used start) }
    ensures kept { Kept (pos 0) used pool.old pool.new }
{
    let kind = BodyKind::Normal;
    let count = rest.read_natural(0, MOST_COUNT)?;
    let top = read_members(rest, |rest| rest.read_literal(), count, pool, used, start)?;
    Ok(BodyPart { kind, count, top })
}

// `bound k` and k pairs: the bound is stored behind the literals.
#[tactic(auto, unfolding(crate::specs::Text::weighted_body))]
fn read_weighted(
    rest: &mut Rest,
    pool: &mut [i32],
    used: usize,
    start: usize,
) -> Result<BodyPart, Refusal>
    requires { used + 2049 ≤ length pool.old }
    ensures answer { read_as (body_in pool.new used) result rest.new.bytes.now ≡ weighted_body rest.old.bytes.now }
    ensures good { IfOk result (BodyGood pool.new used start) }
    ensures kept { Kept (pos 0) used pool.old pool.new }
{
    let bound = rest.read_natural(0, MOST_BOUND)?;
    let count = rest.read_natural(0, MOST_COUNT)?;
    let top = read_weights(rest, count, pool, used, start)?;
    // Kept: the cast, since 1,000,000,000 fits: `try_from` would want a refusal for a number that cannot be.
    pool[used + count] = bound as i32;
    let kind = weighed_kind(&pool[used..used + count]);
    Ok(BodyPart { kind, count, top })
}

// `b` and what it leads to.
#[tactic(auto, unfolding(crate::specs::Text::body_field))]
pub fn read_body(
    rest: &mut Rest,
    pool: &mut [i32],
    used: usize,
    start: usize,
) -> Result<BodyPart, Refusal>
    requires { used + 2049 ≤ length pool.old }
    ensures answer { read_as (body_in pool.new used) result rest.new.bytes.now ≡ body_field rest.old.bytes.now }
    ensures good { IfOk result (BodyGood pool.new used start) }
    ensures kept { Kept (pos 0) used pool.old pool.new }
{
    if rest.read_natural(0, 1)? == 1 {
        read_weighted(rest, pool, used, start)
    } else {
        read_normal(rest, pool, used, start)
    }
}
