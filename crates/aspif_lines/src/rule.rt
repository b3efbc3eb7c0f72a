// `1 h m atoms` and a body: a rule.
ghost use Rattle.std.specs.Prelude.{◌≡◌, [], ◌+◌, ◌≤◌, length, pos, IfOk};
ghost use Rattle.aspif_fields.specs.SeenFields.{read_as};
ghost use Rattle.aspif_lines.specs.Text.{rule_line};
ghost use Rattle.aspif_lines.specs.Seen.{rule_in, RuleGood, Kept};

use super::body::read_body;
use super::members::{read_end, read_members};
use super::room::Pool;
use asp::rules::Row;
use aspif_fields::refusal::Refusal;
use aspif_fields::token::Rest;

// A rule by its row: its head atoms and then its body in the pool. The highest atom so far.
#[derive(Clone, Copy, PartialEq, Eq, Debug)]
pub struct RuleLine {
    pub row: Row,
    pub top: usize,
}

#[tactic(auto, unfolding(crate::specs::Text::rule_line))]
pub fn read_rule(
    rest: &mut Rest,
    pool: &mut Pool,
    used: usize,
    start: usize,
) -> Result<RuleLine, Refusal>
    requires { used + 3073 ≤ length pool.old }
    ensures answer { read_as (rule_in pool.new) result [] ≡ rule_line rest.old.bytes.now }
    ensures good { IfOk result (RuleGood pool.new used start) }
    ensures kept { Kept (pos 0) used pool.old pool.new }
{
    let opening = rest.read_opening()?;
    let heads = opening.count;
    let highest = read_members(rest, |rest| rest.read_atom(), heads, pool, used, start)?;
    let body = read_body(rest, pool, used + heads, highest)?;
    read_end(rest)?;
    // Kept: the casts, since a place of the pool is below 65,536 and a count at most 1,024: `try_from` would want a refusal for a number that cannot be.
    let row = Row {
        head: opening.head,
        body: body.kind,
        first: used as u16,
        heads: heads as u16,
        literals: body.count as u16,
    };
    Ok(RuleLine { row, top: body.top })
}
