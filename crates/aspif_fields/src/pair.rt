// Pairs of literal and weight: of a minimise line, and, order 2, of a body.
ghost use Rattle.std.specs.Prelude.{◌≡◌, ◌≤◌, ℤ, nat_abs, IfOk};
ghost use Rattle.aspif_fields.specs.Fields.{pair, weighed_field};
ghost use Rattle.aspif_fields.specs.SeenFields.{read_as, entry_of, weighed_of};

use super::refusal::Refusal;
use super::token::Rest;

const MOST_WEIGHT: u32 = 1000000; // order 1: "Weights now run from -1,000,000 to 1,000,000 and may have a minus."

const MOST_BODY_WEIGHT: usize = 1000000; // order 2: "each weight 0 to 1,000,000, and a minus .. is malformed"

// A literal and its weight.
#[derive(Clone, Copy, PartialEq, Eq, Debug)]
pub struct Pair {
    pub literal: i32,
    pub weight: i32,
}

impl<'a> Rest<'a> {
    // Of a minimise line.
    #[tactic(auto, unfolding(crate::specs::Fields::pair))]
    pub fn read_pair(&mut self) -> Result<Pair, Refusal>
        ensures answer { (p : ℤ) → read_as (entry_of p) result self.new.bytes.now ≡ pair p self.old.bytes.now }
        ensures range { IfOk result (λ p. (nat_abs p.literal ≤ 1024) × (nat_abs p.weight ≤ 1000000)) }
    {
        let literal = self.read_literal()?;
        let weight = self.read_signed(MOST_WEIGHT)?;
        Ok(Pair { literal, weight })
    }

    // Of a body.
    // Kept: beside `read_pair`, since its weight is another field: one function over the weight's reader would be longer than both.
    #[tactic(auto, unfolding(crate::specs::Fields::weighed_field))]
    pub fn read_weighed(&mut self) -> Result<Pair, Refusal>
        ensures answer { read_as weighed_of result self.new.bytes.now ≡ weighed_field self.old.bytes.now }
        ensures range { IfOk result (λ p. (nat_abs p.literal ≤ 1024) × (nat_abs p.weight ≤ 1000000)) }
    {
        let literal = self.read_literal()?;
        // Kept: the cast, since 1,000,000 fits: `try_from` would want a refusal for a number that cannot be.
        let weight = self.read_natural(0, MOST_BODY_WEIGHT)? as i32;
        Ok(Pair { literal, weight })
    }
}
