// Numbers, atoms and literals: each by form, range and accepted part.
ghost use Rattle.std.specs.Prelude.{List, ◌≡◌, ℕ, ◌≤◌, nat_abs, IfOk};
ghost use Rattle.aspif_fields.specs.Fields.{within, ranged, number, field, natural, signed, atom, literal};
ghost use Rattle.aspif_fields.specs.SeenFields.{read};

use super::refusal::Refusal;
use super::token::Rest;
use asp::literal::positive;

pub const MOST_ATOMS: usize = 1024; // document 01: "atom 1 to 1,024"

const MOST_LITERAL: u32 = 1024; // the same without the sign

pub const MOST_COUNT: usize = 1024; // "each count 0 to 1,024"

fn is_within(v: usize, lo: usize, hi: usize) -> bool
    ensures { result ≡ within lo hi v }
{
    (lo..=hi).contains(&v)
}

// A number from lo to hi; any other is refused.
fn in_range(value: usize, lo: usize, hi: usize) -> Result<usize, Refusal>
    ensures answer { (rest : List ℕ) → read result rest ≡ ranged lo hi value rest }
    ensures range { IfOk result (λ v. (lo ≤ v) × (v ≤ hi)) }
{
    if is_within(value, lo, hi) {
        Ok(value)
    } else {
        Err(Refusal::OutOfRange)
    }
}

impl<'a> Rest<'a> {
    // A number, by form and range.
    #[tactic(auto, using(crate::proofs::Tokens::numbered, crate::proofs::Tokens::unnumbered), unfolding(crate::specs::Fields::number))]
    pub fn read_number(&mut self, lo: usize, hi: usize) -> Result<usize, Refusal>
        requires { hi ≤ 1000000000 }
        ensures answer { read result self.new.bytes.now ≡ number lo hi self.old.bytes.now }
        ensures range { IfOk result (λ v. (lo ≤ v) × (v ≤ hi)) }
    {
        let Some(value) = self.read_token() else {
            return Err(Refusal::Malformed);
        };
        in_range(value, lo, hi)
    }

    // A space, and a number.
    #[tactic(auto, using(crate::proofs::Tokens::natural_token, crate::proofs::Tokens::numbered, crate::proofs::Tokens::unnumbered))]
    pub fn read_natural(&mut self, lo: usize, hi: usize) -> Result<usize, Refusal>
        requires { hi ≤ 1000000000 }
        ensures answer { read result self.new.bytes.now ≡ natural lo hi self.old.bytes.now }
        ensures range { IfOk result (λ v. (lo ≤ v) × (v ≤ hi)) }
    {
        let Some(value) = self.read_field_token() else {
            return Err(Refusal::Malformed);
        };
        in_range(value, lo, hi)
    }

    // A space, and a number that may have a minus, from -hi to hi.
    #[tactic(auto, using(crate::proofs::Tokens::signed_token_lem, crate::proofs::Tokens::signed_numbered, crate::proofs::Tokens::signed_unnumbered), unfolding(crate::specs::Fields::signed))]
    pub fn read_signed(&mut self, hi: u32) -> Result<i32, Refusal>
        requires { hi ≤ 1000000 }
        ensures answer { read result self.new.bytes.now ≡ field (signed hi) self.old.bytes.now }
        ensures range { IfOk result (λ z. nat_abs z ≤ hi) }
    {
        let Some(value) = self.read_signed_token() else {
            return Err(Refusal::Malformed);
        };
        if hi < value.unsigned_abs() {
            return Err(Refusal::OutOfRange);
        }
        Ok(value)
    }

    // A space, and an atom.
    #[tactic(auto, unfolding(crate::specs::Fields::atom))]
    pub fn read_atom(&mut self) -> Result<i32, Refusal>
        ensures answer { read result self.new.bytes.now ≡ atom self.old.bytes.now }
        ensures range { IfOk result (λ z. nat_abs z ≤ 1024) }
    {
        let value = self.read_natural(1, MOST_ATOMS)?;
        Ok(positive(value))
    }

    // A space, and a literal.
    #[tactic(auto, unfolding(crate::specs::Fields::literal))]
    pub fn read_literal(&mut self) -> Result<i32, Refusal>
        ensures answer { read result self.new.bytes.now ≡ literal self.old.bytes.now }
        ensures range { IfOk result (λ z. nat_abs z ≤ 1024) }
    {
        let value = self.read_signed(MOST_LITERAL)?;
        if value == 0 {
            return Err(Refusal::OutOfRange);
        }
        Ok(value)
    }
}
