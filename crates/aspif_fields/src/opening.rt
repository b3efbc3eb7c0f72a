// `h m`: how a rule opens.
ghost use Rattle.std.specs.Prelude.{◌≡◌, ◌≤◌, false, IfOk};
ghost use Rattle.asp.specs.Tables.{is_choice};
ghost use Rattle.aspif_fields.specs.Fields.{opening};
ghost use Rattle.aspif_fields.specs.SeenFields.{read_as, opening_of};

use super::field::MOST_COUNT;
use super::refusal::Refusal;
use super::token::Rest;
use asp::rules::HeadKind;

// How a rule opens: what its head is, and how many atoms follow.
#[derive(Clone, Copy, PartialEq, Eq, Debug)]
pub struct Opens {
    pub head: HeadKind,
    pub count: usize,
}

impl<'a> Rest<'a> {
    #[tactic(auto, unfolding(crate::specs::Fields::opening, asp::specs::Tables::is_choice))]
    pub fn read_opening(&mut self) -> Result<Opens, Refusal>
        ensures answer { read_as opening_of result self.new.bytes.now ≡ opening self.old.bytes.now }
        ensures range { IfOk result (λ o. (o.count ≤ 1024) × (is_choice o.head ≡ false → o.count ≤ 1)) }
    {
        let head = match self.read_natural(0, 1)? {
            0 => HeadKind::Plain,
            _ => HeadKind::Choice,
        };
        let count = self.read_natural(0, MOST_COUNT)?;
        if !head.is_choice() && 1 < count {
            return Err(Refusal::Unread); // a plain head of more than one atom
        }
        Ok(Opens { head, count })
    }
}
