// Why a text is refused.
ghost use Rattle.std.specs.Prelude.{◌≡◌};
ghost use Rattle.aspif_fields.specs.Refusals.{refusal_number};

#[derive(Clone, Copy, PartialEq, Eq, Debug)]
pub enum Refusal {
    Header, // line 1 is missing or differs
    Malformed, // a place where a number is due and none stands, among others
    Unread, // a kind, or a part of a rule, that is not read
    OutOfRange, // a number out of range
    PastLimit, // a table limit passed
}

impl Refusal {
    // Document 01's number of it.
    pub fn number(self) -> u32
        ensures { result ≡ refusal_number self }
    {
        match self {
            Refusal::Header => 1,
            Refusal::Malformed => 2,
            Refusal::Unread => 3,
            Refusal::OutOfRange => 4,
            Refusal::PastLimit => 5,
        }
    }
}
