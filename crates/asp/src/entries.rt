// The entries of minimise lines, and their normal form: a literal that costs a natural weight where it holds (specs/Penalty.antt).
ghost use Rattle.std.specs.Prelude.{◌≡◌, ◌≤◌, nat_abs};
ghost use Rattle.asp.specs.Penalty.{paid_literal};

use crate::literal;

#[derive(Clone, Copy, PartialEq, Eq, Debug, Default)]
pub struct Entry {
    pub priority: i32,
    pub literal: i32,
    pub weight: i32,
}

impl Entry {
    // The literal that costs.
    pub fn paid_literal(self) -> i32
        requires { nat_abs self.literal ≤ 1024 }
        ensures { result ≡ paid_literal self.literal self.weight }
    {
        if self.weight < 0 {
            literal::complement(self.literal)
        } else {
            self.literal
        }
    }

    // What it costs: the weight without its sign.
    pub fn size(self) -> u32
        ensures { result ≡ nat_abs self.weight }
    {
        self.weight.unsigned_abs()
    }
}
