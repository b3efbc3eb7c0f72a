// Sets of atoms, as lent bytes by atom: 1 for an atom in the set.
ghost use Rattle.std.specs.Prelude.{◌≡◌, ◌≤◌, ◌<◌, length, nat_abs};
ghost use Rattle.asp.specs.Sets.{set_of};
ghost use Rattle.asp.specs.Stable.{holds, holds_in, all_hold};
ghost use Rattle.asp.specs.Program.{All, LiteralIn};

use crate::literal;

#[derive(Clone, Copy)]
pub struct AtomSet<'a> {
    pub bytes: &'a [u8],
    pub ghost long: { 1024 < length bytes.now },
}

impl AtomSet<'_> {
    // Kept: the bounds of an atom and of a literal stand in contracts here, as in `literal`.
    pub fn has(self, a: usize) -> bool
        requires { a ≤ 1024 }
        ensures { result ≡ set_of self.entry.bytes.now a }
    {
        literal::has(self.bytes, a)
    }

    // Whether a literal holds in the set.
    pub fn holds(self, l: i32) -> bool
        requires { nat_abs l ≤ 1024 }
        ensures { result ≡ holds (set_of self.entry.bytes.now) l }
    {
        literal::holds(self.bytes, l)
    }

    // Whether a literal holds, a negated one looked up in this set and a positive one in `x`.
    pub fn holds_in(self, x: AtomSet<'_>, l: i32) -> bool
        requires { nat_abs l ≤ 1024 }
        ensures { result ≡ holds_in (set_of self.entry.bytes.now) (set_of x.entry.bytes.now) l }
    {
        literal::holds_in(self.bytes, x.bytes, l)
    }

    // Whether all of the literals do.
    pub fn all_hold(self, x: AtomSet<'_>, literals: &[i32]) -> bool
        requires { All (LiteralIn 1024) literals.now }
        ensures { result ≡ all_hold (set_of self.entry.bytes.now) (set_of x.entry.bytes.now) literals.now }
    {
        for l in literals {
            if !self.holds_in(x, *l) {
                return false;
            }
        }
        true
    }
}
