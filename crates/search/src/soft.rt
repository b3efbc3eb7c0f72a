// The assumed soft literals of entries (document 01's wishes): each is the literal that it wishes for, and is violated where that does not hold.
ghost use Rattle.std.specs.Prelude.{◌≡◌, ◌≤◌, length};
ghost use Rattle.asp.specs.Sets.{set_of};
ghost use Rattle.search.specs.Soft.{assumed_entries, ReadableWishes, ReadableSoft, first_of, wish_of};

use crate::value::truth;

// Of a program with the atoms 1 to `atoms`: the literal that each one wishes for; 1 where it is blamed already; and, by atom, 1 for one that a free branch tries in first.
#[derive(Clone, Copy)]
pub struct Wishes<'a> {
    pub atoms: usize,
    pub literals: &'a [i32],
    pub blamed: &'a [u8],
    pub tried: &'a [u8; 1025],
    pub ghost few: { atoms ≤ 1024 },
    pub ghost readable: { ReadableSoft (assumed_entries literals.now blamed.now (length literals.now) (set_of tried.now)) },
}

fn first_of(found: Option<usize>, i: usize) -> Option<usize>
    ensures { result ≡ first_of found i }
{
    found.or(Some(i))
}

// The first wished literal whose atom is undecided.
pub fn undecided(literals: &[i32], value: &[u8; 1025]) -> Option<i32>
    requires { ReadableWishes literals.now (length literals.now) }
    ensures { result ≡ wish_of literals.now (length literals.now) value.now }
{
    for l in literals {
        if truth(value, *l) == 0 {
            return Some(*l);
        }
    }
    None
}

impl Wishes<'_> {
    ghost use Rattle.search.specs.Soft.{violated_of};
    ghost use Rattle.search.specs.Lent.{assumed_lent};

    // The first one that is violated and blamed already; else the first that is violated; None, where none is.
    pub fn violated(&self, value: &[u8; 1025]) -> Option<usize>
        ensures { result ≡ violated_of (assumed_lent self.now) value.now }
    {
        let mut found = None;
        for (i, l) in self.literals.iter().enumerate() {
            if truth(value, *l) != 2 {
                continue;
            }
            if self.blamed[i] == 1 {
                return Some(i);
            }
            found = first_of(found, i);
        }
        found
    }

    // The first wished literal whose atom is undecided.
    pub fn undecided(&self, value: &[u8; 1025]) -> Option<i32>
        ensures { result ≡ wish_of self.now.literals.now (length self.now.literals.now) value.now }
    {
        undecided(self.literals, value)
    }
}
