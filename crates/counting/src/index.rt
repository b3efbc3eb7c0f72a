// Lists of rules: by condition, or by head atom.
ghost use Rattle.counting.specs.Shape.{Shape};

// The rules in which a literal is a condition, or an atom is a head (or one that a weighted body names): list i has the places from `starts` at i to `starts` at i + 1 of `rules`.
// Kept: arrays of the sizes that document 01's limits give, since nothing here takes memory from the heap.
#[derive(Clone, Copy)]
pub struct Index {
    pub starts: [u16; 3076],
    pub rules: [u16; 16385],
    pub ghost shape: { Shape starts rules },
}

// Such lists, lent, with as many places as there are.
#[derive(Clone, Copy)]
pub struct Lists<'a> {
    pub starts: &'a [u16],
    pub rules: &'a [u16],
    pub ghost shape: { Shape starts.now rules.now },
}

impl Index {
    ghost use Rattle.std.specs.Prelude.{◌≡◌};
    ghost use Rattle.counting.specs.Lent.{lists_lent};

    // Its lists.
    pub fn lent(&self) -> Lists<'_>
        ensures { lists_lent result ≡ self.now }
    {
        Lists {
            starts: &self.starts,
            rules: &self.rules,
        }
    }
}
