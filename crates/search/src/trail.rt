// The trail (document 01's path): 1,024 places, their marks, the value of each atom; and its length. The moves over many places are in `stepping`.
ghost use Rattle.std.specs.Prelude.{◌≡◌, ◌-◌, ◌<◌, ◌≤◌, get_or, pos, nat_abs};
ghost use Rattle.search.specs.Places.{is_decision, fresh_places, put_of, drop_of};

use crate::value;
use asp::literal;

// "marked first or second": a decision, or the complement of one after a conflict; a free place is neither.
#[derive(Clone, Copy, PartialEq, Eq, Debug)]
pub enum Mark {
    Free,
    Decision,
    Flipped,
}

impl Mark {
    pub fn is_decision(self) -> bool
        ensures { result ≡ is_decision self }
    {
        matches!(self, Mark::Decision)
    }
}

// Kept: arrays, since "a fresh path has 1,024 empty places"; the values are bytes, since they are lent as the set of the atoms that are in (`AtomSet`).
#[derive(Clone, Copy)]
pub struct Places {
    pub lits: [i32; 1024],
    pub marks: [Mark; 1024],
    pub value: [u8; 1025],
    pub len: usize,
}

impl Places {
    // "A fresh path has 1,024 empty places"
    pub fn fresh() -> Places
        ensures { result ≡ fresh_places }
    {
        Places {
            lits: [0; 1024],
            marks: [Mark::Free; 1024],
            value: [0; 1025],
            len: 0,
        }
    }

    // A literal is added, with its mark.
    pub fn put(&mut self, l: i32, mark: Mark)
        requires { (self.old.len < 1024) × (nat_abs l ≤ 1024) }
        ensures { self.new ≡ put_of l mark self.old }
    {
        self.lits[self.len] = l;
        self.marks[self.len] = mark;
        self.value[literal::atom(l)] = value::side(l);
        self.len += 1;
    }

    // The last literal is taken away: its place is free again.
    pub fn take(&mut self) -> i32
        requires { (0 < self.old.len) × (self.old.len ≤ 1024) × (nat_abs (get_or self.old.lits (self.old.len - 1) (pos 0)) ≤ 1024) }
        ensures trail { self.new ≡ drop_of (self.old.len - 1) self.old }
        ensures literal { result ≡ get_or self.old.lits (self.old.len - 1) (pos 0) }
    {
        let k = self.len - 1;
        let l = self.lits[k];
        self.lits[k] = 0;
        self.marks[k] = Mark::Free;
        self.value[literal::atom(l)] = 0;
        self.len = k;
        l
    }
}
