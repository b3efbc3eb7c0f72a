// One soft literal: its record.
ghost use Rattle.std.specs.Prelude.{◌≡◌, ◌≤◌};
ghost use Rattle.cores.specs.Tables.{entry_soft, core_soft, lighter_by};

// Of an entry: core 0, and the literal that violates it. The index-th of a core: literal 0. A free place is the default.
#[derive(Clone, Copy, PartialEq, Eq, Debug, Default)]
pub struct Soft {
    pub literal: i32,
    pub core: u16,
    pub index: u16,
    pub weight: u32,
}

impl Soft {
    pub fn of_entry(literal: i32, weight: u32) -> Self
        ensures { result ≡ entry_soft literal weight }
    {
        Soft {
            literal,
            core: 0,
            index: 0,
            weight,
        }
    }

    pub fn of_core(core: usize, index: usize, weight: u32) -> Self
        requires core_bound { core ≤ 4096 }
        requires index_bound { index ≤ 4096 }
        ensures { result ≡ core_soft core index weight }
    {
        // Kept: casts, as Rattle has no `From` here; the bound stands in the contract, and `try_from` would want an answer for what cannot be.
        Soft {
            literal: 0,
            core: core as u16,
            index: index as u16,
            weight,
        }
    }

    // The same soft literal, with that much weight less.
    pub fn lighter(self, s: u32) -> Self
        ensures { result ≡ lighter_by s self }
    {
        Soft {
            weight: self.weight.saturating_sub(s),
            ..self
        }
    }
}
