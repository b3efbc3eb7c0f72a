// The tables of the level in work, and opening it from the entries.
ghost use Rattle.std.specs.Prelude.{◌≡◌, ℕ, ◌≤◌, ◌<◌, nat_abs, length, take};
ghost use Rattle.asp.specs.Cost.{level};
ghost use Rattle.asp.specs.Penalty.{penalties};
ghost use Rattle.asp.specs.Tables.{entry_at};
ghost use Rattle.cores.specs.Tables.{empty_tables, weighs_on, opened_tables, held_in};

use crate::recording;
use crate::soft::Soft;
use crate::softs::put_soft;
use asp::entries::Entry;

// A number stands between two tables: the compiler then keeps each table apart, and copies one where one changes.
// Kept: the tables are arrays with their counts beside them, since a library takes nothing from the heap and recording may not fail for memory.
// Kept: that they are in shape is `FormedTables` in the contracts that need it and no ghost field, since specs/ say what recording makes of any tables.
#[derive(Clone, Copy)]
pub struct LevelTables {
    pub softs: [Soft; 4096],
    pub count: usize,
    // the members of all cores, one core after the other
    pub members: [u16; 4096],
    pub cores: usize,
    // where core j, counted from 1, ends in them; at 0 stands 0
    pub ends: [u16; 4097],
    pub lower: u64,
}

impl LevelTables {
    pub fn empty() -> Self
        ensures { result ≡ empty_tables }
    {
        let free = Soft::default();
        LevelTables {
            softs: [free; 4096],
            members: [0; 4096],
            ends: [0; 4097],
            count: 0,
            cores: 0,
            lower: 0,
        }
    }

    // The level of a priority: the soft literals of its entries, in text order, in emptied tables.
    pub fn opened(entries: &[Entry], priority: i32) -> Self
        requires few { length entries.now ≤ 512 }
        requires atoms { (i : ℕ) → i < length entries.now → nat_abs (entry_at entries.now i).literal ≤ 1024 }
        ensures { result ≡ opened_tables (penalties (level priority entries.now)) }
    {
        let mut t = LevelTables::empty();
        for e in entries {
            if weighs_on(*e, priority) {
                let k = t.count;
                put_soft(&mut t.softs, k, Soft::of_entry(e.paid_literal(), e.size()));
                t.count = k + 1;
            }
        }
        t
    }

    // The soft literals.
    pub fn soft_literals(&self) -> &[Soft]
        requires { self.now.count ≤ 4096 }
        ensures { result.now ≡ take self.now.count self.now.softs }
    {
        &self.softs[..self.count]
    }

    // How many members the cores have.
    pub fn held(&self) -> usize
        requires { self.now.cores ≤ 4096 }
        ensures { result ≡ held_in self.now }
    {
        recording::held(&self.ends, self.cores)
    }
}

// Whether an entry is of the level, with a weight that is not 0.
fn weighs_on(e: Entry, priority: i32) -> bool
    ensures { result ≡ weighs_on priority e }
{
    priority == e.priority && e.weight != 0
}
