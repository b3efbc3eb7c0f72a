// The sizes of the tables: document 01's limits, with room for one line beyond them, since the limits are judged after the line.
use asp::entries::Entry;
use asp::rules::Row;
use asp::symbols::SymbolRow;

pub const TEXT_ROOM: usize = 65536 + 1;

// head atoms and body literals; order 2: a bound for each rule and a weight for each literal
pub const POOL_ROOM: usize = 16384 * 2 + 2048 + 3073;

pub const RULE_ROOM: usize = 2048 + 1;

pub const ENTRY_ROOM: usize = 512 + 1024;

pub const LEVEL_ROOM: usize = 8 + 1;

pub const CONDITION_ROOM: usize = 2048 + 1024;

pub const SYMBOL_ROOM: usize = 512 + 1;

// Kept: arrays of a fixed size, of which `Counts` says how far each is filled, since a library takes nothing from the heap.
pub type Text = [u8; TEXT_ROOM];

pub type Pool = [i32; POOL_ROOM];

pub type Rules = [Row; RULE_ROOM];

pub type Entries = [Entry; ENTRY_ROOM];

pub type Levels = [i32; LEVEL_ROOM];

pub type Conditions = [i32; CONDITION_ROOM];

pub type Symbols = [SymbolRow; SYMBOL_ROOM];
