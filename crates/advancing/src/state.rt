// The state of one optimization.
ghost use Rattle.std.specs.Prelude.{◌≡◌};
ghost use Rattle.advancing.specs.State.{is_running};
ghost use Rattle.advancing.specs.Run.{bumped_by};

use cores::level::LevelTables;
use search::trail::Places;

// Where it stands: in the first query, on a level, or ended.
#[derive(Clone, Copy, PartialEq, Eq, Debug)]
pub enum Phase {
    First,
    Level,
    Optimum,
    Incoherent,
    Full,
}

impl Phase {
    pub fn is_running(self) -> bool
        ensures { result ≡ is_running self }
    {
        match self {
            Phase::First | Phase::Level => true,
            Phase::Optimum | Phase::Incoherent | Phase::Full => false,
        }
    }
}

// What the query has blamed: the places of soft literals, newest first, in `core` from `from` on; and, by the order in which the query assumes the soft literals of
// entries, 1 for a blamed one.
// Kept: arrays of document 01's limits, here and in `Work`, since nothing takes memory from the heap.
#[derive(Clone, Copy)]
pub struct Blame {
    pub flags: [u8; 4096],
    pub from: usize,
    pub core: [u16; 4096],
}

// What stands still during a query: the number of settled levels, which is the place of the level in work; its soft literals and cores; the stratum; the lower bounds;
// the best model, as bytes by atom, 1 for an atom in it; and its costs.
#[derive(Clone, Copy)]
pub struct Work {
    pub level: usize,
    pub tables: LevelTables,
    pub stratum: u32,
    pub lowers: [i64; 8],
    pub uppers: [i64; 8],
    pub best: [u8; 1025],
}

#[derive(Clone, Copy)]
pub struct Search {
    pub phase: Phase,
    pub advances: u64,
    pub trail: Places,
    pub blame: Blame,
    pub work: Work,
}

// What one step of a query comes to: it goes on, or ends without a model, or with the one on the trail.
#[derive(Clone, Copy, PartialEq, Eq, Debug)]
pub enum Turn {
    Going,
    Without,
    Model,
}

// What a full trail is: wanted; refuted by the rules or the settled costs; or with an assumed soft literal that it violates.
#[derive(Clone, Copy, PartialEq, Eq, Debug)]
pub enum Judgement {
    Wanted,
    Dead,
    Violated(usize),
}

// "the figure stays at 2^64 - 1"
pub fn counted(c: u64, made: u32) -> u64
    ensures { result ≡ bumped_by made c }
{
    c.saturating_add(u64::from(made))
}
