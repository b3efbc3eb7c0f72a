// What a set costs on each level, and the comparison of costs.
ghost use Rattle.std.specs.Prelude.{◌≡◌, ◌++◌, ◌≤◌, nat_abs, length, take, drop};
ghost use Rattle.std.specs.Int.Signed.{lt_z};
ghost use Rattle.asp.specs.Sets.{set_of};
ghost use Rattle.asp.specs.Cost.{cost, start, level, costs_at, starts_at, cheaper};
ghost use Rattle.asp.specs.Paying.{EntriesFormed, paid, taken};

use crate::atoms::AtomSet;
use crate::entries::Entry;

// The levels, highest priority first, and the entries on all of them.
#[derive(Clone, Copy)]
pub struct Objective<'a> {
    pub levels: &'a [i32],
    pub entries: &'a [Entry],
    pub ghost formed: { EntriesFormed entries.now },
}

// What an entry costs on the level of a priority.
fn paid(e: Entry, priority: i32, m: AtomSet<'_>) -> i64
    requires { nat_abs e.literal ≤ 1024 }
    ensures paid { result ≡ paid (set_of m.entry.bytes.now) priority e }
    ensures small { nat_abs result ≤ 2147483648 }
{
    if priority == e.priority && m.holds(e.literal) {
        i64::from(e.weight)
    } else {
        0
    }
}

// What it takes off the start of that level: its weight, if that is negative.
fn taken(e: Entry, priority: i32) -> i64
    ensures taken { result ≡ taken priority e }
    ensures small { nat_abs result ≤ 2147483648 }
{
    if priority == e.priority && e.weight < 0 {
        i64::from(e.weight)
    } else {
        0
    }
}

impl Objective<'_> {
    // What a set costs on the level of a priority.
    pub fn level_cost(self, priority: i32, m: AtomSet<'_>) -> i64
        ensures { result ≡ cost (set_of m.entry.bytes.now) (level priority self.entry.entries.now) }
    {
        let mut sum: i64 = 0;
        for e in self.entries {
            sum += paid(*e, priority, m);
        }
        sum
    }

    // Where the lower bound of that level starts: the sum of its negative weights.
    pub fn level_start(self, priority: i32) -> i64
        ensures { result ≡ start (level priority self.entry.entries.now) }
    {
        let mut sum: i64 = 0;
        for e in self.entries {
            sum += taken(*e, priority);
        }
        sum
    }

    // What a set costs on each level, at the front of `costs`.
    pub fn level_costs(self, m: AtomSet<'_>, costs: &mut [i64; 8])
        requires { length self.levels.now ≤ 8 }
        ensures { costs.new ≡ costs_at (set_of m.entry.bytes.now) self.entry.levels.now self.entry.entries.now ++ drop (length self.entry.levels.now) costs.old }
    {
        for (i, priority) in self.levels.iter().enumerate() {
            costs[i] = self.level_cost(*priority, m);
        }
    }

    // Where the lower bound of each level starts, at the front of `starts`.
    pub fn level_starts(self, starts: &mut [i64; 8])
        requires { length self.levels.now ≤ 8 }
        ensures { starts.new ≡ starts_at self.entry.levels.now self.entry.entries.now ++ drop (length self.entry.levels.now) starts.old }
    {
        for (i, priority) in self.levels.iter().enumerate() {
            starts[i] = self.level_start(*priority);
        }
    }
}

// Whether the figures of `a` are cheaper than those of `b`: less at the first place where they differ.
#[tactic(auto, using(crate::proofs::Lexicographic::less_is_cheaper))]
pub fn is_cheaper(a: &[i64], b: &[i64]) -> bool
    requires { length a.now ≡ length b.now }
    ensures { result ≡ cheaper lt_z a.now b.now }
{
    a < b
}
