// Recording a core.
ghost use Rattle.std.specs.Prelude.{◌≡◌, ◌+◌, ◌-◌, ◌<◌, ◌≤◌, length, get_or};
ghost use Rattle.std.proofs.lemmas.List.Edits.{sets};
ghost use Rattle.asp.specs.Program.{All};
ghost use Rattle.cores.specs.Level.{core_fits};
ghost use Rattle.cores.specs.Tables.{lighten, new_softs, held_in, recorded_tables, Counted, Room, tried, tried_tables};

use crate::level::LevelTables;
use crate::soft::Soft;
use crate::softs::{put_soft, soft_at};

// A core would pass a limit.
#[derive(Clone, Copy, PartialEq, Eq, Debug)]
pub struct Full;

// Each member loses s.
fn lose(softs: &mut [Soft], members: &[u16], s: u32)
    requires { All (λ m. m < length softs.old) members.now }
    ensures { softs.new ≡ lighten s members.now softs.old }
{
    for m in members {
        let m = usize::from(*m);
        let r = soft_at(softs, m);
        put_soft(softs, m, r.lighter(s));
    }
}

// n new soft literals of a core, from place k on.
fn add(softs: &mut [Soft], k: usize, n: usize, core: usize, s: u32)
    requires n_bound { k + n ≤ length softs.old }
    requires n_few { n ≤ 4096 }
    requires core_bound { core ≤ 4096 }
    ensures { softs.new ≡ sets softs.old k (new_softs core 1 n s) }
{
    for i in 0..n {
        put_soft(softs, k + i, Soft::of_core(core, i + 1, s));
    }
}

// The members, from place k on.
fn append(members: &mut [u16], k: usize, more: &[u16])
    requires { k + length more.now ≤ length members.old }
    ensures { members.new ≡ sets members.old k more.now }
{
    members[k..k + more.len()].copy_from_slice(more);
}

// Whether a core of n members passes neither limit, at `count` soft literals and `held` members.
pub fn has_room(count: usize, held: usize, n: usize) -> bool
    requires count_bound { count ≤ 4096 }
    requires held_bound { held ≤ 4096 }
    requires le_n { (1 ≤ n) × (n ≤ 4096) }
    ensures { result ≡ core_fits count held n }
{
    count + (n - 1) <= 4096 && held + n <= 4096
}

// How many members the cores have, by where each ends.
pub fn held(ends: &[u16; 4097], cores: usize) -> usize
    requires { cores ≤ 4096 }
    ensures { result ≡ get_or ends.now cores 0 }
{
    usize::from(ends[cores])
}

impl LevelTables {
    // Whether a core of n members passes neither limit.
    pub fn has_room(&self, n: usize) -> bool
        requires count_bound { self.now.count ≤ 4096 }
        requires cores_bound { self.now.cores ≤ 4096 }
        requires held_bound { held_in self.now ≤ 4096 }
        requires le_n { (1 ≤ n) × (n ≤ 4096) }
        ensures { result ≡ core_fits self.now.count (held_in self.now) n }
    {
        has_room(self.count, self.held(), n)
    }

    // A core of the places in `core` is recorded at stratum s.
    pub fn record(&mut self, core: &[u16], s: u32)
        requires room { Room self.old (length core.now) }
        requires all { All (λ m. m < 4096) core.now }
        requires s_bound { self.old.lower + s ≤ 1000000000 }
        ensures { self.new ≡ recorded_tables self.old s core.now }
    {
        let n = core.len();
        let from = self.held();
        lose(&mut self.softs, core, s);
        add(&mut self.softs, self.count, n - 1, self.cores + 1, s);
        append(&mut self.members, from, core);
        self.cores += 1;
        // Kept: a cast, as Rattle has no `From` here; the bound stands in the contract, and `try_from` would want an answer for what cannot be.
        self.ends[self.cores] = (from + n) as u16;
        self.count += n - 1;
        self.lower += u64::from(s);
    }

    // The core is recorded, unless it would pass a limit: then nothing changes.
    pub fn try_record(&mut self, core: &[u16], s: u32) -> Result<(), Full>
        requires counted { Counted self.old (length core.now) }
        requires all { All (λ m. m < 4096) core.now }
        requires s_bound { self.old.lower + s ≤ 1000000000 }
        ensures { tried result self.new ≡ tried_tables self.old s core.now }
    {
        if !self.has_room(core.len()) {
            return Err(Full);
        }
        self.record(core, s);
        Ok(())
    }
}
