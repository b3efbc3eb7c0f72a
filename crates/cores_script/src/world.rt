// The tables of a script.
ghost use Rattle.std.specs.Prelude.{◌≡◌, ℕ, ◌≤◌, ◌<◌, ◌↔◌, nat_abs, length, take, replicate, slice_index, EachIndex, IsTrue};
ghost use Rattle.asp.specs.Tables.{no_entry, entry_at};
ghost use Rattle.cores.specs.Tables.{empty_tables, SoundTables};
ghost use Rattle.cores_script.specs.Script.{after_opening, strata_at};
ghost use Rattle.cores_script.specs.Sound.{sound_prop};

use crate::measure;
use crate::numbers::Numbers;
use crate::strata::Strata;
use asp::atoms::AtomSet;
use asp::entries::Entry;
use cores::level::LevelTables;
use std::io;

// Kept: an array with a count beside it, and the tables of a level, since no program allocates.
#[derive(Clone, Copy)]
pub struct World {
    entries: [Entry; 512],
    count: usize,
    tables: LevelTables,
    ghost few: { count ≤ 512 },
    ghost atoms: { (i : ℕ) → nat_abs (entry_at entries i).literal ≤ 1024 },
    ghost small: { (i : ℕ) → nat_abs (entry_at entries i).weight ≤ 1024 },
    ghost sound: { SoundTables tables } by { sound_prop tables },
}

impl World {
    pub fn new() -> Self
        ensures entries { result.entries ≡ replicate 512 no_entry }
        ensures count { result.count ≡ 0 }
        ensures tables { result.tables ≡ empty_tables }
    {
        // Kept: the fields of a free entry, as `Entry::default()` was tried and the proof that `entries` holds it did not close.
        let free = Entry {
            priority: 0,
            literal: 0,
            weight: 0,
        };
        World {
            entries: [free; 512],
            count: 0,
            tables: LevelTables::empty(),
        }
    }

    // An entry of the level of priority p, unless it passes a limit.
    pub fn put_entry(&mut self, p: usize, script: &mut Numbers)
        ensures { length script.new.rest.now ≤ length script.old.rest.now }
    {
        let sign = script.due();
        let atom = script.due();
        let minus = script.due();
        let weight = script.due();
        let n = self.count;
        if 512 <= n || 1000 < p || 1024 < atom || 1024 < weight {
            return;
        }
        self.entries[n] = Entry {
            priority: asp::literal::positive(p),
            literal: signed(sign, atom),
            weight: signed(minus, weight),
        };
        self.count += 1;
    }

    // The level of a priority is opened.
    pub fn open_level(&mut self, rt: &impl Print, p: usize) -> io::Result<()>
        ensures { self.new.tables ≡ after_opening self.old.tables (take self.old.count self.old.entries) p }
    {
        if 1000 < p {
            return Ok(());
        }
        self.tables = LevelTables::opened(&self.entries[..self.count], asp::literal::positive(p));
        print_tables(rt, false, &self.tables)
    }

    // A core of n places, which follow, at stratum s.
    pub fn keep_core(&mut self, rt: &impl Print, s: u32, script: &mut Numbers) -> io::Result<()>
        ensures { length script.new.rest.now ≤ length script.old.rest.now }
    {
        let n = script.due();
        if 4096 < n {
            return Ok(());
        }
        // Kept: an array, since no program allocates.
        let mut places = [0u16; 4096];
        for place in &mut places[..n] {
            *place = u16::try_from(script.due()).unwrap_or(u16::MAX);
        }
        self.record(rt, s, &places[..n])
    }

    // It is recorded, if there is room.
    fn record(&mut self, rt: &impl Print, s: u32, core: &[u16]) -> io::Result<()>
        requires { length core.now ≤ 4096 }
    {
        if core.is_empty() || 900000000 < self.tables.lower || 100000000 < s {
            return Ok(());
        }
        if !all_below(core, self.tables.count) {
            return Ok(());
        }
        let full = self.tables.try_record(core, s).is_err();
        print_tables(rt, full, &self.tables)
    }

    // What a set of n atoms violates. An atom that the script lacks is 0, and so are those after it.
    pub fn weigh_set(&self, rt: &impl Print, n: usize, script: &mut Numbers) -> io::Result<()>
        ensures { length script.new.rest.now ≤ length script.old.rest.now }
    {
        // Kept: an array, since no program allocates.
        let mut model = [0u8; 1025];
        for _ in 0..n {
            let atom = script.next();
            if let Some(b) = model.get_mut(atom.unwrap_or(0)) {
                *b = 1;
            }
            if atom.is_none() {
                break;
            }
        }
        rt.println(measure::violated_weight(&self.tables, AtomSet { bytes: &model }))
    }

    // The next stratum below s, how many are assumed at s, and how many of them are an entry's.
    pub fn strata(&self, s: u32) -> Strata
        ensures { result ≡ strata_at s (take self.now.tables.count self.now.tables.softs) }
    {
        Strata::of(&self.tables, s)
    }
}

fn all_below(places: &[u16], n: usize) -> bool
    ensures { IsTrue result ↔ EachIndex places.now (λ k. slice_index places.now k < n) }
{
    places.iter().all(|p| usize::from(*p) < n)
}

// A literal or a weight, by its sign.
fn signed(minus: usize, a: usize) -> i32
    requires { a ≤ 1024 }
    ensures { nat_abs result ≤ 1024 }
{
    if minus == 0 {
        asp::literal::positive(a)
    } else {
        asp::literal::negative(a)
    }
}

fn print_tables(rt: &impl Print, full: bool, t: &LevelTables) -> io::Result<()> {
    println!(rt; "{} {} {}", u8::from(full), t.lower, t.count)
}
