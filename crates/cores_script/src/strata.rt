// What a query would take of a level at a stratum.
ghost use Rattle.std.specs.Prelude.{◌≡◌, take};
ghost use Rattle.cores.specs.Tables.{SoundTables};
ghost use Rattle.cores_script.specs.Script.{strata_at};

use cores::level::LevelTables;
use judging::query;
use std::fmt;

// The next stratum below one, how many soft literals are assumed at it, and how many of them are an entry's.
#[derive(Clone, Copy)]
pub struct Strata {
    pub next: u32,
    pub assumed: usize,
    pub entries: usize,
}

impl Strata {
    pub fn of(t: &LevelTables, s: u32) -> Self
        requires { SoundTables t.now }
        ensures { result ≡ strata_at s (take t.now.count t.now.softs) }
    {
        let softs = t.soft_literals();
        // Kept: arrays, since no program allocates.
        let mut places = [0u16; 4096];
        let mut first = [0u16; 4096];
        let mut wishes = [0i32; 4096];
        let m = query::assumed(softs, s, &mut places);
        let k = query::entries(&places[..m], softs, &mut first, &mut wishes);
        Strata {
            next: query::next_stratum(softs, s),
            assumed: m,
            entries: k,
        }
    }
}

impl fmt::Display for Strata {
    ghost use Rattle.std.specs.Prelude.{Some};
    ghost use Rattle.cores_script.specs.Script.{strata_text};

    ghost output = { λ t. Some (strata_text t) };

    fn fmt<W: fmt::Write>(&self, f: &mut fmt::Formatter<W>) -> fmt::Result {
        let Strata {
            next,
            assumed,
            entries,
        } = self;
        write!(f, "{next} {assumed} {entries}")
    }
}
