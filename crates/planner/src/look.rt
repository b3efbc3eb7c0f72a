// Look: the figures.
ghost use Rattle.std.specs.Prelude.{◌≡◌, ◌<◌, IsTrue};
ghost use Rattle.advancing.specs.Facts.{has_model, is_in_work};
ghost use Rattle.planner.specs.Calls.{outcome, seen_view, seen_snapshot, look_call, given, upper_of, level_of, stratum_of, level_seen, stratum_seen};

use crate::service::{Service, Status};
use advancing::state::Phase;

// The level in work, from 1, the highest, and its stratum.
#[derive(Clone, Copy, PartialEq, Eq, Debug, Default)]
pub struct InWork {
    pub level: usize,
    pub stratum: u32,
}

// What a look gives, the highest priority first. There is an upper bound once there is a model.
#[derive(Clone, Copy)]
pub struct View<'a> {
    pub status: Status,
    pub advances: u64,
    pub priorities: &'a [i32],
    pub lowers: &'a [i64],
    pub uppers: Option<&'a [i64]>,
    pub in_work: Option<InWork>,
}

// The same by value, to be kept while the service goes on: of the priorities and the bounds the first `levels` places count.
#[derive(Clone, Copy)]
pub struct Snapshot {
    pub status: Status,
    pub advances: u64,
    pub levels: usize,
    pub priorities: [i32; 9],
    pub lowers: [i64; 8],
    pub uppers: Option<[i64; 8]>,
    pub in_work: Option<InWork>,
}

// There is a best model.
pub fn has_model(p: Phase) -> bool
    ensures { result ≡ has_model p }
{
    matches!(p, Phase::Level | Phase::Optimum | Phase::Full)
}

// A level is in work.
fn is_in_work(p: Phase) -> bool
    ensures { result ≡ is_in_work p }
{
    matches!(p, Phase::Level | Phase::Full)
}

// "upper bound (the best model's costs, absent before one)"
fn upper_bound<'a>(p: Phase, costs: &'a [i64]) -> Option<&'a [i64]>
    ensures { upper_of result ≡ given (has_model p) costs.now }
{
    if has_model(p) {
        return Some(costs);
    }
    None
}

// The same, of all places.
fn costs(p: Phase, costs: [i64; 8]) -> Option<[i64; 8]>
    ensures { result ≡ given (has_model p) costs }
{
    if has_model(p) {
        return Some(costs);
    }
    None
}

// "level in work (from 1, the highest; 0 if none), stratum (0 if no level is in work)"
fn in_work(p: Phase, settled: usize, stratum: u32) -> Option<InWork>
    requires { IsTrue (is_in_work p) → settled < 8 }
    ensures { (level_of result ≡ level_seen p settled) × (stratum_of result ≡ stratum_seen p stratum) }
{
    if is_in_work(p) {
        return Some(InWork {
            level: settled + 1,
            stratum,
        });
    }
    None
}

impl Service {
    // "nothing loaded: .. look gives status empty, all else 0 or absent"
    pub fn look<'a>(&'a self) -> View<'a>
        ensures { outcome (seen_view result) self.now.held ≡ look_call self.now.held }
    {
        let Some(l) = &self.held else {
            return View {
                status: Status::Empty,
                advances: 0,
                priorities: &[],
                lowers: &[],
                uppers: None,
                in_work: None,
            };
        };
        let q = &l.search;
        let w = &q.work;
        let count = l.stored.counts.levels;
        View {
            status: Status::from(q.phase),
            advances: q.advances,
            priorities: &l.stored.levels[..count],
            lowers: &w.lowers[..count],
            uppers: upper_bound(q.phase, &w.uppers[..count]),
            in_work: in_work(q.phase, w.level, w.stratum),
        }
    }

    // The same, to be kept.
    pub fn snapshot(&self) -> Snapshot
        ensures { outcome (seen_snapshot result) self.now.held ≡ look_call self.now.held }
    {
        let Some(l) = &self.held else {
            return Snapshot {
                status: Status::Empty,
                advances: 0,
                levels: 0,
                priorities: [0; 9],
                lowers: [0; 8],
                uppers: None,
                in_work: None,
            };
        };
        let q = &l.search;
        let w = &q.work;
        Snapshot {
            status: Status::from(q.phase),
            advances: q.advances,
            levels: l.stored.counts.levels,
            priorities: l.stored.levels,
            lowers: w.lowers,
            uppers: costs(q.phase, w.uppers),
            in_work: in_work(q.phase, w.level, w.stratum),
        }
    }
}
