// What some readers ask of rules, and no more.
ghost use Rattle.std.specs.Prelude.{◌≤◌, length};
ghost use Rattle.search.specs.Scan.{rules, Readable};
ghost use Rattle.counting.specs.Counters.{bodies};
ghost use Rattle.counting.specs.Lent.{lists_lent};
ghost use Rattle.counting.specs.Moves.{Weighable};

use crate::index::Lists;
use asp::rules::Row;

// Rules that a scan can read.
#[derive(Clone, Copy)]
pub struct ReadableRules<'a> {
    pub pool: &'a [i32],
    pub rows: &'a [Row],
    pub ghost few: { length rows.now ≤ 2048 },
    pub ghost readable: { Readable (rules pool.now rows.now (length rows.now)) },
}

// Rules in lists, of which those that name an atom can be weighed.
#[derive(Clone, Copy)]
pub struct WeighableRules<'a> {
    pub pool: &'a [i32],
    pub rows: &'a [Row],
    pub lists: Lists<'a>,
    pub ghost weighable: { Weighable (bodies pool.now rows.now) (lists_lent lists) },
}
