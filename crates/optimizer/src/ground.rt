// A ground program as an optimization reads it, lent: its rules and levels, and what is prepared for them.
ghost use Rattle.counting.specs.Lent.{lists_lent};
ghost use Rattle.advancing.specs.Source.{levels_lent, FormedLevels, Prepared};
ghost use Rattle.optimizer.specs.Tables.{source_by};
ghost use Rattle.optimizer.specs.Alone.{formed_levels-prop};

use asp::cost::Objective;
use counting::index::Index;
use counting::listed::Listed;

// An objective within document 01's limits: levels, entries, and the weight of each.
#[derive(Clone, Copy)]
pub struct Limited<'a> {
    pub objective: Objective<'a>,
    pub ghost formed: { FormedLevels (levels_lent objective) } by { formed_levels-prop _ },
}

// The rules with their lists by condition, their lists by head atom, the atoms that a free branch tries in first, and what is to be optimized.
#[derive(Clone, Copy)]
pub struct Ground<'a> {
    pub listed: Listed<'a>,
    pub heads: &'a Index,
    pub tried: &'a [u8; 1025],
    pub limited: Limited<'a>,
    ghost ready: { Prepared (source_by listed.rules limited.objective) (lists_lent listed.lists) heads.now tried.now },
}
