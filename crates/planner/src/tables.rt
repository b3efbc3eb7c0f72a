// The tables of a stored program, lent as an optimization reads them.
ghost use Rattle.std.specs.Prelude.{◌≡◌, take};
ghost use Rattle.aspif.specs.Store.{WellFormed};
ghost use Rattle.advancing.specs.Source.{levels_lent};
ghost use Rattle.planner.specs.Held.{source_of};

use asp::cost::Objective;
use asp::rules::RuleTable;
use aspif_tables::table::Stored;
use optimizer::ground::Limited;

pub fn rules<'a>(stored: &'a Stored) -> RuleTable<'a>
    requires { ∥ WellFormed stored.now ∥₁ }
    ensures atoms { result.atoms ≡ stored.now.counts.atoms }
    ensures pool { result.pool.now ≡ stored.now.pool }
    ensures rows { result.rows.now ≡ take stored.now.counts.rules stored.now.rules }
{
    RuleTable {
        atoms: stored.counts.atoms,
        pool: &stored.pool,
        rows: &stored.rules[..stored.counts.rules],
    }
}

pub fn limited<'a>(stored: &'a Stored) -> Limited<'a>
    requires { ∥ WellFormed stored.now ∥₁ }
    ensures { levels_lent result.objective ≡ (source_of stored.now).levels }
{
    Limited {
        objective: Objective {
            levels: &stored.levels[..stored.counts.levels],
            entries: &stored.entries[..stored.counts.entries],
        },
    }
}
