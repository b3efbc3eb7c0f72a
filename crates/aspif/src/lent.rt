// A stored program's tables, lent as crate `asp` reads them.
ghost use Rattle.std.specs.Prelude.{◌≡◌, length, take};
ghost use Rattle.asp.specs.Tables.{rules_of};
ghost use Rattle.aspif.specs.Store.{stored_program, WellFormed};

use super::text::Stored;
use asp::cost::Objective;
use asp::rules::RuleTable;

// Its rules.
#[tactic(auto, using(crate::proofs::Fronts::lent_rules, crate::proofs::Fronts::lent_formed))]
pub fn rule_table(p: &Stored) -> RuleTable<'_>
    requires { WellFormed p.now }
    ensures atoms { result.atoms ≡ p.now.counts.atoms }
    ensures pool { result.pool.now ≡ p.now.pool }
    ensures rows { result.rows.now ≡ take p.now.counts.rules p.now.rules }
    ensures rules { rules_of result.pool.now result.rows.now (length result.rows.now) ≡ (stored_program p.now).rules }
{
    RuleTable {
        atoms: p.counts.atoms,
        pool: &p.pool,
        rows: &p.rules[..p.counts.rules],
    }
}

// Its levels and entries.
#[tactic(auto, using(crate::proofs::Fronts::lent_levels, crate::proofs::Fronts::lent_entries, crate::proofs::Fronts::lent_objective))]
pub fn objective(p: &Stored) -> Objective<'_>
    requires { WellFormed p.now }
    ensures levels { result.levels.now ≡ take p.now.counts.levels p.now.levels }
    ensures entries { result.entries.now ≡ take p.now.counts.entries p.now.entries }
    ensures program { (result.levels.now ≡ (stored_program p.now).priorities) × (result.entries.now ≡ (stored_program p.now).entries) }
{
    Objective {
        levels: &p.levels[..p.counts.levels],
        entries: &p.entries[..p.counts.entries],
    }
}
