// The atoms that a free branch tries in first (specs/First.antt).
ghost use Rattle.std.specs.Prelude.{◌≡◌, ℕ, ◌≤◌, length, nat_abs};
ghost use Rattle.asp.specs.Sets.{set_of, In};
ghost use Rattle.asp.specs.Program.{All};
ghost use Rattle.asp.specs.Penalty.{penalty, penalties};
ghost use Rattle.asp.specs.Stable.{listed};
ghost use Rattle.asp.specs.Tables.{rule_at, rules_of};
ghost use Rattle.asp.specs.Growth.{RowFormed, atoms_named};
ghost use Rattle.choosing.specs.First.{freely_chosen_by, freely_chosen, pays_for, paid_for, tried_first, With, Without};

use asp::cost::Objective;
use asp::entries::Entry;
use asp::literal::atom;
use asp::rules::{Row, RuleTable};

// Marks the atoms of a choice.
fn choose(heads: &[i32], tried: &mut [u8; 1025])
    requires { All (In 1024) (atoms_named heads.now) }
    ensures { With (listed (atoms_named heads.now)) tried.old tried.new }
{
    for l in heads {
        tried[atom(*l)] = 1;
    }
}

// Marks what a rule chooses, if it is a choice without a body.
fn choose_rule(row: Row, pool: &[i32], tried: &mut [u8; 1025])
    requires { RowFormed pool.now row }
    ensures { With (freely_chosen_by (rule_at pool.now row)) tried.old tried.new }
{
    if row.body.is_weighted() {
        return;
    }
    if row.head.is_choice() && row.literals == 0 {
        choose(row.head_atoms(pool), tried);
    }
}

// Marks what the choices without a body choose.
fn choose_all(rules: RuleTable<'_>, tried: &mut [u8; 1025])
    ensures { With (freely_chosen (rules_of rules.entry.pool.now rules.entry.rows.now (length rules.entry.rows.now))) tried.old tried.new }
{
    for row in rules.rows {
        choose_rule(*row, rules.pool, tried);
    }
}

// Drops the atom that an entry pays for, if it does.
fn drop_entry(e: Entry, tried: &mut [u8; 1025])
    requires { nat_abs e.literal ≤ 1024 }
    ensures { Without (pays_for (penalty e)) tried.old tried.new }
{
    let l = e.paid_literal();
    if 0 < e.size() && 0 <= l {
        tried[atom(l)] = 0;
    }
}

// Drops the atoms that an entry pays for.
fn drop_paid(objective: Objective<'_>, tried: &mut [u8; 1025])
    ensures { Without (paid_for (penalties objective.entry.entries.now)) tried.old tried.new }
{
    for e in objective.entries {
        drop_entry(*e, tried);
    }
}

// The atoms that a free branch tries in first, as bytes by atom.
pub fn tried_first(rules: RuleTable<'_>, objective: Objective<'_>) -> [u8; 1025]
    ensures { (a : ℕ) → set_of result a ≡ tried_first (rules_of rules.entry.pool.now rules.entry.rows.now (length rules.entry.rows.now)) (penalties objective.entry.entries.now) a }
{
    // Kept: an array of document 01's size, since nothing here takes memory from the heap.
    let mut tried = [0u8; 1025];
    choose_all(rules, &mut tried);
    drop_paid(objective, &mut tried);
    tried
}
