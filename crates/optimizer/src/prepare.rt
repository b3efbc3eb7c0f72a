// What is made once for a program, at its load: the lists of its rules, and the atoms that a free branch tries in first. It makes an advance fast; what is answered does
// not depend on how the lists lie.
ghost use Rattle.indexing.specs.Sorting.{Readied};
ghost use Rattle.advancing.specs.Source.{rule_tables, Prepared};
ghost use Rattle.optimizer.specs.Tables.{source_by};

use asp::cost::Objective;
use asp::rules::RuleTable;
use counting::index::Index;
use counting::views::ReadableRules;
use indexing::build::{By, Listing};

// The rules by condition and by head atom; by atom, 1 for one to be tried in first.
// Kept: an array of document 01's size, since nothing here takes memory from the heap.
#[derive(Clone, Copy)]
pub struct Preparation {
    pub conditions: Index,
    pub heads: Index,
    pub tried: [u8; 1025],
}

pub fn prepare(rules: RuleTable<'_>, objective: Objective<'_>) -> Preparation
    requires { Readied (rule_tables (source_by rules objective)) }
    ensures { Prepared (source_by rules.entry objective.entry) result.conditions result.heads result.tried }
{
    let readable = ReadableRules {
        pool: rules.pool,
        rows: rules.rows,
    };
    let by_condition = Listing {
        rules: readable,
        by: By::Condition,
    };
    let by_head = Listing {
        rules: readable,
        by: By::Head,
    };
    Preparation {
        conditions: by_condition.lists(),
        heads: by_head.lists(),
        tried: choosing::first::tried_first(rules, objective),
    }
}
