// Rules, with the lists in which they stand by condition.
ghost use Rattle.search.specs.Lent.{rules_lent};
ghost use Rattle.counting.specs.Counts.{Indexed};
ghost use Rattle.counting.specs.Lent.{lists_lent};

use crate::index::Lists;
use crate::views::{ReadableRules, WeighableRules};
use asp::rules::RuleTable;

#[derive(Clone, Copy)]
pub struct Listed<'a> {
    pub rules: RuleTable<'a>,
    pub lists: Lists<'a>,
    pub ghost indexed: { Indexed (rules_lent rules) (lists_lent lists) },
}

impl<'a> Listed<'a> {
    ghost use Rattle.std.specs.Prelude.{◌≡◌};
    ghost use Rattle.search.specs.Lent.{rules_lent};
    ghost use Rattle.counting.specs.Lent.{bodies_lent, lists_lent};
    ghost use Rattle.counting.specs.Views.{rules_read, bodies_weighed};

    // The rules, for a scan.
    #[tactic(auto, using(search::proofs::Formed::readable))]
    pub fn readable(&self) -> ReadableRules<'a>
        ensures { rules_read result ≡ rules_lent self.now.rules }
    {
        let rules = self.rules;
        ReadableRules {
            pool: rules.pool,
            rows: rules.rows,
        }
    }

    // The rules and their lists, for a move of the trail.
    pub fn weighable(&self) -> WeighableRules<'a>
        ensures bodies { bodies_weighed result ≡ bodies_lent self.now.rules }
        ensures lists { lists_lent result.lists ≡ lists_lent self.now.lists }
    {
        WeighableRules {
            pool: self.rules.pool,
            rows: self.rules.rows,
            lists: self.lists,
        }
    }
}
