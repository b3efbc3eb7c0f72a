// A stored program: its rules, the wished literals, and the stable models, each as a number in base 2 whose first digit is atom 1.
ghost use Rattle.std.proofs.Props.{props};
ghost use Rattle.search.specs.Lent.{rules_lent};
ghost use Rattle.indexing.specs.Sorting.{Sorted, is_head};
ghost use Rattle.search_traces.specs.Stored.{Roomy, Wished};

use asp::rules::RuleTable;
use counting::index::Index;
use counting::views::ReadableRules;
use indexing::build::{By, Listing};

#[derive(Clone, Copy)]
pub struct Program<'a> {
    pub name: &'a str,
    pub table: RuleTable<'a>,
    pub wished: &'a [i32],
    pub models: &'a [u32],
    pub ghost roomy: { Roomy table.rows.now } by { Prim.hlevel props },
    pub ghost wishes: { Wished table.atoms wished.now } by { Prim.hlevel props },
}

impl Program<'_> {
    // The rules by condition, or by head.
    pub fn lists(&self, by: By) -> Index
        ensures { Sorted (is_head by) (rules_lent self.now.table) result }
    {
        let rules = ReadableRules {
            pool: self.table.pool,
            rows: self.table.rows,
        };
        let listing = Listing { rules, by };
        listing.lists()
    }
}

// A rule's row: its head, its body, its first place in the pool, how many head atoms and how many body literals. A macro, since what lives for 'static is made by no call.
macro_rules! row {
    ($head:ident, $body:ident, $first:literal, $heads:literal, $literals:literal) => {
        Row {
            head: HeadKind::$head,
            body: BodyKind::$body,
            first: $first,
            heads: $heads,
            literals: $literals,
        }
    };
}

pub(crate) use row;
