// The stored programs, without weighted bodies.

ghost use Rattle.search_traces.specs.Stored.{Wished};

use crate::program::{Program, row};
use asp::rules::{BodyKind, HeadKind, Row, RuleTable};

pub fn no_statement() -> Program<'static> {
    Program {
        name: "no statement",
        table: RuleTable {
            atoms: 0,
            pool: &[],
            rows: &[],
        },
        wished: &[],
        models: &[0],
    }
}

pub fn itself() -> Program<'static> {
    Program {
        name: "1 if 1",
        table: RuleTable {
            atoms: 1,
            pool: &[1, 1],
            rows: &[row!(Plain, Normal, 0, 1, 1)],
        },
        wished: &[],
        models: &[0],
    }
}

pub fn not_itself() -> Program<'static> {
    Program {
        name: "1 if not 1",
        table: RuleTable {
            atoms: 1,
            pool: &[1, -1],
            rows: &[row!(Plain, Normal, 0, 1, 1)],
        },
        wished: &[],
        models: &[],
    }
}

pub fn either() -> Program<'static> {
    Program {
        name: "1 if not 2, 2 if not 1",
        table: RuleTable {
            atoms: 2,
            pool: &[1, -2, 2, -1],
            rows: &[row!(Plain, Normal, 0, 1, 1), row!(Plain, Normal, 2, 1, 1)],
        },
        wished: &[],
        models: &[2, 1],
    }
}

pub fn chain() -> Program<'static> {
    Program {
        name: "choice 1, 2 if 1, never not 2",
        table: RuleTable {
            atoms: 2,
            pool: &[1, 2, 1, -2],
            rows: &[
                row!(Choice, Normal, 0, 1, 0),
                row!(Plain, Normal, 1, 1, 1),
                row!(Plain, Normal, 3, 0, 1),
            ],
        },
        wished: &[],
        models: &[3],
    }
}

// A choice of 1 and 2, 3 if both, and never neither.
fn planned(name: &'static str, wished: &'static [i32]) -> Program<'static>
    requires { Wished 3 wished.now }
{
    Program {
        name,
        table: RuleTable {
            atoms: 3,
            pool: &[1, 2, 3, 1, 2, -1, -2],
            rows: &[
                row!(Choice, Normal, 0, 2, 0),
                row!(Plain, Normal, 2, 1, 2),
                row!(Plain, Normal, 5, 0, 2),
            ],
        },
        wished,
        models: &[4, 2, 7],
    }
}

pub fn plan() -> Program<'static> {
    planned("plan", &[])
}

pub fn plan_wishes() -> Program<'static> {
    planned("plan, wishes not 1, not 2", &[-1, -2])
}

pub fn plan_other_wishes() -> Program<'static> {
    planned("plan, wishes not 3, not 1", &[-3, -1])
}

pub fn three_in_two() -> Program<'static> {
    Program {
        name: "three in two, wish 6",
        table: RuleTable {
            atoms: 6,
            pool: &[
                1, 2, 3, 4, 5, 6, -1, -2, -3, -4, -5, -6, 1, 3, 1, 5, 3, 5, 2, 4, 2, 6, 4, 6,
            ],
            rows: &[
                row!(Choice, Normal, 0, 6, 0),
                row!(Plain, Normal, 6, 0, 2),
                row!(Plain, Normal, 8, 0, 2),
                row!(Plain, Normal, 10, 0, 2),
                row!(Plain, Normal, 12, 0, 2),
                row!(Plain, Normal, 14, 0, 2),
                row!(Plain, Normal, 16, 0, 2),
                row!(Plain, Normal, 18, 0, 2),
                row!(Plain, Normal, 20, 0, 2),
                row!(Plain, Normal, 22, 0, 2),
            ],
        },
        wished: &[6],
        models: &[],
    }
}
