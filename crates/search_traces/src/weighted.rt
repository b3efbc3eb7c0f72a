// Order 2: programs with weighted bodies, as `programs` has the others. Written by tests/traces.py.

use crate::program::{Program, row};
use asp::rules::{BodyKind, HeadKind, Row, RuleTable};

pub fn capacity() -> Program<'static> {
    Program {
        name: "capacity 5, wishes 1, 2, 3",
        table: RuleTable {
            atoms: 3,
            pool: &[1, 2, 3, 1, 2, 3, 5, 2, 3, 4],
            rows: &[
                row!(Choice, Normal, 0, 3, 0),
                row!(Plain, Weighted, 3, 0, 3),
            ],
        },
        wished: &[1, 2, 3],
        models: &[0, 4, 2, 1],
    }
}

pub fn one_or_two() -> Program<'static> {
    Program {
        name: "one or two of three",
        table: RuleTable {
            atoms: 3,
            pool: &[1, 2, 3, 1, 2, 3, 3, 1, 1, 1, -1, -2, -3, 3, 1, 1, 1],
            rows: &[
                row!(Choice, Normal, 0, 3, 0),
                row!(Plain, Weighted, 3, 0, 3),
                row!(Plain, Weighted, 10, 0, 3),
            ],
        },
        wished: &[-1, -2, -3],
        models: &[4, 2, 1, 6, 5, 3],
    }
}

pub fn both_signs() -> Program<'static> {
    Program {
        name: "never 1 or not 1",
        table: RuleTable {
            atoms: 2,
            pool: &[2, 1, -1, 1, 1, 1],
            rows: &[row!(Choice, Normal, 0, 1, 0), row!(Plain, Mixed, 1, 0, 2)],
        },
        wished: &[],
        models: &[],
    }
}

pub fn nothing() -> Program<'static> {
    Program {
        name: "never nothing",
        table: RuleTable {
            atoms: 2,
            pool: &[2, 1, 0],
            rows: &[row!(Plain, Normal, 0, 1, 1), row!(Plain, Weighted, 2, 0, 0)],
        },
        wished: &[],
        models: &[],
    }
}

pub fn twice() -> Program<'static> {
    Program {
        name: "never 1 twice, or 2",
        table: RuleTable {
            atoms: 3,
            pool: &[1, 2, 3, 1, 1, -2, 2, 1, 1, 1],
            rows: &[
                row!(Choice, Normal, 0, 3, 0),
                row!(Plain, Weighted, 3, 0, 3),
            ],
        },
        wished: &[1, 3],
        models: &[0, 2, 1, 3],
    }
}

pub fn worth() -> Program<'static> {
    Program {
        name: "worth what its complement leaves",
        table: RuleTable {
            atoms: 3,
            pool: &[1, 2, 3, 1, -1, 2, -2, 3, 5, 4, 2, 3, 1, 0],
            rows: &[row!(Choice, Normal, 0, 3, 0), row!(Plain, Mixed, 3, 0, 5)],
        },
        wished: &[1, 2],
        models: &[0, 1],
    }
}

pub fn not_twice() -> Program<'static> {
    Program {
        name: "1 if not 2 twice",
        table: RuleTable {
            atoms: 2,
            pool: &[1, -2, -2, 2, 1, 1],
            rows: &[row!(Plain, Weighted, 0, 1, 2)],
        },
        wished: &[],
        models: &[2],
    }
}

pub fn itself_weighed() -> Program<'static> {
    Program {
        name: "1 if 1, by weight",
        table: RuleTable {
            atoms: 1,
            pool: &[1, 1, 1, 1],
            rows: &[row!(Plain, Weighted, 0, 1, 1)],
        },
        wished: &[],
        models: &[0],
    }
}

pub fn not_itself_weighed() -> Program<'static> {
    Program {
        name: "1 if not 1, by weight",
        table: RuleTable {
            atoms: 1,
            pool: &[1, -1, 1, 1],
            rows: &[row!(Plain, Weighted, 0, 1, 1)],
        },
        wished: &[],
        models: &[],
    }
}

pub fn head_by_sum() -> Program<'static> {
    Program {
        name: "a head by a sum, wishes not 4, 1",
        table: RuleTable {
            atoms: 4,
            pool: &[1, 2, 3, 4, 1, 2, -3, 4, 2, 3, 2],
            rows: &[
                row!(Choice, Normal, 0, 3, 0),
                row!(Plain, Weighted, 3, 1, 3),
            ],
        },
        wished: &[-4, 1],
        models: &[0, 2, 10, 9, 6, 5, 13, 15],
    }
}

pub fn choice_by_sum() -> Program<'static> {
    Program {
        name: "choice by a sum",
        table: RuleTable {
            atoms: 4,
            pool: &[1, 2, 3, 4, 1, -2, 2, 2, 1, -3],
            rows: &[
                row!(Choice, Normal, 0, 2, 0),
                row!(Choice, Weighted, 2, 2, 2),
                row!(Plain, Normal, 9, 0, 1),
            ],
        },
        wished: &[2],
        models: &[10, 14, 11, 15],
    }
}
