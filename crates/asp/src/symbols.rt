// The table of symbols: where the name of each stands in the text, and its condition in a pool of literals.
ghost use Rattle.std.specs.Prelude.{◌≡◌};
ghost use Rattle.asp.specs.Sets.{set_of};
ghost use Rattle.asp.specs.Stable.{all_hold};
ghost use Rattle.asp.specs.Tables.{condition_at};
ghost use Rattle.asp.specs.Paying.{SymbolFormed};

use crate::atoms::AtomSet;
use crate::literal::part;

#[derive(Clone, Copy, PartialEq, Eq, Debug, Default)]
pub struct SymbolRow {
    // the first byte of the name in the text, and how many
    pub name: u16,
    pub length: u16,
    // the first place of the condition in its pool, and how many literals
    pub condition: u16,
    pub literals: u16,
}

// Whether a symbol is shown: all literals of its condition hold.
pub fn is_shown(conditions: &[i32], row: SymbolRow, m: AtomSet<'_>) -> bool
    requires { SymbolFormed conditions.now row }
    ensures { result ≡ all_hold (set_of m.entry.bytes.now) (set_of m.entry.bytes.now) (condition_at conditions.now row) }
{
    let (first, k) = (usize::from(row.condition), usize::from(row.literals));
    m.all_hold(m, part(conditions, first, k))
}
