// `2 p k` and k pairs of literal and weight: minimise at priority p.
ghost use Rattle.std.specs.Prelude.{◌≡◌, [], ◌+◌, ◌≤◌, max, length, nat_abs, IfOk};
ghost use Rattle.asp.specs.Program.{highest};
ghost use Rattle.asp.specs.Tables.{no_entry};
ghost use Rattle.aspif_fields.specs.Fields.{pair};
ghost use Rattle.aspif_fields.specs.SeenFields.{read_as, read_into};
ghost use Rattle.aspif_lines.specs.Text.{more, minimise_line};
ghost use Rattle.aspif_lines.specs.Seen.{entries_at, entry_atom, minimise_in, Kept};

use super::members::read_end;
use super::room::Entries;
use asp::entries::Entry;
use asp::literal::atom;
use aspif_fields::field::MOST_COUNT;
use aspif_fields::pair::Pair;
use aspif_fields::refusal::Refusal;
use aspif_fields::token::Rest;

const MOST_PRIORITY: u32 = 1000; // document 01: "p from -1,000 to 1,000 (signed)"

// k entries of priority p, stored from `used` on. The highest atom so far.
// Kept: beside `read_members`, since one function for both would have to be told what is stored and how its atom is found, and is no plainer.
fn read_pairs(
    rest: &mut Rest,
    priority: i32,
    k: usize,
    entries: &mut [Entry],
    used: usize,
    start: usize,
) -> Result<usize, Refusal>
    requires room { used + k ≤ length entries.old }
    requires small { nat_abs priority ≤ 1000 }
    ensures answer { read_into result (entries_at entries.new used k) rest.new.bytes.now ≡ more (pair priority) k [] rest.old.bytes.now }
    ensures top { IfOk result (λ t. t ≡ max start (highest entry_atom (entries_at entries.new used k))) }
    ensures kept { Kept no_entry used entries.old entries.new }
{
    let mut top = start;
    for i in 0..k {
        let Pair { literal, weight } = rest.read_pair()?;
        entries[used + i] = Entry {
            priority,
            literal,
            weight,
        };
        top = top.max(atom(literal));
    }
    Ok(top)
}

// A minimise line: its entries are in their table. The highest atom so far.
#[derive(Clone, Copy, PartialEq, Eq, Debug)]
pub struct MinimiseLine {
    pub priority: i32,
    pub count: usize,
    pub top: usize,
}

#[tactic(auto, unfolding(crate::specs::Text::minimise_line))]
pub fn read_minimise(
    rest: &mut Rest,
    entries: &mut Entries,
    used: usize,
    start: usize,
) -> Result<MinimiseLine, Refusal>
    requires { used + 1024 ≤ length entries.old }
    ensures answer { read_as (minimise_in entries.new used) result [] ≡ minimise_line rest.old.bytes.now }
    ensures small { IfOk result (λ m. (nat_abs m.priority ≤ 1000) × (m.count ≤ 1024)) }
    ensures top { IfOk result (λ m. m.top ≡ max start (highest entry_atom (entries_at entries.new used m.count))) }
    ensures kept { Kept no_entry used entries.old entries.new }
{
    let priority = rest.read_signed(MOST_PRIORITY)?;
    let count = rest.read_natural(0, MOST_COUNT)?;
    let top = read_pairs(rest, priority, count, entries, used, start)?;
    read_end(rest)?;
    Ok(MinimiseLine {
        priority,
        count,
        top,
    })
}
