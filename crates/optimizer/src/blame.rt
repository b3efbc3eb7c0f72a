// What a query has blamed: places of soft literals, newest first, at the end of a table; and a flag for each assumed soft literal of an entry.
ghost use Rattle.std.specs.Prelude.{◌≡◌, false, ◌-◌, ◌≤◌, ◌<◌, length, get_or, set, drop, eqb};
ghost use Rattle.asp.specs.Sets.{pick};
ghost use Rattle.asp.specs.Stable.{member};
ghost use Rattle.advancing.specs.Turn.{blame_tables, blamed_of, blame_entry, blame_place, flagged};

use advancing::state::Blame;

// What is blamed, newest first: the places of a table from `from` on.
pub fn blamed_from(core: &[u16], from: usize) -> &[u16]
    requires { from ≤ length core.now }
    ensures { result.now ≡ drop from core.now }
{
    &core[from..]
}

// The same of what a query has blamed.
pub fn blamed(b: &Blame) -> &[u16]
    requires { b.now.from ≤ 4096 }
    ensures { result.now ≡ blamed_of b.now }
{
    blamed_from(&b.core, b.from)
}

// One more place, before the others.
fn add(b: &mut Blame, p: u16)
    requires { (1 ≤ b.old.from) × (b.old.from ≤ 4096) }
    ensures { b.new ≡ blame_tables b.old.flags (set b.old.core (b.old.from - 1) p) (b.old.from - 1) }
{
    b.from -= 1;
    b.core[b.from] = p;
}

// The soft literal of an entry that is at place i among those that the query assumes.
pub fn blame_entry(places: &[u16], i: usize, b: &mut Blame)
    requires place { (i < length places.now) × (i < 4096) × (get_or places.now i 0 < 4096) }
    requires room { (b.old.from ≤ 4096) × ((get_or b.old.flags i 0 ≡ 1 → ⊥) → 1 ≤ b.old.from) }
    ensures { b.new ≡ blame_entry places.now i b.old }
{
    if b.flags[i] == 1 {
        return;
    }
    b.flags[i] = 1;
    add(b, places[i]);
}

// Whether a place is one of these.
fn is_among(places: &[u16], p: usize) -> bool
    ensures { result ≡ member p places.now }
{
    for q in places {
        if usize::from(*q) == p {
            return true;
        }
    }
    false
}

// The flag at i, if the place there is p.
fn flag_at(flags: &mut [u8; 4096], i: usize, place: usize, p: usize)
    requires { (i < 4096) × (length flags.old ≡ 4096) }
    ensures { flags.new ≡ pick (eqb place p) (set flags.old i 1) flags.old }
{
    if place == p {
        flags[i] = 1;
    }
}

// The flags of the places that are p.
fn flag(places: &[u16], p: usize, flags: &mut [u8; 4096])
    requires { (length places.now ≤ 4096) × (length flags.old ≡ 4096) }
    ensures { flags.new ≡ flagged p 0 places.now flags.old }
{
    for (i, q) in places.iter().enumerate() {
        flag_at(flags, i, usize::from(*q), p);
    }
}

// Any soft literal, by its place.
pub fn blame_place(places: &[u16], p: usize, b: &mut Blame)
    requires place { (p < 4096) × (length places.now ≤ 4096) }
    requires room { (b.old.from ≤ 4096) × (member p (blamed_of b.old) ≡ false → 1 ≤ b.old.from) }
    ensures { b.new ≡ blame_place places.now p b.old }
{
    if is_among(blamed(b), p) {
        return;
    }
    flag(places, p, &mut b.flags);
    // Kept: a cast, as Rattle has no `From` here; the bound stands in the contract, and `try_from` would want an answer for what cannot be.
    add(b, p as u16);
}
