// What a query needs of the level's soft literals: the next stratum, the assumed places, and those of entries with what they wish for.
ghost use Rattle.std.specs.Prelude.{◌≡◌, ℕ, ◌<◌, ◌≤◌, length, get_or, pos, nat_abs};
ghost use Rattle.asp.specs.Program.{All};
ghost use Rattle.cores.specs.Level.{under};
ghost use Rattle.cores.specs.Columns.{literals_of, cores_of, rests_of, listed_places, assumed_of, pairs, paired, put_entry, entries_among, entry_columns};

use cores::soft::Soft;
use cores::softs::soft_at;

// The greatest remaining weight below `s`; 0 if there is none.
pub fn next_stratum(softs: &[Soft], s: u32) -> u32
    ensures { result ≡ under s (rests_of softs.now) }
{
    let mut best = 0;
    for r in softs {
        if r.weight < s {
            best = r.weight.max(best);
        }
    }
    best
}

// The places of the soft literals with weight s at least, at the front of a lent array; and how many.
// Kept: an array and a count, since a promise about the whole array cannot be given with a part of it.
pub fn assumed(softs: &[Soft], s: u32, places: &mut [u16; 4096]) -> usize
    requires { length softs.now ≤ 4096 }
    ensures { listed_places places.new result ≡ assumed_of s (rests_of softs.now) places.old }
{
    let mut n = 0;
    for (i, r) in softs.iter().enumerate() {
        if s <= r.weight {
            // Kept: a cast, as Rattle has no `From` here; the bound stands in the contract, and `try_from` would want an answer for what cannot be.
            places[n] = i as u16;
            n += 1;
        }
    }
    n
}

// A place that is an entry's goes, with the literal that it wishes for, the complement of its own, to position n of two lent arrays. The answer is the next position.
fn put_entry(
    softs: &[Soft],
    p: u16,
    n: usize,
    places: &mut [u16; 4096],
    wishes: &mut [i32; 4096],
) -> usize
    requires p_in_bounds { p < length softs.now }
    requires p_bound { nat_abs (get_or (literals_of softs.now) p (pos 0)) ≤ 1024 }
    requires n_bound { n < 4096 }
    ensures { paired (pairs places.new wishes.new) result ≡ put_entry (cores_of softs.now) (literals_of softs.now) p (paired (pairs places.old wishes.old) n) }
{
    let r = soft_at(softs, usize::from(p));
    if r.core != 0 {
        return n;
    }
    places[n] = p;
    wishes[n] = asp::literal::complement(r.literal);
    n + 1
}

// Those of the assumed places that are an entry's, with the literals that they wish for; and how many.
// Kept: two arrays and a count, since the scan of a query reads the wishes as a slice of literals at each step.
pub fn entries(
    assumed: &[u16],
    softs: &[Soft],
    places: &mut [u16; 4096],
    wishes: &mut [i32; 4096],
) -> usize
    requires assumed_len_bound { length assumed.now ≤ 4096 }
    requires all { All (λ m. m < length softs.now) assumed.now }
    requires by_index { (p : ℕ) → nat_abs (get_or (literals_of softs.now) p (pos 0)) ≤ 1024 }
    ensures { paired (pairs places.new wishes.new) result ≡ entry_columns (literals_of softs.now) (entries_among (cores_of softs.now) assumed.now) (pairs places.old wishes.old) }
{
    let mut n = 0;
    for p in assumed {
        n = put_entry(softs, *p, n, places, wishes);
    }
    n
}
