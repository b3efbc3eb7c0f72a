// Literals: a for the atom a, -a for its default negation.
ghost use Rattle.std.specs.Prelude.{◌≡◌, ◌+◌, ◌≤◌, ◌<◌, pos, neg_ℤ, nat_abs, length};
ghost use Rattle.asp.specs.Sets.{set_of};
ghost use Rattle.asp.specs.Stable.{holds, holds_in};
ghost use Rattle.asp.specs.Tables.{literals_at};

// Kept: literals and atoms are plain numbers with their bound in contracts, as texts and tables hold them; a type of their own would be put on and taken off at each place.
// The atom, as an index.
pub fn atom(l: i32) -> usize
    requires { nat_abs l ≤ 1024 }
    ensures { result ≡ nat_abs l }
{
    // Kept: a cast, as there is no `From<u32>` for `usize`.
    l.unsigned_abs() as usize
}

// The complement.
pub fn complement(l: i32) -> i32
    requires { nat_abs l ≤ 1024 }
    ensures { result ≡ neg_ℤ l }
{
    -l
}

// The positive literal of an atom.
pub fn positive(a: usize) -> i32
    requires { a ≤ 1024 }
    ensures { result ≡ pos a }
{
    // Kept: a cast, as Rattle has no `From` here; the bound stands in the contract, and `try_from` would want an answer for what cannot be.
    a as i32
}

// The negative literal of an atom.
pub fn negative(a: usize) -> i32
    requires { a ≤ 1024 }
    ensures { result ≡ neg_ℤ (pos a) }
{
    complement(positive(a))
}

// Whether the atom is in the set that the bytes say: 1 for an atom in it.
pub fn has(set: &[u8], a: usize) -> bool
    requires { a < length set.now }
    ensures { result ≡ set_of set.now a }
{
    set[a] == 1
}

// Whether a literal holds, a negated one looked up in `m` and a positive one in `x`.
pub fn holds_in(m: &[u8], x: &[u8], l: i32) -> bool
    requires bound { nat_abs l ≤ 1024 }
    requires in_m { nat_abs l < length m.now }
    requires in_x { nat_abs l < length x.now }
    ensures { result ≡ holds_in (set_of m.now) (set_of x.now) l }
{
    if l < 0 {
        !has(m, atom(l))
    } else {
        has(x, atom(l))
    }
}

// Whether a literal holds in a set.
pub fn holds(m: &[u8], l: i32) -> bool
    requires bound { nat_abs l ≤ 1024 }
    requires in_m { nat_abs l < length m.now }
    ensures { result ≡ holds (set_of m.now) l }
{
    holds_in(m, m, l)
}

// The k literals of a pool from a place on.
pub fn part(pool: &[i32], first: usize, k: usize) -> &[i32]
    requires { first + k ≤ length pool.now }
    ensures { result.now ≡ literals_at pool.now first k }
{
    &pool[first..first + k]
}
