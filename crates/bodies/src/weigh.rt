// A weighted body under the values of a trail (order 2): the least that it counts in the sets that agree with the trail, and what is left of it.
ghost use Rattle.std.specs.Prelude.{◌≡◌, ◌-◌, ◌≤◌, ◌<◌, min, nat_abs};
ghost use Rattle.asp.specs.Sets.{pick};
ghost use Rattle.asp.specs.Literal.{same_ℤ};
ghost use Rattle.asp.specs.Growth.{weighed, pairs_of};
ghost use Rattle.search.specs.Weigh.{total, gain, owed_pair, owed_at, pair_met, met_at, least_at, worth, breaks, breaker_of, body_rest};

use asp::literal::complement;
use asp::rules::Pairs;
use search::scan::Rest;
use search::value::truth;

// What a pair counts where its literal is true.
// Kept: the bound of a literal stands in five contracts here, as in `asp::literal`.
fn met_pair(l: i32, w: i32, value: &[u8; 1025]) -> u64
    requires { nat_abs l ≤ 1024 }
    ensures value { result ≡ pair_met value.now (weighed l w) }
    ensures small { result < 4294967296 }
{
    if truth(value, l) == 1 {
        u64::from(w.unsigned_abs())
    } else {
        0
    }
}

// The weights of the true literals.
fn met(body: Pairs<'_>, value: &[u8; 1025]) -> u64
    ensures { result ≡ met_at value.now (pairs_of body.entry.literals.now body.entry.weights.now) }
{
    let mut sum: u64 = 0;
    for (i, l) in body.literals.iter().enumerate() {
        sum += met_pair(*l, body.weights[i], value);
    }
    sum
}

// The weight of a pair, if its literal is l.
fn weight_of(k: i32, w: i32, l: i32) -> u64
    ensures value { result ≡ pick (same_ℤ l k) (nat_abs w) 0 }
    ensures small { result < 4294967296 }
{
    if l == k {
        u64::from(w.unsigned_abs())
    } else {
        0
    }
}

// The weights of the literal l.
fn total(body: Pairs<'_>, l: i32) -> u64
    ensures { result ≡ total l (pairs_of body.entry.literals.now body.entry.weights.now) }
{
    let mut sum: u64 = 0;
    for (i, k) in body.literals.iter().enumerate() {
        sum += weight_of(*k, body.weights[i], l);
    }
    sum
}

// What the literal l is worth: its weights, less those of its complement.
fn gain(body: Pairs<'_>, l: i32) -> u64
    requires { nat_abs l ≤ 1024 }
    ensures { result ≡ gain l (pairs_of body.entry.literals.now body.entry.weights.now) }
{
    total(body, l).saturating_sub(total(body, complement(l)))
}

// The least that a pair counts, before the pairs of `rest`.
fn owed_pair(l: i32, w: i32, rest: Pairs<'_>, value: &[u8; 1025]) -> u64
    requires { nat_abs l ≤ 1024 }
    ensures value { result ≡ owed_pair value.now (weighed l w) (pairs_of rest.entry.literals.now rest.entry.weights.now) }
    ensures small { result < 4294967296 }
{
    let weight = u64::from(w.unsigned_abs());
    match truth(value, l) {
        1 => weight,
        0 => gain(rest, complement(l)).min(weight),
        _ => 0,
    }
}

// The least that all pairs count.
fn owed(body: Pairs<'_>, value: &[u8; 1025]) -> u64
    ensures { result ≡ owed_at value.now (pairs_of body.entry.literals.now body.entry.weights.now) }
{
    let mut sum: u64 = 0;
    for (i, l) in body.literals.iter().enumerate() {
        sum += owed_pair(*l, body.weights[i], body.after(i + 1), value);
    }
    sum
}

// The same, by the plain sum where no atom has both signs.
// Kept: `mixed` is what the row's kind says of its body (`BodyKind::is_mixed`), and only chooses between two sums.
fn least(body: Pairs<'_>, mixed: bool, value: &[u8; 1025]) -> u64
    ensures { result ≡ least_at mixed value.now (pairs_of body.entry.literals.now body.entry.weights.now) }
{
    if mixed {
        owed(body, value)
    } else {
        met(body, value)
    }
}

// What a pair of the body is worth at least.
fn worth(body: Pairs<'_>, mixed: bool, l: i32, w: i32) -> u64
    requires { nat_abs l ≤ 1024 }
    ensures { result ≡ worth mixed (pairs_of body.entry.literals.now body.entry.weights.now) (weighed l w) }
{
    if mixed {
        gain(body, l)
    } else {
        u64::from(w.unsigned_abs())
    }
}

// Whether its literal is undecided and worth what lacks.
fn breaks(body: Pairs<'_>, mixed: bool, l: i32, w: i32, lack: u64, value: &[u8; 1025]) -> bool
    requires { nat_abs l ≤ 1024 }
    ensures { result ≡ breaks mixed value.now lack (pairs_of body.entry.literals.now body.entry.weights.now) (weighed l w) }
{
    truth(value, l) == 0 && lack <= worth(body, mixed, l, w)
}

// The first such literal.
fn breaker(body: Pairs<'_>, mixed: bool, lack: u64, value: &[u8; 1025]) -> Rest
    ensures { result ≡ breaker_of mixed value.now lack (pairs_of body.entry.literals.now body.entry.weights.now) (pairs_of body.entry.literals.now body.entry.weights.now) }
{
    for (i, l) in body.literals.iter().enumerate() {
        if breaks(body, mixed, *l, body.weights[i], lack, value) {
            return Rest::One(*l);
        }
    }
    Rest::Off
}

// What is left of a body with that bound.
#[tactic(auto, using(crate::proofs::WeighCode::body_reached, crate::proofs::WeighCode::body_lacks))]
pub fn body_rest(body: Pairs<'_>, bound: u64, mixed: bool, value: &[u8; 1025]) -> Rest
    ensures { result ≡ body_rest mixed value.now bound (pairs_of body.entry.literals.now body.entry.weights.now) }
{
    let sum = least(body, mixed, value);
    if bound <= sum {
        return Rest::All;
    }
    breaker(body, mixed, bound - sum, value)
}
