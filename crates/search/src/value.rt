// The values of the atoms under a trail: 0 undecided, 1 in, 2 out.
ghost use Rattle.std.specs.Prelude.{◌≡◌, ℕ, ◌<◌, ◌≤◌, pos, nat_abs, length, get_or};
ghost use Rattle.search.specs.Places.{side_of, truth_of, truth_at};

use asp::literal::atom;

// The value of the literal's atom where the literal is true: 1 in, 2 out.
// Kept: a value and what it makes of a literal are numbers and no enums: they are compared side by side, and by a `match` weighted programs took a third longer (docs/DESIGN-PASS.md).
pub fn side(l: i32) -> u8
    ensures { result ≡ side_of l }
{
    if l < 0 { 2 } else { 1 }
}

// What a literal is where its atom's value is x: 0 undecided, 1 true, 2 false.
fn truth_of(l: i32, x: u8) -> u8
    ensures { result ≡ truth_of l x }
{
    if x == 0 {
        0
    } else if side(l) == x {
        1
    } else {
        2
    }
}

// What a literal is under the values: 0 undecided, 1 true, 2 false.
pub fn truth(value: &[u8; 1025], l: i32) -> u8
    requires { nat_abs l ≤ 1024 }
    ensures { result ≡ truth_at value.now l }
{
    truth_of(l, value[atom(l)])
}
