// A number that a user writes: decimal, with no leading zero, from 0 to 4,294,967,295.
ghost use Rattle.std.specs.Prelude.{◌≡◌};
ghost use Rattle.console.specs.Number.{number_of, digits_of};

use aspif_fields::token::is_digit;

// The value of digits, if all are digits and it is in range.
fn value_of(s: &[u8]) -> Option<u32>
    ensures { result ≡ digits_of s.now }
{
    let mut v: u32 = 0;
    for b in s {
        if !is_digit(*b) {
            return None;
        }
        v = v.checked_mul(10)?.checked_add(u32::from(*b - b'0'))?;
    }
    Some(v)
}

pub fn read(s: &[u8]) -> Option<u32>
    ensures { result ≡ number_of s.now }
{
    match s {
        [] => None,
        [b'0', _, ..] => None,
        _ => value_of(s),
    }
}
