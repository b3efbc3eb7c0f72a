// What is left of a line, and numbers by their form: decimal digits with no leading zero that make up a whole field.
ghost use Rattle.std.specs.Prelude.{◌&&◌, ◌≡◌, ◌+◌, ◌-◌, ◌*◌, ◌<◌, ◌≤◌, min, eqb, ltb, length, drop, true, false, not, nat_abs, IfSome, MatchOption};
ghost use Rattle.std.specs.List.{slice_get};
ghost use Rattle.asp.specs.Sets.{pick};
ghost use Rattle.aspif_fields.specs.Fields.{next, is_digit, digits, decimal, nil, over, token, field, signed_token};
ghost use Rattle.aspif_fields.specs.SeenFields.{capped, capped_signed, due};

// Above every range: no value of a token is greater.
const BEYOND: usize = 1000000001;

// What is left of a line: each reader takes a field from its front.
#[derive(Clone, Copy, PartialEq, Eq, Debug)]
pub struct Rest<'a> {
    pub bytes: &'a [u8],
}

pub fn is_digit(b: u8) -> bool
    ensures { result ≡ is_digit b }
{
    b.is_ascii_digit()
}

// One more digit, and no more than 1,000,000,001.
fn push(v: usize, b: u8) -> usize
    requires { (v ≤ 1000000001) × (48 ≤ b) }
    ensures { result ≡ min 1000000001 (v * 10 + (b - 48)) }
{
    (v * 10 + usize::from(b - b'0')).min(BEYOND)
}

// Whether n digits, with a leading 0 or none, make up a whole field: at least one, no 0 before others, and the field over.
fn is_formed(n: usize, leads: bool, is_over: bool) -> bool
    ensures { result ≡ (ltb 0 n && (not (leads && ltb 1 n) && is_over)) }
{
    0 < n && !(leads && 1 < n) && is_over
}

impl<'a> Rest<'a> {
    // The byte that comes next; none at the end.
    pub fn peek(&self) -> Option<u8>
        ensures { result ≡ slice_get self.now.bytes.now 0 }
    {
        self.bytes.first().copied()
    }

    // The line is over.
    pub fn is_ended(&self) -> bool
        ensures { result ≡ nil self.now.bytes.now }
    {
        self.bytes.is_empty()
    }

    // A field is over at a space and at the end of the line.
    fn is_over(&self) -> bool
        ensures { result ≡ over self.now.bytes.now }
    {
        matches!(self.peek(), Some(b' ') | None)
    }

    // Past the next n bytes.
    pub fn skip(&mut self, n: usize)
        requires { n ≤ length self.old.bytes.now }
        ensures { self.new.bytes.now ≡ drop n self.old.bytes.now }
    {
        self.bytes = &self.bytes[n..];
    }

    // The value of the digits that come next, past them.
    #[tactic(auto, using(crate::proofs::Tokens::scan_value, crate::proofs::Tokens::scan_past, crate::proofs::Tokens::scan_count, crate::proofs::Tokens::at_end, crate::proofs::Tokens::at_other))]
    fn scan(&mut self) -> usize
        ensures value { result ≡ min 1000000001 (decimal 0 (digits self.old.bytes.now)) }
        ensures past { self.new.bytes.now ≡ drop (length (digits self.old.bytes.now)) self.old.bytes.now }
        ensures count { length self.new.bytes.now + length (digits self.old.bytes.now) ≡ length self.old.bytes.now }
    {
        let mut v: usize = 0;
        while let Some(b) = self.peek()
            && is_digit(b)
        {
            v = push(v, b);
            self.skip(1);
        }
        v
    }

    // A number by its form: its value, or 1,000,000,001 if that is less.
    #[tactic(auto, using(crate::proofs::Tokens::tokened))]
    pub fn read_token(&mut self) -> Option<usize>
        ensures { due result self.new.bytes.now ≡ capped (token self.old.bytes.now) }
    {
        let leads = self.peek() == Some(b'0');
        let length = self.bytes.len();
        let value = self.scan();
        let n = length - self.bytes.len();
        if !is_formed(n, leads, self.is_over()) {
            return None;
        }
        Some(value)
    }

    // A space, past it.
    pub fn read_space(&mut self) -> Option<()>
        ensures { MatchOption result (eqb (next self.old.bytes.now) 32 ≡ false) (λ u. (eqb (next self.old.bytes.now) 32 ≡ true) × (self.new.bytes.now ≡ drop 1 self.old.bytes.now)) }
    {
        if self.peek() != Some(b' ') {
            return None;
        }
        self.skip(1);
        Some(())
    }

    // A space, and a number, by its form.
    pub fn read_field_token(&mut self) -> Option<usize>
        ensures { due result self.new.bytes.now ≡ capped (field token self.old.bytes.now) }
    {
        self.read_space()?;
        self.read_token()
    }

    // A minus, past it where there is one.
    fn read_minus(&mut self) -> bool
        ensures answer { result ≡ eqb (next self.old.bytes.now) 45 }
        ensures past { self.new.bytes.now ≡ pick result (drop 1 self.old.bytes.now) self.old.bytes.now }
    {
        let minus = self.peek() == Some(b'-');
        if minus {
            self.skip(1);
        }
        minus
    }

    // A space, and a number that may have a minus, by its form: `-0` is malformed.
    #[tactic(auto, using(crate::proofs::Tokens::minus_by, crate::proofs::Tokens::no_space))]
    pub fn read_signed_token(&mut self) -> Option<i32>
        ensures answer { due result self.new.bytes.now ≡ capped_signed (field signed_token self.old.bytes.now) }
        ensures range { IfSome result (λ z. nat_abs z ≤ 1000000001) }
    {
        self.read_space()?;
        let minus = self.read_minus();
        let value = i32::try_from(self.read_token()?).ok()?;
        if minus && value == 0 {
            return None;
        }
        Some(if minus { -value } else { value })
    }
}
