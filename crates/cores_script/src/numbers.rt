// The numbers of a script: whatever is no digit parts them.
ghost use Rattle.std.specs.Prelude.{◌<◌, ◌≤◌, length, IfSome};
ghost use Rattle.std.specs.Iterator.{at_most};

// What is left of a script.
#[derive(Drop)]
pub struct Numbers<'a> {
    pub rest: &'a [u8],
}

// 1,000,000,000 stands for all numbers above it.
impl Iterator for Numbers<'_> {
    type Item = usize;

    ghost remaining = { λ s. at_most (length s.rest.now) };

    ghost next_gives = { λ s r t. IfSome r (λ n. n ≤ 1000000000) × (length t.rest.now ≤ length s.rest.now) };

    fn next(&mut self) -> Option<usize> {
        let Some(from) = self.rest.iter().position(|b| b.is_ascii_digit()) else {
            // Passed over once, and not at each number that is due.
            self.rest = &[];
            return None;
        };
        let more = &self.rest[from + 1..];
        let count = more
            .iter()
            .position(|b| !b.is_ascii_digit())
            .unwrap_or(more.len());
        let digits = &self.rest[from..from + 1 + count];
        self.rest = &more[count..];
        Some(value(digits))
    }
}

impl Numbers<'_> {
    // The next number, 0 at the end.
    pub fn due(&mut self) -> usize
        ensures value { result ≤ 1000000000 }
        ensures rest { length self.new.rest.now ≤ length self.old.rest.now }
    {
        self.next().unwrap_or(0)
    }
}

fn value(digits: &[u8]) -> usize
    ensures { result ≤ 1000000000 }
{
    std::str::from_utf8(digits)
        .ok()
        .and_then(|digits| digits.parse::<usize>().ok())
        .unwrap_or(usize::MAX)
        .min(1_000_000_000)
}
