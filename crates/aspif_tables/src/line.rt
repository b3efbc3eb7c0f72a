// One line into the tables.
ghost use Rattle.std.specs.Prelude.{◌≡◌, ◌∷◌, ◌+◌, ◌-◌, ◌≤◌, ◌==◌, IfSome, OnErr, length, take, drop, position};
ghost use Rattle.aspif_lines.specs.Seen.{follow};
ghost use Rattle.aspif_lines.specs.Text.{pieces, stepped_line};
ghost use Rattle.aspif_tables.specs.Lists.{followed, Appended, SplitLong, Sound, Within, reading_in, seen_turn, TurnAfter};

use super::table::Stored;
use aspif_fields::refusal::Refusal;
use aspif_fields::token::Rest;
use aspif_lines::members::read_end;

const MOST_KIND: usize = 10; // document 01: "the kind, 0 to 10"

// The place of the next byte 10.
fn newline(s: &[u8]) -> Option<usize>
    ensures { result ≡ position (λ b. b == 10) s.now }
{
    s.iter().position(|b| *b == b'\n')
}

// Where the line from `at` on ends: at the next byte 10, or where the text does.
#[tactic(auto, using(crate::proofs::Pieces::end_within))]
pub fn line_end(s: &[u8], at: usize) -> usize
    requires { at ≤ length s.now }
    ensures after { at ≤ result }
    ensures within { result ≤ length s.now }
    ensures first { pieces (drop at s.now) ≡ take (result - at) (drop at s.now) ∷ follow (drop result s.now) }
{
    at + newline(&s[at..]).unwrap_or(s.len() - at)
}

// The line that comes next, and what follows its byte 10; nothing follows without it.
#[tactic(auto, using(crate::proofs::Pieces::split_none))]
pub fn split_line(s: &[u8]) -> (&[u8], Option<&[u8]>)
    ensures split { pieces s.now ≡ result.0.now ∷ followed result.1 }
    ensures long { SplitLong (length s.now) (length result.0.now) result.1 }
    ensures front { result.0.now ≡ take (length result.0.now) s.now }
    ensures after { IfSome result.1 (λ r. r.now ≡ drop (length result.0.now + 1) s.now) }
{
    match newline(s) {
        Some(i) => (&s[..i], Some(&s[i + 1..])),
        None => (s, None),
    }
}

// The line and its byte 10, after the first `used` bytes of the text.
pub fn append_line(text: &mut [u8], used: usize, s: &[u8]) -> usize
    requires { used + length s.now + 1 ≤ length text.old }
    ensures { Appended text.old text.new used s.now result }
{
    let end = used + s.len();
    text[used..end].copy_from_slice(s);
    text[end] = b'\n';
    end + 1
}

// What a line leads to beside a refusal: the end, or the next line.
#[derive(Clone, Copy, PartialEq, Eq, Debug)]
pub enum LineTurn {
    Last,
    Goes,
}

// Kept: `Within` stands in the contract, as in add.rt: the line may pass a limit, which is judged after it.
impl Stored {
    // A line, without its byte 10. It is stored first, since a symbol's name is a part of the stored text; a comment leaves the text at its old length.
    pub fn take_line(&mut self, s: &[u8]) -> Result<LineTurn, Refusal>
        requires sound { Sound self.old }
        requires within { Within self.old.counts }
        requires room { self.old.counts.text + length s.now ≤ 65536 }
        ensures answer { seen_turn self.new result ≡ stepped_line s.now (reading_in self.old) }
        ensures after { TurnAfter self.new (self.old.counts.text + length s.now + 1) result }
        ensures stays { OnErr result (self.new.counts ≡ self.old.counts) }
    {
        let end = append_line(&mut self.text, self.counts.text, s);
        let mut rest = Rest { bytes: s };
        match rest.read_number(0, MOST_KIND)? {
            0 => {
                read_end(&rest)?;
                self.counts.text = end;
                return Ok(LineTurn::Last);
            }
            1 => self.add_rule(&mut rest, end)?,
            2 => self.add_minimise(&mut rest, end)?,
            4 => self.add_symbol(s, &mut rest, end)?,
            10 => {} // a comment
            _ => return Err(Refusal::Unread),
        }
        Ok(LineTurn::Goes)
    }
}
