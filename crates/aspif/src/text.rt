// The lines of a text in order, and the text as a whole.
ghost use Rattle.std.specs.Prelude.{◌≡◌, ◌+◌, ◌≤◌, length, IfOk};
ghost use Rattle.aspif_lines.specs.Text.{same_bytes, header, text_of, lines, pieces};
ghost use Rattle.aspif_tables.specs.Lists.{lists_of, no_counts, Sized, Sound, Within, reading_in};
ghost use Rattle.aspif.specs.Store.{onward_of, seen_onward, OnwardAfter, seen_verdict, answer_of, WellFormed};

use aspif_fields::refusal::Refusal;
use aspif_tables::line::{LineTurn, append_line, split_line};
use aspif_tables::table::Counts;
pub use aspif_tables::table::Stored;
use std::fmt;

const MOST_BYTES: usize = 65536; // document 01: "At most 65,536 bytes."

const HEADER: &[u8] = b"asp 1 0 0";

// Why a text is refused, and on which line.
#[derive(Clone, Copy, PartialEq, Eq, Debug)]
pub struct RefusedAt {
    pub refusal: Refusal,
    pub line: usize,
}

// "A refused load prints only `refused 2 at line 3`, with its own numbers."
impl fmt::Display for RefusedAt {
    ghost use Rattle.std.specs.Prelude.{Some};
    ghost use Rattle.aspif.specs.Print.{refused_text};

    ghost output = { λ e. Some (refused_text e) };

    fn fmt<W: fmt::Write>(&self, f: &mut fmt::Formatter<W>) -> fmt::Result {
        let RefusedAt { refusal, line } = self;
        write!(f, "refused {} at line {line}", refusal.number())
    }
}

// After a line's fields: its byte 10, what follows it, the limits. What comes next, or nothing where the text ends with the line.
fn after_line<'a>(
    turn: LineTurn,
    after: Option<&'a [u8]>,
    counts: Counts,
    line: usize,
) -> Result<Option<&'a [u8]>, RefusedAt>
    requires { line ≤ 65538 }
    ensures { result ≡ onward_of turn after.entry counts line }
{
    let Some(rest) = after else {
        let refusal = Refusal::Malformed; // its byte 10 lacks, whatever the limits say
        return Err(RefusedAt { refusal, line });
    };
    match turn {
        LineTurn::Last => {
            if rest.is_empty() {
                return Ok(None);
            }
            let refusal = Refusal::Malformed;
            let line = line + 1;
            Err(RefusedAt { refusal, line })
        }
        LineTurn::Goes => {
            if counts.fits() {
                return Ok(Some(rest));
            }
            let refusal = Refusal::PastLimit;
            Err(RefusedAt { refusal, line })
        }
    }
}

// The line that comes next, which is line `line`.
fn one_line<'a>(p: &mut Stored, rest: &'a [u8], line: usize) -> Result<Option<&'a [u8]>, RefusedAt>
    requires sound { Sound p.old }
    requires within { Within p.old.counts }
    requires room { (p.old.counts.text + length rest.now ≤ 65536) × (line ≤ 65538) }
    ensures answer { seen_onward p.new line result ≡ lines line (reading_in p.old) (pieces rest.now) }
    ensures after { OnwardAfter p.new line (length rest.now) p.old.counts.text result }
{
    let (l, after) = split_line(rest);
    let turn = p
        .take_line(l)
        .map_err(|refusal| RefusedAt { refusal, line })?;
    after_line(turn, after, p.counts, line)
}

// The lines from line 2 on.
fn read_lines(p: &mut Stored, s: &[u8]) -> Result<(), RefusedAt>
    requires sound { Sound p.old }
    requires within { Within p.old.counts }
    requires room { p.old.counts.text + length s.now ≤ 65536 }
    ensures answer { seen_verdict p.new result ≡ lines 2 (reading_in p.old) (pieces s.now) }
    ensures after { IfOk result (λ u. Sound p.new) }
{
    // Kept: a `for` over the numbers of the lines would want an end, and an answer for a text that goes past it.
    let mut rest = s;
    let mut line: usize = 2;
    while let Some(next) = one_line(p, rest, line)? {
        rest = next;
        line += 1;
    }
    Ok(())
}

// The same bytes.
#[tactic(auto, using(crate::proofs::Texts::same_pointwise))]
pub fn is_same(a: &[u8], b: &[u8]) -> bool
    ensures { result ≡ same_bytes a.now b.now }
{
    a == b
}

// Line 1.
fn is_header(l: &[u8]) -> bool
    ensures { result ≡ same_bytes l.now header }
{
    is_same(l, HEADER)
}

// The whole text into the tables.
#[tactic(auto, using(crate::proofs::Texts::text_long, crate::proofs::Texts::text_wrong, crate::proofs::Texts::text_cut))]
fn read_text(p: &mut Stored, s: &[u8]) -> Result<(), RefusedAt>
    requires counts { p.old.counts ≡ no_counts 0 }
    requires sized { Sized (lists_of p.old) }
    ensures answer { seen_verdict p.new result ≡ text_of s.now }
    ensures after { IfOk result (λ u. Sound p.new) }
{
    if MOST_BYTES < s.len() {
        return Err(RefusedAt {
            refusal: Refusal::PastLimit,
            line: 0,
        });
    }
    let (l, after) = split_line(s);
    if !is_header(l) {
        return Err(RefusedAt {
            refusal: Refusal::Header,
            line: 1,
        });
    }
    let Some(next) = after else {
        return Err(RefusedAt {
            refusal: Refusal::Malformed,
            line: 1,
        });
    };
    p.counts.text = append_line(&mut p.text, 0, l);
    read_lines(p, next)
}

// The program of a text, or its refusal and line.
pub fn load(s: &[u8]) -> Result<Stored, RefusedAt>
    ensures answer { answer_of result ≡ text_of s.now }
    ensures formed { IfOk result WellFormed }
{
    let mut stored = Stored::empty();
    read_text(&mut stored, s)?;
    Ok(stored)
}
