// `4 m s k literals`: a symbol.
ghost use Rattle.std.specs.Prelude.{◌≡◌, [], ◌+◌, ◌<◌, ◌≤◌, max, length, pos, nat_abs, IfOk};
ghost use Rattle.asp.specs.Program.{highest};
ghost use Rattle.asp.specs.Tables.{literals_at};
ghost use Rattle.aspif_fields.specs.Fields.{within, next, field};
ghost use Rattle.aspif_fields.specs.SeenFields.{read_as, read_into};
ghost use Rattle.aspif_lines.specs.Text.{more, name_byte, symbol_line};
ghost use Rattle.aspif_lines.specs.Seen.{bytes_at, symbol_in, SymbolSmall, Kept};

use super::members::{read_end, read_members};
use super::room::Conditions;
use aspif_fields::field::MOST_COUNT;
use aspif_fields::refusal::Refusal;
use aspif_fields::token::Rest;

const MOST_NAME: usize = 64; // document 01: "a symbol's m 1 to 64"

// A byte of a name.
fn is_name(b: u8) -> bool
    ensures { result ≡ within 32 126 b }
{
    (32..=126).contains(&b)
}

// Whether such a byte comes next.
fn goes_on(rest: &Rest) -> bool
    ensures { result ≡ within 32 126 (next rest.now.bytes.now) }
{
    rest.peek().is_some_and(is_name)
}

// The m bytes of a name. A byte outside 32 to 126, or none, is refusal 2.
#[tactic(auto, using(crate::proofs::Names::name_start, crate::proofs::Names::name_stop, crate::proofs::Names::name_done))]
fn read_bytes(rest: &mut Rest, m: usize) -> Result<(), Refusal>
    ensures answer { read_into result (bytes_at rest.old.bytes.now 0 m) rest.new.bytes.now ≡ more name_byte m [] rest.old.bytes.now }
    ensures inside { IfOk result (λ u. m + length rest.new.bytes.now ≡ length rest.old.bytes.now) }
{
    for _ in 0..m {
        if !goes_on(rest) {
            return Err(Refusal::Malformed);
        }
        rest.skip(1);
    }
    Ok(())
}

// A space, and a name.
fn read_name(rest: &mut Rest, m: usize) -> Result<(), Refusal>
    ensures answer { read_into result (bytes_at rest.old.bytes.now 1 m) rest.new.bytes.now ≡ field (more name_byte m []) rest.old.bytes.now }
    ensures inside { IfOk result (λ u. 1 + m + length rest.new.bytes.now ≡ length rest.old.bytes.now) }
{
    let Some(()) = rest.read_space() else {
        return Err(Refusal::Malformed);
    };
    read_bytes(rest, m)
}

// A symbol: its name is in the line, `name` bytes on, its condition in the pool. The highest atom so far.
#[derive(Clone, Copy, PartialEq, Eq, Debug)]
pub struct SymbolLine {
    pub name: usize,
    pub length: usize,
    pub shown: usize,
    pub top: usize,
}

#[tactic(auto, unfolding(crate::specs::Text::symbol_line))]
pub fn read_symbol(
    rest: &mut Rest,
    conditions: &mut Conditions,
    used: usize,
    start: usize,
) -> Result<SymbolLine, Refusal>
    requires { used + 1024 ≤ length conditions.old }
    ensures answer { read_as (symbol_in rest.old.bytes.now conditions.new used) result [] ≡ symbol_line rest.old.bytes.now }
    ensures small { IfOk result (SymbolSmall (length rest.old.bytes.now)) }
    ensures top { IfOk result (λ s. s.top ≡ max start (highest nat_abs (literals_at conditions.new used s.shown))) }
    ensures kept { Kept (pos 0) used conditions.old conditions.new }
{
    let line = rest.bytes.len();
    let length = rest.read_natural(1, MOST_NAME)?;
    let name = line - rest.bytes.len() + 1;
    read_name(rest, length)?;
    let shown = rest.read_natural(0, MOST_COUNT)?;
    let top = read_members(
        rest,
        |rest| rest.read_literal(),
        shown,
        conditions,
        used,
        start,
    )?;
    read_end(rest)?;
    Ok(SymbolLine {
        name,
        length,
        shown,
        top,
    })
}
