// Figures of a stored program: its counts, and a sum over each of its tables. A place outside a table is passed over.
ghost use Rattle.std.specs.Prelude.{◌≡◌};

use asp::entries::Entry;
use asp::rules::{BodyKind, Row};
use asp::symbols::SymbolRow;
use aspif::text::Stored;
use std::fmt;

#[derive(Clone, Copy, PartialEq, Eq, Debug)]
pub struct Figures {
    pub atoms: usize,
    pub rules: usize,
    pub rulesum: u32,
    pub entries: usize,
    pub entrysum: u32,
    pub symbols: usize,
    pub symbolsum: u32,
    pub text: usize,
    pub textsum: u32,
    pub levels: usize,
}

impl fmt::Display for Figures {
    fn fmt<W: fmt::Write>(&self, f: &mut fmt::Formatter<W>) -> fmt::Result {
        write!(
            f,
            "{} {} {} {} {} {} {} {} {} {}",
            self.atoms,
            self.rules,
            self.rulesum,
            self.entries,
            self.entrysum,
            self.symbols,
            self.symbolsum,
            self.text,
            self.textsum,
            self.levels
        )
    }
}

fn fold(h: u32, x: u32) -> u32 {
    ((h % 65521) * 31 + (x % 100000)) % 65521
}

fn fold_number(h: u32, x: u16) -> u32 {
    fold(h, u32::from(x % 60000))
}

// A literal or a priority.
fn fold_literal(h: u32, l: i32) -> u32 {
    fold(h, l.saturating_add(2000).unsigned_abs())
}

// A weight: its sign, its thousands and the rest.
fn fold_weight(h: u32, w: i32) -> u32 {
    let v = w.unsigned_abs();
    let a = fold(h, u32::from(w < 0));
    let b = fold(a, v / 1000);
    fold(b, v % 1000)
}

// A bound or a weight of a body.
fn fold_size(h: u32, w: i32) -> u32 {
    let v = w.unsigned_abs();
    let a = fold(h, v / 20000);
    fold(a, v % 20000)
}

// The k elements from a place on.
fn part<T>(t: &[T], from: u16, k: usize) -> &[T] {
    let rest = t.get(usize::from(from)..).unwrap_or(&[]);
    rest.get(..k).unwrap_or(rest)
}

fn fold_literals(h: u32, literals: &[i32]) -> u32 {
    literals.iter().fold(h, |h, l| fold_literal(h, *l))
}

fn fold_bytes(h: u32, bytes: &[u8]) -> u32 {
    bytes.iter().fold(h, |h, b| fold_number(h, u16::from(*b)))
}

// A row's kind in one number, as tests/aspif_texts.py has it.
fn kind_of(row: Row) -> u16 {
    let body = match row.body {
        BodyKind::Normal => 0,
        BodyKind::Weighted => 2,
        BodyKind::Mixed => 4,
    };
    body + u16::from(row.head.is_choice())
}

fn fold_rule(h: u32, pool: &[i32], row: Row) -> u32 {
    let size = usize::from(row.heads) + usize::from(row.literals);
    let a = fold_number(h, kind_of(row));
    let b = fold_number(a, row.heads);
    let c = fold_number(b, row.literals);
    let d = fold_literals(c, part(pool, row.first, size));
    if !row.body.is_weighted() {
        return d;
    }
    // the bound and the weights, behind the literals
    let whole = part(pool, row.first, size + usize::from(row.literals) + 1);
    whole.iter().skip(size).fold(d, |h, w| fold_size(h, *w))
}

fn fold_symbol(h: u32, text: &[u8], conditions: &[i32], row: SymbolRow) -> u32 {
    let a = fold_number(h, row.length);
    let b = fold_number(a, row.literals);
    let c = fold_bytes(b, part(text, row.name, usize::from(row.length)));
    fold_literals(
        c,
        part(conditions, row.condition, usize::from(row.literals)),
    )
}

fn fold_entry(h: u32, e: Entry) -> u32 {
    let a = fold_literal(h, e.priority);
    let b = fold_literal(a, e.literal);
    fold_weight(b, e.weight)
}

pub fn figures_of(p: &Stored, written: &[u8]) -> Figures
    ensures of_rules { (result.atoms ≡ p.now.counts.atoms) × (result.rules ≡ p.now.counts.rules) }
    ensures of_wishes { (result.entries ≡ p.now.counts.entries) × (result.levels ≡ p.now.counts.levels) }
    ensures of_text { (result.symbols ≡ p.now.counts.symbols) × (result.text ≡ p.now.counts.text) }
{
    let n = p.counts;
    let rules = p.rules.iter().take(n.rules);
    let entries = p.entries.iter().take(n.entries);
    let symbols = p.symbols.iter().take(n.symbols);
    Figures {
        atoms: n.atoms,
        rules: n.rules,
        rulesum: rules.fold(7, |h, row| fold_rule(h, &p.pool, *row)),
        entries: n.entries,
        entrysum: entries.fold(7, |h, e| fold_entry(h, *e)),
        symbols: n.symbols,
        symbolsum: symbols.fold(7, |h, row| fold_symbol(h, &p.text, &p.conditions, *row)),
        text: n.text,
        textsum: fold_bytes(7, part(written, 0, n.text)),
        levels: n.levels,
    }
}
