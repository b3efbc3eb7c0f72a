// A number for each rule: 1 for each undecided condition, 2 for each false one, and 2 more for a choice rule. So 0 is a broken rule, and 1 one with a single literal left.
ghost use Rattle.std.specs.Prelude.{◌≡◌, ℕ, ◌-◌, ◌≤◌, ◌<◌, length, get_or};
ghost use Rattle.counting.specs.Counters.{counters, first, list_length, plus_one, lower_marks, raise_marks, freed_marks, lower_at, raise_at, lower_from, raise_from, shift_of, decide_of, release_of};
ghost use Rattle.counting.specs.Lent.{lists_lent};

use crate::index::Lists;

// Where the searches start: how many rules are broken; a rule below which all numbers are 2 or more; one below which none is 0; and an atom below which all are decided.
#[derive(Clone, Copy, PartialEq, Eq, Debug)]
pub struct Marks {
    pub broken: usize,
    pub low: usize,
    pub zero: usize,
    pub atom: usize,
}

// The numbers, by rule, and the marks.
#[derive(Clone, Copy)]
// Kept: arrays of document 01's sizes, since nothing here takes memory from the heap.
pub struct Counters {
    pub key: [u16; 2048],
    pub marks: Marks,
}

fn raised(k: u16) -> u16
    ensures { result ≡ plus_one k }
{
    k.saturating_add(1)
}

pub fn bump(b: usize) -> usize
    ensures { result ≡ plus_one b }
{
    if b < 65535 { b + 1 } else { b }
}

pub fn least(r: usize, low: usize) -> usize
    ensures { result ≡ Rattle.counting.specs.Counters.least r low }
{
    r.min(low)
}

impl Marks {
    // After rule r had k and has one less.
    fn lower(self, r: usize, k: u16) -> Marks
        ensures { result ≡ lower_marks r k self }
    {
        if 2 < k {
            return self;
        }
        if k == 1 {
            return Marks {
                broken: bump(self.broken),
                low: least(r, self.low),
                zero: least(r, self.zero),
                atom: self.atom,
            };
        }
        Marks {
            low: least(r, self.low),
            ..self
        }
    }

    // After a rule had k and has one more.
    fn raise(self, k: u16) -> Marks
        ensures { result ≡ raise_marks k self }
    {
        if k == 0 {
            return Marks {
                broken: self.broken.saturating_sub(1),
                ..self
            };
        }
        self
    }

    // After the atom a becomes undecided.
    fn freed(self, a: usize) -> Marks
        ensures { result ≡ freed_marks a self }
    {
        Marks {
            atom: least(a, self.atom),
            ..self
        }
    }
}

// Kept: the bounds of a rule's number and of an atom stand in contracts, since tables and lists hold them as plain numbers. The marks go in and come back by value, so that
// a loop over a list has them in registers; behind `&mut` each rule would read and write them, and a move through long lists took 1.3 times as long.

// Rule r has one condition less: its number, and the marks after it.
fn lower_at(key: &mut [u16; 2048], r: usize, m: Marks) -> Marks
    requires { r < 2048 }
    ensures { counters key.new result ≡ lower_at r (counters key.old m) }
{
    let k = key[r];
    key[r] = k.saturating_sub(1);
    m.lower(r, k)
}

// Rule r has one condition more.
fn raise_at(key: &mut [u16; 2048], r: usize, m: Marks) -> Marks
    requires { r < 2048 }
    ensures { counters key.new result ≡ raise_at r (counters key.old m) }
{
    let k = key[r];
    key[r] = raised(k);
    m.raise(k)
}

impl Counters {
    // The rules at the places `from` to `end` have one condition less.
    fn lower_all(&mut self, rules: &[u16], from: usize, end: usize)
        requires { (end ≤ length rules.now) × ((e : ℕ) → get_or rules.now e 0 < 2048) }
        ensures { self.new ≡ lower_from rules.now from (end - from) self.old }
    {
        let mut marks = self.marks;
        for e in from..end {
            marks = lower_at(&mut self.key, usize::from(rules[e]), marks);
        }
        self.marks = marks;
    }

    // The rules at the places `from` to `end` have one condition more.
    fn raise_all(&mut self, rules: &[u16], from: usize, end: usize)
        requires { (end ≤ length rules.now) × ((e : ℕ) → get_or rules.now e 0 < 2048) }
        ensures { self.new ≡ raise_from rules.now from (end - from) self.old }
    {
        let mut marks = self.marks;
        for e in from..end {
            marks = raise_at(&mut self.key, usize::from(rules[e]), marks);
        }
        self.marks = marks;
    }

    // Those of list i.
    pub fn raise_list(&mut self, o: &Lists<'_>, i: usize)
        requires { i < 2050 }
        ensures { self.new ≡ raise_from o.now.rules.now (first (lists_lent o.now) i) (list_length (lists_lent o.now) i) self.old }
    {
        self.raise_all(
            o.rules,
            usize::from(o.starts[i]),
            usize::from(o.starts[i + 1]),
        );
    }

    // The literal of list `down` comes nearer to true, that of list `up` to false.
    fn shift(&mut self, o: &Lists<'_>, down: usize, up: usize)
        requires { (down < 2050) × (up < 2050) }
        ensures { self.new ≡ shift_of (lists_lent o.now) down up self.old }
    {
        self.lower_all(
            o.rules,
            usize::from(o.starts[down]),
            usize::from(o.starts[down + 1]),
        );
        self.raise_list(o, up);
    }

    // An undecided atom gets the value s.
    fn decide(&mut self, o: &Lists<'_>, a: usize, s: u8)
        requires { a ≤ 1024 }
        ensures { self.new ≡ decide_of (lists_lent o.now) a s self.old }
    {
        if s == 1 {
            self.shift(o, a * 2, a * 2 + 1);
            return;
        }
        self.shift(o, a * 2 + 1, a * 2);
    }

    // An atom that had the value y becomes undecided.
    fn release(&mut self, o: &Lists<'_>, a: usize, y: u8)
        requires { a ≤ 1024 }
        ensures { self.new ≡ release_of (lists_lent o.now) a y self.old }
    {
        if y == 0 {
            return;
        }
        self.marks = self.marks.freed(a);
        if y == 1 {
            self.shift(o, a * 2 + 1, a * 2);
            return;
        }
        self.shift(o, a * 2, a * 2 + 1);
    }

    // An atom that has the value at a, of those lent, becomes undecided.
    pub fn forget(&mut self, o: &Lists<'_>, value: &[u8; 1025], a: usize)
        requires { a ≤ 1024 }
        ensures { self.new ≡ release_of (lists_lent o.now) a (get_or value.now a 0) self.old }
    {
        self.release(o, a, value[a]);
    }

    // An atom that has the value at a, of those lent, gets the value s.
    pub fn assign(&mut self, o: &Lists<'_>, value: &[u8; 1025], a: usize, s: u8)
        requires { a ≤ 1024 }
        ensures { self.new ≡ decide_of (lists_lent o.now) a s (release_of (lists_lent o.now) a (get_or value.now a 0) self.old) }
    {
        self.forget(o, value, a);
        self.decide(o, a, s);
    }
}
