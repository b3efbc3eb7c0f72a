// Reads texts from standard input, each as its length in eight digits and then its bytes, and prints the answer to each load.
// An accepted text's answer has figures of its tables and of what is written out; what is written is loaded again, and must give the same figures.
// tests/aspif_texts.py writes the texts and their answers from document 01 and orders 1 and 2.
#![tactic(auto)]

ghost use Rattle.std.specs.Prelude.{◌≤◌};

mod figures;

use aspif::text::{Stored, load};
use aspif::write::{Short, write};
use figures::{Figures, figures_of};
use std::io;
use std::io::Read;

fn main(rt: HostRuntime) -> io::Result<()> {
    let mut input = rt.stdin();
    for _ in 0..4096 {
        if !one_text(&rt, &mut input)? {
            return Ok(());
        }
    }
    Ok(())
}

// The value of eight digits.
fn length_of(digits: &[u8]) -> usize {
    digits
        .iter()
        .fold(0, |n, d| (n % 100000) * 10 + usize::from(*d % 16))
}

// One text, until there is none.
fn one_text(rt: &impl Print, input: &mut impl Read) -> io::Result<bool> {
    // Kept: buffers of a fixed size, here and below, since no program allocates.
    let mut head = [0u8; 8];
    if inputs::fill(input, &mut head)? < 8 {
        return Ok(false);
    }
    let mut text = [0u8; 65600];
    let size = length_of(&head);
    if text.len() < size || inputs::fill(input, &mut text[..size])? < size {
        return Ok(false);
    }
    answer(rt, &text[..size])?;
    Ok(true)
}

fn answer(rt: &impl Print, s: &[u8]) -> io::Result<()> {
    match load(s) {
        Ok(p) => accepted(rt, &p),
        Err(refused) => println!(rt; "{refused}"),
    }
}

// The figures and priorities, and the same of what is written out and loaded again.
fn accepted(rt: &impl Print, p: &Stored) -> io::Result<()>
    requires { p.now.counts.text ≤ 65536 }
{
    let mut buffer = [0u8; 65600];
    let Ok(length) = write(&p.text[..p.counts.text], &mut buffer) else {
        return rt.print("short\n");
    };
    let f = figures_of(p, &buffer);
    print!(rt; "accepted {f}")?;
    for level in p.levels.iter().take(p.counts.levels) {
        print!(rt; " {level}")?;
    }
    small(rt, p)?;
    if !buffer.get(..length).is_some_and(|text| again(text, f)) {
        rt.print(" differs")?;
    }
    rt.print("\n")
}

// A write into 16 bytes of value 7, and how many of them are left as they were.
fn small(rt: &impl Print, p: &Stored) -> io::Result<()>
    requires { p.now.counts.text ≤ 65536 }
{
    let mut few = [7u8; 16];
    match write(&p.text[..p.counts.text], &mut few) {
        Ok(length) => print!(rt; " wrote {length} {}", sevens(&few, length)),
        Err(Short { needed }) => print!(rt; " short {needed} {}", sevens(&few, 0)),
    }
}

// How many bytes from a place on are 7.
fn sevens(bytes: &[u8], from: usize) -> usize {
    bytes.iter().skip(from).filter(|b| **b == 7).count()
}

// What was written is accepted with the same figures.
fn again(s: &[u8], f: Figures) -> bool {
    match load(s) {
        Ok(p) => figures_of(&p, s) == f,
        Err(_) => false,
    }
}
