// The answers of the service, in print.
ghost use Rattle.std.specs.Prelude.{◌≡◌};
ghost use Rattle.planner.specs.Held.{fresh_service};

use crate::input;
use console::print::{Figures, UpperBound};
use planner::fill::part_or;
use planner::look::{InWork, View};
use planner::service::{Refusal, Service};
use std::io::Read;
use std::{fmt, io};

const TEXT_ROOM: u32 = 65537; // one byte more than a text may have

const WRITE_ROOM: usize = 65536;

const MODEL_ROOM: usize = 1024;

const NAME_ROOM: usize = 64;

// A number of a command as one of bytes, or as an index.
// Kept: a cast, since Rattle has no `From<u32>` for `usize`.
fn index(n: u32) -> usize
    ensures { result ≡ n }
{
    n as usize
}

pub fn load(
    rt: &impl Print,
    input: &mut impl Read,
    service: &mut Service,
    size: u32,
) -> io::Result<()> {
    // Kept: an array, since no program allocates; its length by a cast, since Rattle has no `From<u32>` for `usize`.
    let mut bytes = [0u8; TEXT_ROOM as usize];
    let room = size.min(TEXT_ROOM);
    let k = inputs::fill(input, &mut bytes[..index(room)])?;
    input::skip(input, size - room)?;
    match service.load(&bytes[..k]) {
        Ok(()) => rt.print("loaded\n"),
        Err(refused) => println!(rt; "{refused}"),
    }
}

// What an advance or a run answers.
pub fn told<T: fmt::Display + Drop>(rt: &impl Print, answer: Result<T, Refusal>) -> io::Result<()> {
    match answer {
        Ok(told) => println!(rt; "{told}"),
        Err(refusal) => println!(rt; "{refusal}"),
    }
}

pub fn clear(rt: &impl Print, service: &mut Service) -> io::Result<()>
    ensures { service.new.held ≡ fresh_service }
{
    service.clear();
    rt.print("cleared\n")
}

pub fn look(rt: &impl Print, view: &View) -> io::Result<()> {
    let status = view.status;
    let advances = view.advances;
    let InWork { level, stratum } = view.in_work.unwrap_or_default();
    let priorities = Figures(view.priorities);
    let lower = Figures(view.lowers);
    let upper = UpperBound(*view);
    print!(rt; "status {status}\nadvances {advances}\npriorities{priorities}\n")?;
    println!(rt; "lower{lower}\nupper{upper}\nlevel {level}\nstratum {stratum}")
}

pub fn write(rt: &impl Print, service: &Service, room: u32) -> io::Result<()> {
    // Kept: an array, since no program allocates.
    let mut bytes = [0u8; WRITE_ROOM];
    let lent = &mut bytes[..WRITE_ROOM.min(index(room))];
    let answer = service.write(lent);
    match part_or(answer, lent) {
        Ok(text) => {
            let size = text.len();
            println!(rt; "text {size}")?;
            rt.write_all(text)
        }
        Err(refusal) => println!(rt; "{refusal}"),
    }
}

pub fn model(rt: &impl Print, service: &Service, room: u32) -> io::Result<()> {
    // Kept: an array, since no program allocates.
    let mut bytes = [0u8; MODEL_ROOM];
    let lent = &mut bytes[..MODEL_ROOM.min(index(room))];
    let answer = service.model(lent);
    match part_or(answer, lent) {
        Ok(atoms) => digits(rt, atoms),
        Err(refusal) => println!(rt; "{refusal}"),
    }
}

// For each atom a digit, 1 where its byte is 1; in one write, since each takes as long as the digits of many atoms.
fn digits(rt: &impl Print, atoms: &[u8]) -> io::Result<()> {
    // Kept: an array, since no program allocates.
    let mut digits = [b'0'; MODEL_ROOM];
    for (digit, atom) in digits.iter_mut().zip(atoms) {
        if *atom == 1 {
            *digit = b'1';
        }
    }
    rt.print("model ")?;
    rt.write_all(&digits[..MODEL_ROOM.min(atoms.len())])?;
    rt.print("\n")
}

pub fn symbol(rt: &impl Print, service: &Service, at: u32, room: u32) -> io::Result<()> {
    // Kept: an array, since no program allocates.
    let mut bytes = [0u8; NAME_ROOM];
    let lent = &mut bytes[..NAME_ROOM.min(index(room))];
    let answer = service.name(index(at), lent);
    match part_or(answer, lent) {
        Ok(name) => {
            let size = name.len();
            print!(rt; "name {size} ")?;
            rt.write_all(name)?;
            rt.print("\n")
        }
        Err(refusal) => println!(rt; "{refusal}"),
    }
}

pub fn shown(rt: &impl Print, service: &Service, at: u32) -> io::Result<()> {
    match service.shown(index(at)) {
        Ok(true) => rt.print("shown 1\n"),
        Ok(false) => rt.print("shown 0\n"),
        Err(refusal) => println!(rt; "{refusal}"),
    }
}
