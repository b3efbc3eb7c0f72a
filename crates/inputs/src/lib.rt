// What the programs read, in lent bytes: what a reader gives, an argument, a file by its name.
#![tactic(auto)]

ghost use Rattle.std.specs.Prelude.{◌≡◌, ◌≤◌, ◌<◌, IfOk, IfSome, IsUtf8, length, take};
ghost use Rattle.std.specs.Io.KnownBytes.{Consumes, IsAtEnd};

use std::env::{Env, FillError};
use std::io::Read;
use std::rt::Files;
use std::{fs, io};

// Reads until the bytes are full or the reader has no more, and returns how many it put at their front.
#[tactic(auto, using(crate::proofs::Filled::filled_more))]
pub fn fill<R: Read>(from: &mut R, bytes: &mut [u8]) -> io::Result<usize>
    ensures count { IfOk result (λ k. k ≤ length bytes.new) }
    ensures size { length bytes.new ≡ length bytes.old }
    ensures given { IfOk result (λ k. Consumes (R.remaining from.old) (R.remaining from.new) (take k bytes.new)) }
    ensures ended { IfOk result (λ k. k < length bytes.new → IsAtEnd (R.remaining from.new)) }
{
    let mut done: usize = 0;
    while done < bytes.len() {
        let k = from.read(&mut bytes[done..])?;
        if k == 0 {
            return Ok(done);
        }
        done += k;
    }
    Ok(done)
}

// The length of the argument at i, which is put at the front of the bytes; 0 where it is longer than they are.
// Kept: 0, since every program takes an argument that is too long as it takes an empty one.
pub fn argument(rt: &impl Env, i: usize, bytes: &mut [u8]) -> Option<usize>
    ensures count { IfSome result (λ k. k ≤ length bytes.new) }
    ensures size { length bytes.new ≡ length bytes.old }
{
    match rt.arg(i, bytes) {
        Ok(k) => Some(k),
        Err(FillError::TooLong) => Some(0),
        Err(FillError::NotPresent) => None,
    }
}

// A file, opened to be read. A name that is not UTF-8 is an error.
pub fn open<R: Files>(rt: &R, name: &[u8]) -> io::Result<R::File>
    ensures { IfOk result (λ _. IsUtf8 name.now) }
{
    match std::str::from_utf8(name) {
        Ok(name) => fs::open(rt, name),
        Err(_) => Err(io::Error::from(io::ErrorKind::InvalidInput)),
    }
}

// Reads the file of that name into the bytes, and returns how many it put at their front. A file that cannot be opened counts as empty.
pub fn read<R: Files>(rt: &R, name: &[u8], bytes: &mut [u8]) -> io::Result<usize>
    ensures count { IfOk result (λ k. k ≤ length bytes.new) }
    ensures size { length bytes.new ≡ length bytes.old }
{
    match open(rt, name) {
        Ok(mut file) => fill(&mut file, bytes),
        Err(_) => Ok(0),
    }
}
