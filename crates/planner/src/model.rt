// The best model.
ghost use Rattle.std.specs.Prelude.{◌≡◌, ◌≤◌};
ghost use Rattle.asp.specs.Sets.{set_of};
ghost use Rattle.planner.specs.Calls.{fills, filling, filled_with, byte_of, model_bytes, says, model_call};

use crate::look::has_model;
use crate::service::{Refusal, Service};
use asp::atoms::AtomSet;

// "1 for an atom in it and 0 for another"
fn byte_of(best: AtomSet<'_>, a: usize) -> u8
    requires { a ≤ 1024 }
    ensures { result ≡ byte_of (set_of best.entry.bytes.now) a }
{
    u8::from(best.has(a))
}

// A set of atoms 1 to n at the front of the bytes.
fn fill_model(best: &[u8; 1025], n: usize, bytes: &mut [u8]) -> Result<usize, Refusal>
    requires { n ≤ 1024 }
    ensures { filling (says result) bytes.new ≡ filled_with (model_bytes (set_of best.now) n) bytes.old }
{
    if bytes.len() < n {
        return Err(Refusal::Short { needed: n });
    }
    for i in 0..n {
        bytes[i] = byte_of(AtomSet { bytes: best }, i + 1);
    }
    Ok(n)
}

impl Service {
    pub fn model(&self, bytes: &mut [u8]) -> Result<usize, Refusal>
        ensures { fills (says result) self.now.held bytes.new ≡ model_call self.now.held bytes.old }
    {
        let l = self.loaded()?;
        if !has_model(l.search.phase) {
            return Err(Refusal::NoModel);
        }
        fill_model(&l.search.work.best, l.stored.counts.atoms, bytes)
    }
}
