// Symbols, by their position from 0: the name, and whether it is shown.
ghost use Rattle.std.specs.Prelude.{◌≡◌, ◌+◌, ◌≤◌, length};
ghost use Rattle.planner.specs.Calls.{fills, filling, filled_with, says, name_of, name_call, outcome, shown_call};

use crate::fill::written;
use crate::look::has_model;
use crate::service::{Refusal, Service};
use asp::atoms::AtomSet;
use asp::symbols::{SymbolRow, is_shown};

// The name of the symbol of a row, at the front of the bytes.
fn fill_name(text: &[u8], row: SymbolRow, bytes: &mut [u8]) -> Result<usize, Refusal>
    requires { row.name + row.length ≤ length text.now }
    ensures { filling (says result) bytes.new ≡ filled_with (name_of text.now row) bytes.old }
{
    let first = usize::from(row.name);
    let length = usize::from(row.length);
    written(aspif::write::write(&text[first..first + length], bytes))
}

impl Service {
    // "a symbol's name, written at the front of lent bytes"; `fill::part` hands it back as a part of them.
    pub fn name(&self, i: usize, bytes: &mut [u8]) -> Result<usize, Refusal>
        ensures { fills (says result) self.now.held bytes.new ≡ name_call self.now.held i bytes.old }
    {
        let l = self.loaded()?;
        if l.stored.counts.symbols <= i {
            return Err(Refusal::NoSymbol);
        }
        fill_name(&l.stored.text, l.stored.symbols[i], bytes)
    }

    // "in a call of its own, whether that symbol is shown"
    pub fn shown(&self, i: usize) -> Result<bool, Refusal>
        ensures { outcome (says result) self.now.held ≡ shown_call self.now.held i }
    {
        let l = self.loaded()?;
        if l.stored.counts.symbols <= i {
            return Err(Refusal::NoSymbol);
        }
        if !has_model(l.search.phase) {
            return Err(Refusal::NoModel);
        }
        let best = AtomSet {
            bytes: &l.search.work.best,
        };
        Ok(is_shown(&l.stored.conditions, l.stored.symbols[i], best))
    }
}
