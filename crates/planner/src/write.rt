// Write-out: the text that was loaded, less its comments.
ghost use Rattle.std.specs.Prelude.{◌≡◌};
ghost use Rattle.planner.specs.Calls.{fills, says, write_call};

use crate::fill::written;
use crate::service::{Refusal, Service};

impl Service {
    pub fn write(&self, bytes: &mut [u8]) -> Result<usize, Refusal>
        ensures { fills (says result) self.now.held bytes.new ≡ write_call self.now.held bytes.old }
    {
        let l = self.loaded()?;
        let text = &l.stored.text[..l.stored.counts.text];
        written(aspif::write::write(text, bytes))
    }
}
