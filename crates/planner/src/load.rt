// Load: a text in place of what was loaded.
ghost use Rattle.aspif_lines.specs.Text.{text_of};
ghost use Rattle.planner.specs.Calls.{outcome, says_load, AfterLoad};

use crate::service::{Loaded, Service};
use crate::tables;
pub use aspif::text::RefusedAt;

// "accepted, the service is as a fresh one given it, with status running"; refused, what is held is as before. It asks nothing of that.
pub fn load(held: &mut Option<Loaded>, text: &[u8]) -> Result<(), RefusedAt>
    ensures { AfterLoad (text_of text.now) held.old (outcome (says_load result) held.new) }
{
    let stored = aspif::text::load(text)?;
    let limited = tables::limited(&stored);
    let prepared = optimizer::prepare::prepare(tables::rules(&stored), limited.objective);
    let search = limited.fresh();
    *held = Some(Loaded {
        stored,
        prepared,
        search,
    });
    Ok(())
}

impl Service {
    // The same of a service.
    pub fn load(&mut self, text: &[u8]) -> Result<(), RefusedAt>
        ensures { AfterLoad (text_of text.now) self.old.held (outcome (says_load result) self.new.held) }
    {
        load(&mut self.held, text)
    }
}
