// The figure of the identity: the remaining weights of the soft literals that a set violates.
ghost use Rattle.std.specs.Prelude.{◌≡◌};
ghost use Rattle.asp.specs.Sets.{set_of};
ghost use Rattle.cores.specs.Identity.{violated_weight};
ghost use Rattle.cores.specs.Tables.{level_of, SoundTables};

use asp::atoms::AtomSet;
use cores::level::LevelTables;
use judging::judge::Cores;

pub fn violated_weight(t: &LevelTables, model: AtomSet<'_>) -> u64
    requires sound_tables { SoundTables t.now }
    ensures { result ≡ violated_weight (set_of model.entry.bytes.now) (level_of t.now) }
{
    let cores = Cores::of(t);
    // Kept: an array, since no program allocates.
    let mut counts = [0u16; 4097];
    let mut total: u64 = 0;
    for (p, r) in cores.softs.iter().enumerate() {
        if cores.violated(p, model, &mut counts) {
            total += u64::from(r.weight);
        }
    }
    total
}
