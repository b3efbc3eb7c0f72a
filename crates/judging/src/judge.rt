// Judging soft literals for a set. Judging one and counting a core's violated members call each other; the core number falls.
// The counts are kept for the set at hand, so that no core is counted twice.
ghost use Rattle.cores.specs.Judging.{FormedJudging};
ghost use Rattle.cores.specs.Tables.{judging_of};

use asp::atoms::AtomSet;
use cores::level::LevelTables;
use cores::soft::Soft;
use cores::softs::soft_at;

// The soft literals of a level and its cores, lent as far as the tables are filled: the records, where each core ends in the members, and the members.
#[derive(Clone, Copy)]
pub struct Cores<'a> {
    pub softs: &'a [Soft],
    pub ends: &'a [u16],
    pub members: &'a [u16],
    ghost formed: { FormedJudging (judging_of softs.now ends.now members.now) },
}

impl<'a> Cores<'a> {
    ghost use Rattle.std.specs.Prelude.{◌≡◌, ◌+◌, ◌<◌, ◌≤◌, ◌++◌, length, take};
    ghost use Rattle.asp.specs.Program.{All};
    ghost use Rattle.asp.specs.Sets.{set_of};
    ghost use Rattle.cores.specs.Judging.{violated_at, Known, Answers, CountAnswers, first_violated};
    ghost use Rattle.cores.specs.Tables.{held_in, SoundTables};
    ghost use Rattle.judging.specs.Lent.{tables_of};

    // Those of the level in work.
    pub fn of(t: &'a LevelTables) -> Self
        requires { SoundTables t.now }
        ensures softs { result.softs.now ≡ take t.now.count t.now.softs }
        ensures ends { result.ends.now ≡ take (t.now.cores + 1) t.now.ends }
        ensures members { result.members.now ≡ take (held_in t.now) t.now.members }
    {
        Cores {
            softs: t.soft_literals(),
            ends: &t.ends[..t.cores + 1],
            members: &t.members[..t.held()],
        }
    }

    // Whether the soft literal at place p is violated.
    // Kept: the counts of a set stay a parameter beside it: in a struct with them, the clause `Known` of four contracts would only become one that says that tables and set are the same.
    #[cycle(count_violated)]
    pub fn violated(&self, p: usize, model: AtomSet<'_>, counts: &mut [u16]) -> bool
        requires p_in_bounds { p < length self.now.softs.now }
        requires known { Known (tables_of self.now) (set_of model.bytes.now) counts.old }
        ensures { Answers (tables_of self.now) (set_of model.entry.bytes.now) counts.old result (violated_at (tables_of self.now) (set_of model.entry.bytes.now) p) counts.new }
    {
        let r = soft_at(self.softs, p);
        let j = usize::from(r.core);
        if j == 0 {
            return model.holds(r.literal);
        }
        usize::from(r.index) < self.count(j, model, counts)
    }

    // How many members of core j are violated.
    #[cycle(count_violated)]
    pub fn count(&self, j: usize, model: AtomSet<'_>, counts: &mut [u16]) -> usize
        requires le_j { (1 ≤ j) × (j < length self.now.ends.now) }
        requires known { Known (tables_of self.now) (set_of model.bytes.now) counts.old }
        ensures { CountAnswers (tables_of self.now) (set_of model.entry.bytes.now) counts.old result j counts.new }
    {
        let old = usize::from(counts[j]);
        if old != 0 {
            return old - 1;
        }
        let mut n: usize = 0;
        for k in usize::from(self.ends[j - 1])..usize::from(self.ends[j]) {
            if self.violated(usize::from(self.members[k]), model, counts) {
                n += 1;
            }
        }
        // Kept: a cast, as Rattle has no `From` here; the bound stands in the contract, and `try_from` would want an answer for what cannot be.
        counts[j] = (n + 1) as u16;
        n
    }

    // The first of the places that is violated.
    // Kept: that places are in the table stands in three contracts, since the places are slices of their own.
    pub fn first_violated(
        &self,
        places: &[u16],
        model: AtomSet<'_>,
        counts: &mut [u16],
    ) -> Option<usize>
        requires all { All (λ m. m < length self.now.softs.now) places.now }
        requires known { Known (tables_of self.now) (set_of model.bytes.now) counts.old }
        ensures { Answers (tables_of self.now) (set_of model.entry.bytes.now) counts.old result (first_violated (violated_at (tables_of self.now) (set_of model.entry.bytes.now)) places.now) counts.new }
    {
        for p in places {
            let p = usize::from(*p);
            if self.violated(p, model, counts) {
                return Some(p);
            }
        }
        None
    }

    // The first violated place of two lists, one after the other, by the counts that are kept.
    fn judge_with(
        &self,
        places: &[u16],
        more: &[u16],
        model: AtomSet<'_>,
        counts: &mut [u16],
    ) -> Option<usize>
        requires all { All (λ m. m < length self.now.softs.now) places.now }
        requires all_2 { All (λ m. m < length self.now.softs.now) more.now }
        requires known { Known (tables_of self.now) (set_of model.bytes.now) counts.old }
        ensures { result ≡ first_violated (violated_at (tables_of self.now) (set_of model.entry.bytes.now)) (places.now ++ more.now) }
    {
        // Kept: a match and no `or_else`, of which the proof did not close, since its closure lends the counts on.
        match self.first_violated(places, model, counts) {
            Some(p) => Some(p),
            None => self.first_violated(more, model, counts),
        }
    }

    // The same with no count kept yet. Each core is counted once at most.
    pub fn judge_both(&self, places: &[u16], more: &[u16], model: AtomSet<'_>) -> Option<usize>
        requires all { All (λ m. m < length self.now.softs.now) places.now }
        requires all_2 { All (λ m. m < length self.now.softs.now) more.now }
        ensures { result ≡ first_violated (violated_at (tables_of self.now) (set_of model.entry.bytes.now)) (places.now ++ more.now) }
    {
        // This is done at each stable leaf: where there are few cores, clearing all 8 KB costs more than counting them.
        if self.ends.len() <= 64 {
            return self.judge_with(places, more, model, &mut [0; 64]);
        }
        self.judge_with(places, more, model, &mut [0; 4097])
    }
}
