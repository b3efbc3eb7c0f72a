// The service, and an empty one.
ghost use Rattle.std.specs.Prelude.{◌≡◌};
ghost use Rattle.std.specs.Option.{ForSome};
ghost use Rattle.planner.specs.Held.{fresh_service};
ghost use Rattle.planner.specs.Sound.{Sound};

use advancing::state::{Phase, Search};
use aspif::text::Stored;
use optimizer::prepare::Preparation;

// A program, what is prepared for it, and its optimization.
#[derive(Clone, Copy)]
pub struct Loaded {
    pub stored: Stored,
    pub prepared: Preparation,
    pub search: Search,
}

// A program with its optimization, if one is loaded. It is what calls from a fresh service leave.
#[derive(Clone, Copy)]
pub struct Service {
    pub held: Option<Loaded>,
    pub ghost sound: { ForSome held (λ l. ∥ Sound l ∥₁) },
}

impl Service {
    ghost use Rattle.std.specs.Prelude.{Some, None, IfOk, IfErr};
    ghost use Rattle.planner.specs.declared.service.Refusal.TheVariants.{NotLoaded};

    // "A fresh service has nothing loaded and status empty."
    pub fn fresh() -> Self
        ensures { result.held ≡ fresh_service }
    {
        Service { held: None }
    }

    // What is loaded, for a call that reads it.
    pub fn loaded(&self) -> Result<&Loaded, Refusal>
        ensures held { IfOk result (λ l. self.now.held ≡ Some l.now) }
        ensures empty { IfErr result (λ e. (e ≡ NotLoaded) × (self.now.held ≡ None)) }
    {
        self.held.as_ref().ok_or(Refusal::NotLoaded)
    }

    // "Clear empties the service."
    pub fn clear(&mut self)
        ensures { self.new.held ≡ fresh_service }
    {
        clear(&mut self.held);
    }
}

// The same of what a service holds: it asks nothing of that.
pub fn clear(held: &mut Option<Loaded>)
    ensures { held.new ≡ fresh_service }
{
    *held = None;
}

#[derive(Clone, Copy, PartialEq, Eq, Debug)]
pub enum Status {
    Empty,
    Running,
    Optimum,
    Incoherent,
    Full,
}

// The status while a program is loaded.
impl From<Phase> for Status {
    ghost use Rattle.planner.specs.Held.{status_of};

    ghost from_gives = { λ p s. s ≡ status_of p };

    fn from(p: Phase) -> Self {
        match p {
            Phase::First | Phase::Level => Status::Running,
            Phase::Optimum => Status::Optimum,
            Phase::Incoherent => Status::Incoherent,
            Phase::Full => Status::Full,
        }
    }
}

// Why a call other than a load is refused: nothing is loaded; no model yet; lent bytes too short, with the length that is needed; no such symbol.
#[derive(Clone, Copy, PartialEq, Eq, Debug)]
pub enum Refusal {
    NotLoaded,
    NoModel,
    Short { needed: usize },
    NoSymbol,
}
