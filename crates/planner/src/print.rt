// The answers in print: a status by its name, a refusal by its number.
use crate::advance::Count;
use crate::service::{Refusal, Status};
use std::fmt;

impl fmt::Display for Status {
    ghost use Rattle.std.specs.Prelude.{Some};
    ghost use Rattle.planner.specs.Print.{status_text};

    ghost output = { λ s. Some (status_text s) };

    fn fmt<W: fmt::Write>(&self, f: &mut fmt::Formatter<W>) -> fmt::Result {
        f.write_str(match self {
            Status::Empty => "empty",
            Status::Running => "running",
            Status::Optimum => "optimum",
            Status::Incoherent => "incoherent",
            Status::Full => "full",
        })
    }
}

// A run's count after its status.
impl fmt::Display for Count {
    ghost use Rattle.std.specs.Prelude.{Some};
    ghost use Rattle.planner.specs.Print.{count_text};

    ghost output = { λ c. Some (count_text c) };

    fn fmt<W: fmt::Write>(&self, f: &mut fmt::Formatter<W>) -> fmt::Result {
        let Count { made, status } = self;
        write!(f, "{status} {made}")
    }
}

impl fmt::Display for Refusal {
    ghost use Rattle.std.specs.Prelude.{Some};
    ghost use Rattle.planner.specs.Print.{refusal_text};

    ghost output = { λ e. Some (refusal_text e) };

    fn fmt<W: fmt::Write>(&self, f: &mut fmt::Formatter<W>) -> fmt::Result {
        match self {
            Refusal::NotLoaded => f.write_str("refused 6"),
            Refusal::NoModel => f.write_str("refused 7"),
            Refusal::Short { needed } => write!(f, "refused 8 needs {needed}"),
            Refusal::NoSymbol => f.write_str("refused 9"),
        }
    }
}
