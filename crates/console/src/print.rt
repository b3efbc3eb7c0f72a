// The service's figures, in print.
ghost use Rattle.std.specs.Prelude.{codes};
ghost use Rattle.std.specs.Fmt.{WritesOnOk};
ghost use Rattle.std.specs.List.{repeat};

use planner::look::View;
use std::fmt;

// Each figure, or priority, after a space.
#[derive(Drop)]
pub struct Figures<'a, T>(pub &'a [T]);

impl<T: fmt::Display> fmt::Display for Figures<'_, T> {
    ghost use Rattle.console.specs.Print.{figures_text};

    ghost output = { λ f. figures_text T.output f.0.now };

    fn fmt<W: fmt::Write>(&self, f: &mut fmt::Formatter<W>) -> fmt::Result {
        for figure in self.0 {
            write!(f, " {figure}")?;
        }
        Ok(())
    }
}

// The upper bound of a view; before there is one, `-` for each of its levels.
#[derive(Drop)]
pub struct UpperBound<'a>(pub View<'a>);

impl fmt::Display for UpperBound<'_> {
    ghost use Rattle.console.specs.Print.{upper_text};

    ghost output = { λ u. upper_text u.0 };

    fn fmt<W: fmt::Write>(&self, f: &mut fmt::Formatter<W>) -> fmt::Result {
        match self.0.uppers {
            Some(costs) => write!(f, "{}", Figures(costs)),
            None => dashes(f, self.0.lowers.len()),
        }
    }
}

fn dashes<W: fmt::Write>(f: &mut fmt::Formatter<W>, n: usize) -> fmt::Result
    ensures { WritesOnOk W.write_str_gives f.old result (repeat n (codes " -")) f.new }
{
    for _ in 0..n {
        f.write_str(" -")?;
    }
    Ok(())
}
