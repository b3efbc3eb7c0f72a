// The program `plan`: a plan for the hatchery whose program stands in `plan.aspif`, within 1,000,000 advances. An argument names another file, a second one another
// number of advances.
#![tactic(auto)]

ghost use Rattle.std.specs.Prelude.{◌≡◌, ◌≤◌, IfOk, length};

use console::print::{Figures, UpperBound};
use planner::fill::part_or;
use planner::look::View;
use planner::service::Service;
use std::io;
use std::io::{Cursor, Read, Write};
use std::process::ExitCode;
use std::rt::{Env, Files};

fn main(rt: HostRuntime) -> io::Result<ExitCode> {
    console::end::ending(answer(&rt, &rt.stderr()))
}

fn answer(rt: &(impl Env + Files + Print), err: &impl Print) -> io::Result<()> {
    match budget(rt) {
        Some(budget) => plan(rt, err, budget),
        None => err.print(
            "plan: the second argument is not a number of advances from 0 to 4294967295\n",
        ),
    }
}

// The number of advances; none where the argument is not one.
fn budget(rt: &impl Env) -> Option<u32> {
    // Kept: an array, since no program allocates.
    let mut word = [0u8; 64];
    match inputs::argument(rt, 2, &mut word) {
        Some(k) => console::number::read(&word[..k]),
        None => Some(1000000),
    }
}

fn plan(rt: &(impl Env + Files + Print), err: &impl Print, budget: u32) -> io::Result<()> {
    // Kept: an array, since no program allocates.
    let mut name = [0u8; 4096];
    match inputs::argument(rt, 1, &mut name) {
        Some(k) => plan_file(rt, err, &name[..k], budget),
        None => plan_file(rt, err, b"plan.aspif", budget),
    }
}

// A file that cannot be read counts as empty.
fn plan_file(
    rt: &(impl Files + Print),
    err: &impl Print,
    name: &[u8],
    budget: u32,
) -> io::Result<()> {
    // Kept: an array, since no program allocates.
    let mut text = [0u8; 65537];
    let k = read(rt, err, name, &mut text)?;
    let mut service = Service::fresh();
    match service.load(&text[..k]) {
        Ok(()) => plan_program(rt, &mut service, budget),
        Err(refused) => println!(rt; "{refused}"),
    }
}

// How many bytes the file has, which are put at the front of the lent ones.
fn read(rt: &impl Files, err: &impl Print, name: &[u8], text: &mut [u8]) -> io::Result<usize>
    ensures count { IfOk result (λ k. k ≤ length text.new) }
    ensures size { length text.new ≡ length text.old }
{
    match opened(rt, err, name)? {
        Some(mut file) => inputs::fill(&mut file, text),
        None => Ok(0),
    }
}

// The file, opened to be read. Where that fails, or it is a folder, standard error tells why.
fn opened<R: Files>(rt: &R, err: &impl Print, name: &[u8]) -> io::Result<Option<R::File>> {
    let mut file = match inputs::open(rt, name) {
        Ok(file) => file,
        Err(error) => {
            unreadable(err, name, error)?;
            return Ok(None);
        }
    };
    // Kept: an array, since no program allocates.
    let mut none = [0u8; 1];
    if let Err(error) = file.read(&mut none[..0]) {
        unreadable(err, name, error)?;
        return Ok(None);
    }
    Ok(Some(file))
}

fn unreadable(err: &impl Print, name: &[u8], error: io::Error) -> io::Result<()> {
    err.print("plan: cannot read ")?;
    err.write_all(name)?;
    err.print(": ")?;
    reason(err, error)?;
    err.print("\n")
}

// The error in the system's words, without its number.
fn reason(err: &impl Print, error: io::Error) -> io::Result<()> {
    // Kept: an array, since no program allocates.
    let mut bytes = [0u8; 320];
    let mut words = Cursor::new(&mut bytes[..]);
    write!(words, "{error}")?;
    let n = usize::try_from(words.position()).unwrap_or(320);
    let text = &bytes[..n.min(320)];
    match std::str::from_utf8(text) {
        Ok(text) => match text.split_once(" (os error ") {
            Some((words, _number)) => err.print(words),
            None => err.print(text),
        },
        Err(_) => err.write_all(text),
    }
}

fn plan_program(rt: &impl Print, service: &mut Service, budget: u32) -> io::Result<()> {
    let _ = service.run(budget);
    bounds(rt, &service.look())?;
    symbols(rt, service)
}

// The status and the bounds.
fn bounds(rt: &impl Print, view: &View) -> io::Result<()> {
    let status = view.status;
    let lower = Figures(view.lowers);
    let upper = UpperBound(*view);
    println!(rt; "{status}\nlower{lower}\nupper{upper}")
}

// The shown symbols, in text order; there are at most 512.
fn symbols(rt: &impl Print, service: &Service) -> io::Result<()> {
    for i in 0..512 {
        match service.shown(i) {
            Ok(true) => symbol(rt, service, i)?,
            Ok(false) => {}
            Err(_) => return Ok(()),
        }
    }
    Ok(())
}

fn symbol(rt: &impl Print, service: &Service, i: usize) -> io::Result<()> {
    // Kept: an array, since no program allocates.
    let mut bytes = [0u8; 64];
    let answer = service.name(i, &mut bytes);
    let Ok(name) = part_or(answer, &bytes) else {
        return Ok(());
    };
    rt.print("shown ")?;
    rt.write_all(name)?;
    rt.print("\n")
}
