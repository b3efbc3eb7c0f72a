// Loads each text that an argument names and optimizes it: a program of at most six atoms advance by advance, with a line for each; then any program by one run, with
// a line for its end. tests/optima.py writes the texts and the expected output: the ends by clasp, the lines of single advances by a model of document 01's machine.
#![tactic(auto)]

use console::print::{Figures, UpperBound};
use planner::look::{InWork, View};
use planner::service::{Service, Status};
use std::io;
use std::rt::Files;

// Kept: the loop of models's `main`, since a closure over the arguments would be no shorter.
fn main(rt: HostRuntime) -> io::Result<()> {
    for i in 1..usize::MAX {
        // Kept: an array, since no program allocates.
        let mut name = [0u8; 64];
        let Some(k) = inputs::argument(&rt, i, &mut name) else {
            return Ok(());
        };
        one_text(&rt, &name[..k])?;
    }
    Ok(())
}

fn one_text(rt: &(impl Files + Print), name: &[u8]) -> io::Result<()> {
    // Kept: an array, since no program allocates.
    let mut bytes = [0u8; 65537];
    let k = inputs::read(rt, name, &mut bytes)?;
    let mut service = Service::fresh();
    let loaded = service.load(&bytes[..k]);
    rt.write_all(name)?;
    match loaded {
        Ok(()) => optimize(rt, &mut service),
        Err(_) => rt.print(": refused\n"),
    }
}

fn optimize(rt: &impl Print, service: &mut Service) -> io::Result<()> {
    if is_small(service) {
        rt.print(": advance by advance\n")?;
        trace(rt, service)?;
    } else {
        rt.print(":\n")?;
    }
    let _ = service.run(u32::MAX);
    rt.print("end")?;
    state(rt, &service.look())
}

// The program has at most six atoms.
fn is_small(service: &Service) -> bool {
    match &service.held {
        Some(program) => program.stored.counts.atoms <= 6,
        None => false,
    }
}

// One line for each advance until the end, 10,000 at most. It advances a copy, so that the run to the end is one from the start.
fn trace(rt: &impl Print, start: &Service) -> io::Result<()> {
    let mut service = *start;
    for _ in 0..10000 {
        let status = service.advance();
        state(rt, &service.look())?;
        if status != Ok(Status::Running) {
            return Ok(());
        }
    }
    Ok(())
}

// The number of advances, the status, the bounds, the level in work and its stratum.
fn state(rt: &impl Print, view: &View) -> io::Result<()> {
    let advances = view.advances;
    let status = view.status;
    let InWork { level, stratum } = view.in_work.unwrap_or_default();
    let lower = Figures(view.lowers);
    let upper = UpperBound(*view);
    println!(rt; " {advances} {status} lower{lower} upper{upper} level {level} stratum {stratum}")
}
