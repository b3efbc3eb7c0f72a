// One query, run to its end and printed.
ghost use Rattle.search_traces.specs.Asked.{SameProgram};

use crate::machine::Machine;
use crate::program::Program;
use indexing::build::By;
use search::step::Tested;
use std::io;

// How a query ended.
#[derive(Clone, Copy, PartialEq, Eq, Debug)]
enum End {
    Wanted,
    Core,
}

// The trail after a move, printed; it ends the query where nothing is left of it.
fn came(rt: &impl Print, machine: &Machine<'_>) -> io::Result<Option<End>> {
    if machine.trail.len == 0 {
        println!(rt; " ended")?;
        return Ok(Some(End::Core));
    }
    println!(rt; "{machine}")?;
    Ok(None)
}

// A full trail that is not wanted is cut.
fn cut(rt: &impl Print, machine: &mut Machine<'_>) -> io::Result<Option<End>>
    ensures { SameProgram machine.old machine.new }
{
    machine.back();
    came(rt, machine)
}

// A full trail is judged.
fn judge(rt: &impl Print, machine: &mut Machine<'_>) -> io::Result<Option<End>>
    ensures { SameProgram machine.old machine.new }
{
    print!(rt; "full")?;
    if !machine.models.contains(&machine.mask()) {
        print!(rt; " unstable")?;
        return cut(rt, machine);
    }
    match machine.violated() {
        Some(i) => {
            print!(rt; " soft {i}")?;
            machine.blame(i);
            cut(rt, machine)
        }
        None => {
            println!(rt; " wanted{machine}")?;
            Ok(Some(End::Wanted))
        }
    }
}

// One step, printed; a violated wish is blamed.
fn turn(rt: &impl Print, machine: &mut Machine<'_>) -> io::Result<Option<End>>
    ensures { SameProgram machine.old machine.new }
{
    match machine.step() {
        Tested::Full => judge(rt, machine),
        Tested::RuleBroken(r) => {
            print!(rt; "rule {r}")?;
            came(rt, machine)
        }
        Tested::SoftViolated(i) => {
            print!(rt; "soft {i}")?;
            machine.blame(i);
            came(rt, machine)
        }
        Tested::Open(_) => {
            print!(rt; "open")?;
            came(rt, machine)
        }
    }
}

// The wishes that are blamed.
fn print_core(rt: &impl Print, blamed: &[u8; 8]) -> io::Result<()> {
    print!(rt; "core")?;
    for (i, blame) in blamed.iter().enumerate() {
        if *blame == 1 {
            print!(rt; " {i}")?;
        }
    }
    println!(rt;)
}

// The query, to its end.
pub fn run(rt: &impl Print, program: Program<'_>) -> io::Result<()> {
    println!(rt; "program {}", program.name)?;
    let conditions = program.lists(By::Condition);
    let mut machine = Machine::new(program, &conditions);
    for steps in 1..1001 {
        if let Some(end) = turn(rt, &mut machine)? {
            if end == End::Core {
                print_core(rt, &machine.blamed)?;
            }
            return println!(rt; "steps {steps}");
        }
    }
    println!(rt; "steps 1000")
}
