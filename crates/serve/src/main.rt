// The program `serve`: the service on standard input and output, one command a line, one program after another.
#![tactic(auto)]

mod answer;
mod command;
mod input;

use command::{Command, Mistake};
use planner::service::Service;
use std::io;
use std::io::Read;
use std::process::ExitCode;

fn main(rt: HostRuntime) -> io::Result<ExitCode> {
    console::end::ending(attend(&rt, &mut rt.stdin()))
}

fn attend(rt: &impl Print, input: &mut impl Read) -> io::Result<()> {
    let mut service = Service::fresh();
    for _ in 0..u64::MAX {
        match next_command(input)? {
            Ok(Command::Quit) => return Ok(()),
            Ok(command) => obey(rt, input, &mut service, command)?,
            Err(mistake) => println!(rt; "error {mistake}")?,
        }
    }
    Ok(())
}

// The next line's command; at the end of the input, to quit.
fn next_command(input: &mut impl Read) -> io::Result<Result<Command, Mistake>> {
    // Kept: an array, since no program allocates.
    let mut bytes = [0u8; 128];
    Ok(match input::read_line(input, &mut bytes)? {
        None => Ok(Command::Quit),
        Some(k) if k <= bytes.len() => command::parse(&bytes[..k]),
        Some(_) => Err(Mistake::LongLine),
    })
}

fn obey(
    rt: &impl Print,
    input: &mut impl Read,
    service: &mut Service,
    command: Command,
) -> io::Result<()> {
    match command {
        Command::Nothing | Command::Quit => Ok(()),
        Command::Load { size } => answer::load(rt, input, service, size),
        Command::Advance => answer::told(rt, service.advance()),
        Command::Run { budget } => answer::told(rt, service.run(budget)),
        Command::Clear => answer::clear(rt, service),
        Command::Look => answer::look(rt, &service.look()),
        Command::Write { room } => answer::write(rt, service, room),
        Command::Model { room } => answer::model(rt, service, room),
        Command::Symbol { at, room } => answer::symbol(rt, service, at, room),
        Command::Shown { at } => answer::shown(rt, service, at),
    }
}
