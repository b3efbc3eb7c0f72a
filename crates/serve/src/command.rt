// The commands, by their lines.
ghost use Rattle.std.specs.Prelude.{◌≡◌, ◌==◌, bytes_eq, option_map, position};
ghost use Rattle.serve.specs.Commands.{command_of, longer_of, with_numbers_of, symbol_of, number_in, word_of, rest_of};

use std::fmt;

// Room enough for any answer.
const ENOUGH: u32 = u32::MAX;

#[derive(Clone, Copy, PartialEq, Eq, Debug)]
pub enum Command {
    Nothing,
    Load { size: u32 },
    Advance,
    Run { budget: u32 },
    Look,
    Write { room: u32 },
    Model { room: u32 },
    Symbol { at: u32, room: u32 },
    Shown { at: u32 },
    Clear,
    Quit,
}

// Why a line is no command.
#[derive(Clone, Copy, PartialEq, Eq, Debug)]
pub enum Mistake {
    LongLine,
    NotACommand,
    NoNumber,
}

impl fmt::Display for Mistake {
    ghost use Rattle.std.specs.Prelude.{Some};
    ghost use Rattle.serve.specs.Commands.{mistake_text};

    ghost output = { λ m. Some (mistake_text m) };

    fn fmt<W: fmt::Write>(&self, f: &mut fmt::Formatter<W>) -> fmt::Result {
        f.write_str(match self {
            Mistake::LongLine => "the line is longer than 128 bytes",
            Mistake::NotACommand => "not a command",
            Mistake::NoNumber => "a number from 0 to 4294967295 is due",
        })
    }
}

// By tests, not by patterns of bytes, which tell byte from byte: each test is then a line of the definition.
pub fn parse(line: &[u8]) -> Result<Command, Mistake>
    ensures { result ≡ command_of line.now }
{
    if line.is_empty() {
        Ok(Command::Nothing)
    } else if is(line, "advance") {
        Ok(Command::Advance)
    } else if is(line, "look") {
        Ok(Command::Look)
    } else if is(line, "clear") {
        Ok(Command::Clear)
    } else if is(line, "quit") {
        Ok(Command::Quit)
    } else if is(line, "write") {
        Ok(Command::Write { room: ENOUGH })
    } else if is(line, "model") {
        Ok(Command::Model { room: ENOUGH })
    } else {
        longer(line)
    }
}

// A command that is more than a word.
fn longer(line: &[u8]) -> Result<Command, Mistake>
    ensures { result ≡ longer_of line.now }
{
    match split(line) {
        (word, Some(numbers)) => with_numbers(word, numbers),
        (word, None) => with_numbers(word, b""),
    }
}

// A command with a number, or two.
fn with_numbers(word: &[u8], numbers: &[u8]) -> Result<Command, Mistake>
    ensures { result ≡ with_numbers_of word.now numbers.now }
{
    if is(word, "symbol") {
        return symbol(numbers);
    }
    let n = number(numbers);
    if is(word, "load") {
        Ok(Command::Load { size: n? })
    } else if is(word, "run") {
        Ok(Command::Run { budget: n? })
    } else if is(word, "write") {
        Ok(Command::Write { room: n? })
    } else if is(word, "model") {
        Ok(Command::Model { room: n? })
    } else if is(word, "shown") {
        Ok(Command::Shown { at: n? })
    } else {
        Err(Mistake::NotACommand)
    }
}

fn symbol(numbers: &[u8]) -> Result<Command, Mistake>
    ensures { result ≡ symbol_of numbers.now }
{
    let (at, rest) = split(numbers);
    let at = number(at)?;
    let room = match rest {
        Some(room) => number(room)?,
        None => ENOUGH,
    };
    Ok(Command::Symbol { at, room })
}

// Whether a text is that word.
fn is(text: &[u8], word: &str) -> bool
    ensures { result ≡ bytes_eq text.now word.now }
{
    text == word.as_bytes()
}

fn number(text: &[u8]) -> Result<u32, Mistake>
    ensures { result ≡ number_in text.now }
{
    console::number::read(text).ok_or(Mistake::NoNumber)
}

// What stands before the first space, and what after it, if there is one.
fn split<'a>(text: &'a [u8]) -> (&'a [u8], Option<&'a [u8]>)
    ensures word { result.0.now ≡ word_of text.now }
    ensures rest { option_map (λ b. b.now) result.1 ≡ rest_of text.now }
{
    match space(text) {
        Some(k) => (&text[..k], Some(&text[k + 1..])),
        None => (text, None),
    }
}

// Where the first space stands.
fn space(text: &[u8]) -> Option<usize>
    ensures { result ≡ position (λ b. b == 32) text.now }
{
    text.iter().position(|b| *b == b' ')
}
