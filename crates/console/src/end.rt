// How a program ends.
ghost use Rattle.console.specs.Ending.{EndsAs};

use std::io;
use std::process::ExitCode;

// Where nobody reads on, the program ends without a word, and with the status that a closed pipe gives.
pub fn ending(answered: io::Result<()>) -> io::Result<ExitCode>
    ensures { EndsAs answered result }
{
    match answered {
        Ok(()) => Ok(ExitCode::SUCCESS),
        Err(error) if matches!(error.kind(), io::ErrorKind::BrokenPipe) => Ok(ExitCode::from(141)),
        Err(error) => Err(error),
    }
}
