// Reads a submission from standard input and prints its verdict. Where a read or the write fails it says so on standard error and ends with
// status 1; otherwise nothing stands there, and the status is 0.
// Promises: `answer` prints the text of the verdict on all of the input, for every reader and writer whose bytes are known. Those of
// standard input and output are not: what is read and written there is as std has it.
#![tactic(auto)]

ghost use Rattle.std.specs.Prelude.{Some};
ghost use Rattle.verdict.specs.Code.{message, Answered};

use std::fmt;
use std::io::{Read, Write};
use std::process::ExitCode;

// Why no verdict was printed.
#[derive(Clone, Copy, PartialEq, Eq)]
pub enum Failure {
    NotRead,
    NotWritten,
}

impl fmt::Display for Failure {
    ghost output = { λ failure. Some (message failure) };

    fn fmt<W: fmt::Write>(&self, f: &mut fmt::Formatter<W>) -> fmt::Result {
        match self {
            Failure::NotRead => write!(f, "standard input could not be read"),
            Failure::NotWritten => write!(f, "the verdict could not be written"),
        }
    }
}

// Reads a submission and prints its verdict.
fn answer<R: Read, W: Write>(from: &mut R, to: &mut W) -> Result<(), Failure>
    ensures { Answered (R.remaining from.old) result (W.contents to.old) (W.contents to.new) }
{
    // An input of 4,096 bytes or more gets the text of its first 4,096: none over 3,076 bytes passes check 1.
    let mut input = [0u8; 4096];
    let length = input::read(from, &mut input).map_err(|_| Failure::NotRead)?;
    let mut text = [0u8; 4096];
    let written = checker::write_verdict(&input[..length], &mut text);
    to.write_all(&text[..written])
        .map_err(|_| Failure::NotWritten)?;
    Ok(())
}

fn main(rt: HostRuntime) -> ExitCode {
    let Err(failure) = answer(&mut rt.stdin(), &mut rt.stdout()) else {
        return ExitCode::SUCCESS;
    };
    let _ = eprintln!(rt; "{failure}");
    ExitCode::FAILURE
}
