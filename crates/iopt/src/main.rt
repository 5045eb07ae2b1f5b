//! The program `iopt`: it reads a script of commands on page tables from standard input, runs it, and
//! writes the replies to standard output, or the image of the space that it leaves; it resumes a script on the space of an image
//! that nobody vouches for; or it makes a script of its own from a number, and writes a summary.
//!
//! It stands on the script language, on the devices, on the run of a script and on made scripts. The top call
//! `run` does all that the program does, over any source and sink; it promises that at `Done` the whole input
//! was read, that it is the text of a script, and that the bytes appended are the text of that script's run; or,
//! where the words ask for a made script, that they are the summary of its run. `main` makes the real words,
//! input and output, and the gate that lets every branch through, calls it, and prints the line of its status.
#![tactic(auto)]

ghost use Rattle.std.specs.Prelude.{◌≡◌, IfErr};
ghost use Rattle.std.specs.Process.{exit_status};
ghost use Rattle.iopt.specs.Ends.{exit_code};
ghost use Rattle.iopt.specs.Top.{IsUnread, IsUnreadBy};

#[cfg(test)]
mod beside_tests;
#[cfg(test)]
mod book_tests;
#[cfg(test)]
mod device_tests;
#[cfg(test)]
mod dump_tests;
#[cfg(test)]
mod fork_tests;
#[cfg(test)]
mod gate_tests;
#[cfg(test)]
mod image_tests;
mod resuming;
mod running;
mod saving;
#[cfg(test)]
mod script_tests;
#[cfg(test)]
mod span_tests;
mod status;
#[cfg(test)]
mod tests;
mod top;
#[cfg(test)]
mod unmap_tests;
mod words;

use crate::status::{Status, status_text};
use crate::top::run;
use crate::words::Words;
use pt_run::Open;
use pt_stream::{StdSink, StdSource};
use std::process::ExitCode;
use std::{env, io};

/// How a run ends whose command line wasn't read.
fn words_status(error: io::Error) -> Status
    ensures { IsUnreadBy error result }
{
    match error.kind() {
        io::ErrorKind::OutOfMemory => Status::Memory,
        _ => Status::Usage,
    }
}

/// The words of the command line, behind the program's name.
fn command_line(rt: &HostRuntime) -> Result<Words, Status>
    ensures { IfErr result IsUnread }
{
    let mut words = Words::new(rt.alloc());
    let args = env::args(rt).map_err(words_status)?;
    for arg in args.skip(1) {
        words.push(arg.as_str()).map_err(|_| Status::Memory)?;
    }
    Ok(words)
}

/// The exit status that tells how a run ended.
fn exit_with(status: &Status) -> ExitCode
    ensures { exit_status result ≡ exit_code status.now }
{
    ExitCode::from(status.exit_code())
}

/// It has no contract: an entry point may have none.
fn main(rt: HostRuntime) -> ExitCode {
    let status = match command_line(&rt) {
        Ok(words) => {
            let mut source = StdSource::new(rt.stdin());
            let mut sink = StdSink::new(rt.stdout());
            run(&rt, rt.alloc(), &words, &mut source, &mut sink, &Open)
        }
        Err(status) => status,
    };
    print_status(&rt, &status);
    exit_with(&status)
}

/// Prints the line of a status on standard error. Where that fails, only the exit status tells it. No clause can say
/// what standard error takes.
fn print_status(rt: &HostRuntime, status: &Status) {
    if let Ok(line) = status_text(rt.alloc(), status) {
        if let Ok(line) = str::from_utf8(&line) {
            if !line.is_empty() {
                let _ = eprintln!(rt; "{line}");
            }
        }
    }
}
