// Standard input and output as a source and a sink. What they hold isn't known, so as devices they
// tell no bytes and no room, over whatever reader or writer.
ghost use Rattle.std.specs.Prelude.{◌≡◌, ◌<◌, length, None, IfOk};
ghost use Rattle.std.specs.Io.{ReadsAtMost, WritesAtMost};
ghost use Rattle.std.specs.Io.KnownBytes.{ReadConsumes, WriteAppends};
ghost use Rattle.pt_stream.specs.Causes.{HasCause};
ghost use Rattle.pt_stream.specs.Bytes.{CountsGiven};
ghost use Rattle.pt_stream.specs.Rooms.{KeepsRoom};
ghost use Rattle.pt_stream.specs.Devices.{StdInput, StdOutput, faults_after};

use crate::{Failed, Sink, Source};
use std::io::{Read, Write};
use std::marker::Model;

/// A reader, as standard input, as a source. Each error of the reader counts as a fault.
#[derive(Drop)]
pub struct StdSource<R: Read> {
    input: R,
    given: u64,
    faults: u64,
}

impl<R: Read> Model for StdSource<R> {
    ghost Value = { StdInput };

    ghost view = { λ s. record { left = R.remaining s.input; given = s.given; faults = s.faults } };
}

impl<R: Read> StdSource<R> {
    /// The source over this reader. Nothing is given yet.
    pub fn new(input: R) -> StdSource<R>
        ensures { result ≡ record { left = R.remaining input; given = 0; faults = 0 } }
    {
        StdSource {
            input,
            given: 0,
            faults: 0,
        }
    }
}

impl<R: Read> Source for StdSource<R> {
    ghost left = { λ _. None };

    ghost given = { λ s. s.given };

    ghost faults = { λ s. s.faults };

    fn take(&mut self, into: &mut [u8]) -> Result<usize, Failed>
        requires { 0 < length into.old }
        ensures bound { ReadsAtMost result into.new }
        ensures count { CountsGiven self.old.given self.new.given result }
        ensures cause { HasCause self.old.faults self.new.faults result }

        // It passes on what the reader gives, and counts each of its errors.
        ensures passes { ReadConsumes self.old.left self.new.left result into.new }
        ensures faults { self.new.faults ≡ faults_after self.old.faults result }
    {
        match self.input.read(into) {
            Ok(count) => {
                self.given = self.given.saturating_add(count as u64);
                Ok(count)
            }
            Err(_) => {
                self.faults = self.faults.saturating_add(1);
                Err(Failed)
            }
        }
    }
}

/// A writer, as standard output, as a sink. Each error of the writer counts as a fault, and so does
/// a write of no byte.
#[derive(Drop)]
pub struct StdSink<W: Write> {
    output: W,
    faults: u64,
}

impl<W: Write> Model for StdSink<W> {
    ghost Value = { StdOutput };

    ghost view = { λ s. record { held = W.contents s.output; faults = s.faults } };
}

impl<W: Write> StdSink<W> {
    /// The sink over this writer. Nothing has failed yet.
    pub fn new(output: W) -> StdSink<W>
        ensures { result ≡ record { held = W.contents output; faults = 0 } }
    {
        StdSink { output, faults: 0 }
    }
}

impl<W: Write> Sink for StdSink<W> {
    ghost held = { λ _. None };

    ghost room = { λ _. None };

    ghost faults = { λ s. s.faults };

    fn put(&mut self, from: &[u8]) -> Result<usize, Failed>
        requires { 0 < length from.now }
        ensures some { IfOk result (λ n. 0 < n) }
        ensures bound { WritesAtMost result from.now }
        ensures cause { HasCause self.old.faults self.new.faults result }

        // It passes all on to the writer, and counts each of its errors.
        ensures passes { WriteAppends self.old.held self.new.held result from.now }
        ensures faults { self.new.faults ≡ faults_after self.old.faults result }
    {
        match self.output.write(from) {
            Ok(count) if count > 0 => Ok(count),
            _ => {
                self.faults = self.faults.saturating_add(1);
                Err(Failed)
            }
        }
    }
}
