// Where bytes come from and where they go.
ghost use Rattle.std.specs.Prelude.{ℕ, ◌<◌, ◌≤◌, List, length, IfOk, Option};
ghost use Rattle.std.specs.Io.{ReadsAtMost, WritesAtMost};
ghost use Rattle.std.specs.Io.KnownBytes.{ReadConsumes, WriteAppends};
ghost use Rattle.pt_stream.specs.Causes.{HasCause};
ghost use Rattle.pt_stream.specs.Bytes.{CountsGiven};
ghost use Rattle.pt_stream.specs.Rooms.{KeepsRoom};

/// A device failed.
#[derive(Clone, Copy, Debug, PartialEq, Eq)]
pub struct Failed;

/// Where bytes come from.
pub trait Source {
    /// The bytes that are left, or `None` where the source doesn't tell them.
    ghost left: { Self → Option (List ℕ) };

    /// How many bytes were given. It stands at its last value, `2^64 - 1`, once it is there.
    ghost given: { Self → ℕ };

    /// How often the source has failed. It stands at its last value, `2^64 - 1`, once it is there.
    ghost faults: { Self → ℕ };

    /// Takes at most as many bytes as `into` has room for, and puts them at its front. `Ok(n)` is
    /// their number, and 0 is the end of the input: it comes exactly where no byte is left.
    /// `Failed` comes only where the count of faults rose in this call, and then no byte was taken.
    fn take(&mut self, into: &mut [u8]) -> Result<usize, Failed>
        requires { 0 < length into.old }
        ensures bound { ReadsAtMost result into.new }
        ensures bytes { ReadConsumes (left self.old) (left self.new) result into.new }
        ensures count { CountsGiven (given self.old) (given self.new) result }
        ensures cause { HasCause (faults self.old) (faults self.new) result };
}

/// Where bytes go.
pub trait Sink {
    /// The bytes that it holds, or `None` where the sink doesn't tell them.
    ghost held: { Self → Option (List ℕ) };

    /// The most bytes that it can hold, or `None` where the sink doesn't tell it. A sink that tells its room tells its bytes too.
    ghost room: { Self → Option ℕ };

    /// How often the sink has failed. It stands at its last value, `2^64 - 1`, once it is there.
    ghost faults: { Self → ℕ };

    /// Appends bytes from the front of `from`. `Ok(n)` is their number, at least 1. `Failed` comes
    /// only where the count of faults rose in this call, and then nothing was appended. No call changes
    /// the room; where it is told, the bytes held stay within it, and `Failed` comes only where they
    /// number it.
    fn put(&mut self, from: &[u8]) -> Result<usize, Failed>
        requires { 0 < length from.now }
        ensures some { IfOk result (λ n. 0 < n) }
        ensures bound { WritesAtMost result from.now }
        ensures bytes { WriteAppends (held self.old) (held self.new) result from.now }
        ensures room { KeepsRoom (room self.old) (room self.new) (held self.new) result }
        ensures cause { HasCause (faults self.old) (faults self.new) result };
}
