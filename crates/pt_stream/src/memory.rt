// Devices in memory, which can be told to fail.
ghost use Rattle.std.specs.Prelude.{◌≡◌, ◌≢◌, ◌↔◌, ◌⊎◌, Some, ℕ, ◌+◌, ◌-◌, ◌<◌, ◌≤◌, min, [], length, take, drop, IfOk, IsErr, IsOkAnd, Contains, vec_capacity};
ghost use Rattle.std.specs.Io.{ReadsAtMost, WritesAtMost};
ghost use Rattle.std.specs.Io.KnownBytes.{ReadConsumes, WriteAppends};
ghost use Rattle.pt_stream.specs.Causes.{next_count, HasCause};
ghost use Rattle.pt_stream.specs.Bytes.{CountsGiven};
ghost use Rattle.pt_stream.specs.Rooms.{told_room, KeepsRoom};
ghost use Rattle.pt_stream.specs.Devices.{MemoryInput, SureInput, MemoryOutput, after_take, after_put};

use crate::{Failed, Sink, Source};
use pt_num::Memory;
use std::alloc::Global;
use std::marker::Model;

// Copies bytes to the front of `into`: at most `most`, and as many as there are and fit. Answers
// their number.
fn copy_front(from: &[u8], most: usize, into: &mut [u8]) -> usize
    ensures count { result ≡ min (min most (length into.old)) (length from.now) }
    ensures bytes { take result into.new ≡ take result from.now }
{
    let count = most.min(into.len()).min(from.len());
    into[..count].copy_from_slice(&from[..count]);
    count
}

/// A source over bytes in memory. It gives at most `piece` bytes a call, and its call number `c`,
/// counted from 1, fails where `failing` has `c`. It tells its bytes.
#[derive(Debug, Drop)]
pub struct MemorySource {
    bytes: Vec<u8>,
    at: usize,
    piece: usize,
    failing: Vec<u64>,
    calls: u64,
    faults: u64,
}

impl Model for MemorySource {
    ghost Value = { MemoryInput };

    ghost view = { λ s. record {
      left = drop s.at s.bytes.items;
      given = s.at;
      piece = s.piece;
      failing = s.failing.items;
      calls = s.calls;
      faults = s.faults;
    } };

    ghost invariant = { λ s. (s.at ≤ length s.bytes.items) × (0 < s.piece) };
}

impl MemorySource {
    /// The source of these bytes, of which none is given and no call is made yet.
    pub fn new(bytes: Vec<u8>, piece: usize, failing: Vec<u64>) -> MemorySource
        requires { piece ≢ 0 }
        ensures { result ≡ record { left = bytes.items; given = 0; piece = piece; failing = failing.items; calls = 0; faults = 0 } }
    {
        MemorySource {
            bytes,
            at: 0,
            piece,
            failing,
            calls: 0,
            faults: 0,
        }
    }
}

impl Source for MemorySource {
    ghost left = { λ s. Some s.left };

    ghost given = { λ s. s.given };

    ghost faults = { λ s. s.faults };

    fn take(&mut self, into: &mut [u8]) -> Result<usize, Failed>
        requires { 0 < length into.old }
        ensures bound { ReadsAtMost result into.new }
        ensures bytes { ReadConsumes (Some self.old.left) (Some self.new.left) result into.new }
        ensures count { CountsGiven self.old.given self.new.given result }
        ensures cause { HasCause self.old.faults self.new.faults result }

        ensures fails { IsErr result ↔ Contains self.old.failing (next_count self.old.calls) }
        ensures piece { IfOk result (λ n. n ≡ min (min self.old.piece (length into.old)) (length self.old.left)) }
        ensures after { self.new ≡ after_take self.old result }
    {
        self.calls = self.calls.saturating_add(1);
        if self.failing.contains(&self.calls) {
            self.faults = self.faults.saturating_add(1);
            return Err(Failed);
        }
        let count = copy_front(&self.bytes[self.at..], self.piece, into);
        self.at += count;
        Ok(count)
    }
}

/// A source over bytes in memory that never fails: its count of faults is the constant 0. It tells
/// its bytes.
#[derive(Debug, Drop)]
pub struct SureSource {
    bytes: Vec<u8>,
    at: usize,
}

impl Model for SureSource {
    ghost Value = { SureInput };

    ghost view = { λ s. record { left = drop s.at s.bytes.items; given = s.at } };

    ghost invariant = { λ s. s.at ≤ length s.bytes.items };
}

impl SureSource {
    /// The source of these bytes, of which none is given yet.
    pub fn new(bytes: Vec<u8>) -> SureSource
        ensures { result ≡ record { left = bytes.items; given = 0 } }
    {
        SureSource { bytes, at: 0 }
    }
}

impl Source for SureSource {
    ghost left = { λ s. Some s.left };

    ghost given = { λ s. s.given };

    ghost faults = { λ _. 0 };

    fn take(&mut self, into: &mut [u8]) -> Result<usize, Failed>
        requires { 0 < length into.old }
        ensures bound { ReadsAtMost result into.new }
        ensures bytes { ReadConsumes (Some self.old.left) (Some self.new.left) result into.new }
        ensures count { CountsGiven self.old.given self.new.given result }
        ensures cause { HasCause 0 0 result }

        // It gives as much as there is and as fits.
        ensures piece { IsOkAnd result (λ n. n ≡ min (length into.old) (length self.old.left)) }
        ensures given { IfOk result (λ n. self.new.given ≡ self.old.given + n) }
    {
        let count = copy_front(&self.bytes[self.at..], usize::MAX, into);
        self.at += count;
        Ok(count)
    }
}

/// A sink in memory. It takes at most `piece` bytes a call and at most `room` bytes in all. Its
/// call number `c`, counted from 1, fails where `failing` has `c`, and each call fails once no room
/// is left. It tells its bytes, and its room where `failing` is empty.
#[derive(Debug, Drop)]
pub struct MemorySink {
    bytes: Vec<u8>,
    room: usize,
    piece: usize,
    failing: Vec<u64>,
    calls: u64,
    faults: u64,
}

impl Model for MemorySink {
    ghost Value = { MemoryOutput };

    ghost view = { λ s. record {
      held = s.bytes.items;
      room = s.room;
      piece = s.piece;
      failing = s.failing.items;
      calls = s.calls;
      faults = s.faults;
    } };

    ghost invariant = { λ s. (length s.bytes.items ≤ s.room) × (s.room ≤ vec_capacity s.bytes) × (0 < s.piece) };
}

impl MemorySink {
    /// An empty sink, on which no call is made yet. It takes the memory for all its room, so that
    /// no call on it takes any. `Memory` is the only error.
    pub fn new(
        alloc: Global,
        room: usize,
        piece: usize,
        failing: Vec<u64>,
    ) -> Result<MemorySink, Memory>
        requires { piece ≢ 0 }
        ensures { IfOk result (λ sink.
            sink ≡ record { held = []; room = room; piece = piece; failing = failing.items; calls = 0; faults = 0 }) }
    {
        Ok(MemorySink {
            bytes: Vec::with_capacity(alloc, room)?,
            room,
            piece,
            failing,
            calls: 0,
            faults: 0,
        })
    }

    /// The bytes that it holds.
    pub fn bytes(&self) -> &[u8]
        ensures { result.now ≡ self.now.held }
    {
        &self.bytes
    }
}

impl Sink for MemorySink {
    ghost held = { λ s. Some s.held };

    ghost room = { λ s. told_room s.failing s.room };

    ghost faults = { λ s. s.faults };

    fn put(&mut self, from: &[u8]) -> Result<usize, Failed>
        requires { 0 < length from.now }
        ensures some { IfOk result (λ n. 0 < n) }
        ensures bound { WritesAtMost result from.now }
        ensures bytes { WriteAppends (Some self.old.held) (Some self.new.held) result from.now }
        ensures room { KeepsRoom (told_room self.old.failing self.old.room) (told_room self.new.failing self.new.room) (Some self.new.held) result }
        ensures cause { HasCause self.old.faults self.new.faults result }

        ensures fails { IsErr result ↔
            Contains self.old.failing (next_count self.old.calls) ⊎ (self.old.room ≡ length self.old.held) }
        ensures piece { IfOk result (λ n. n ≡ min (min self.old.piece (length from.now)) (self.old.room - length self.old.held)) }
        ensures after { self.new ≡ after_put self.old from.now result }
    {
        self.calls = self.calls.saturating_add(1);
        let room = self.room - self.bytes.len();
        if room == 0 || self.failing.contains(&self.calls) {
            self.faults = self.faults.saturating_add(1);
            return Err(Failed);
        }
        let count = self.piece.min(from.len()).min(room);
        if self.bytes.extend_from_slice(&from[..count]).is_err() {
            unreachable!("all the room is there from the start")
        }
        Ok(count)
    }
}
