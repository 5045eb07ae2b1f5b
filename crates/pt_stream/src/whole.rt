// A whole input, and a whole output.
ghost use Rattle.std.specs.Prelude.{◌≡◌, ◌↔◌, ℕ, ◌+◌, ◌-◌, ◌^◌, ◌<◌, ◌≤◌, length, vec_len, IfSome, IfOk, OnOk, OnErr, IsErrOf};
ghost use Rattle.pt_stream.specs.Causes.{Rose, HasCause};
ghost use Rattle.pt_stream.specs.Bytes.{ConsumesAll, LeavesEnd};
ghost use Rattle.pt_stream.specs.Rooms.{IsCutOff, IsPut};

use crate::{Failed, Sink, Source};
use std::alloc::Global;
use thiserror::Error;

// The most bytes that are asked for at once.
const PIECE: usize = 4096;

/// Why an input wasn't read whole.
#[derive(Clone, Copy, Debug, PartialEq, Eq, Error)]
pub enum ReadError {
    /// The source failed.
    #[error("read fault")]
    Fault,
    /// More bytes came than the limit allows.
    #[error("input too long")]
    TooLong,
    /// No memory was found.
    #[error("out of memory")]
    Memory,
}

/// Takes pieces of at most 4,096 bytes until the end of the input, and answers all the bytes, at
/// most `limit` of them. `Fault` comes only where the source's count of faults rose in this call,
/// and `TooLong` exactly where more than `limit` bytes were taken; after either the call takes no
/// more. `Memory` may come at any piece. What was taken before an error is lost.
pub fn read_all<S: Source>(
    alloc: Global,
    source: &mut S,
    limit: usize,
) -> Result<Vec<u8>, ReadError>
    ensures bytes { IfOk result (λ bytes. ConsumesAll (S.left source.old) (S.left source.new) bytes.items) }
    ensures within { IfOk result (λ bytes. vec_len bytes ≤ limit) }
    ensures count { IfOk result (λ bytes. S.given source.new < 2 ^ 64 - 1 → S.given source.new ≡ S.given source.old + vec_len bytes) }

    ensures fault { IsErrOf result ReadError.Fault → Rose (S.faults source.old) (S.faults source.new) }
    ensures too_long { S.given source.new < 2 ^ 64 - 1 →
        (IsErrOf result ReadError.TooLong ↔ (limit < S.given source.new - S.given source.old)) }
    ensures more_than_limit { IsErrOf result ReadError.TooLong →
        IfSome (S.left source.old) (λ bytes. limit < length bytes) }
    ensures stops { S.given source.new ≤ S.given source.old + limit + 4096 }

    // Whatever the answer, what is left is the end of what was left.
    ensures rest { LeavesEnd (S.left source.old) (S.left source.new) }
    ensures later { S.faults source.old ≤ S.faults source.new }
{
    let mut bytes = Vec::new(alloc);
    let mut piece = [0; PIECE];
    'pieces: loop {
        let Ok(count) = source.take(&mut piece) else {
            return Err(ReadError::Fault)
        };
        if count == 0 {
            return Ok(bytes);
        }
        if limit - bytes.len() < count {
            return Err(ReadError::TooLong);
        }
        bytes
            .extend_from_slice(&piece[..count])
            .map_err(|_| ReadError::Memory)?;
    }
}

/// Puts all the bytes. `Failed` comes only where the sink's count of faults rose in this call, and where
/// the sink tells its room exactly where the bytes are longer than what was left of it. The sink then
/// holds what it held and some of the bytes from the front, but not all. It takes no memory.
pub fn write_all<K: Sink>(sink: &mut K, bytes: &[u8]) -> Result<(), Failed>
    ensures all { OnOk result (IsPut (K.room sink.old) (K.held sink.old) (K.held sink.new) bytes.now) }
    ensures part { OnErr result (IsCutOff (K.room sink.old) (K.held sink.old) (K.held sink.new) bytes.now) }
    ensures room { K.room sink.new ≡ K.room sink.old }
    ensures cause { HasCause (K.faults sink.old) (K.faults sink.new) result }
{
    let mut done = 0;
    'pieces: while done < bytes.len() {
        done += sink.put(&bytes[done..])?;
    }
    Ok(())
}
