//! The top call: all that the program does.

ghost use Rattle.std.specs.Prelude.{◌≡◌, ◌⊎◌, ℕ, ◌↔◌, ◌-◌, ◌^◌, ◌<◌, ◌≤◌, List};
ghost use Rattle.pt_stream.specs.Causes.{Rose};
ghost use Rattle.pt_stream.specs.Rooms.{IsCutOff, IsPut};
ghost use Rattle.iopt.specs.Words.{AskToMake, AskToRead, AskToResume, AskToRun, IsAccepted};
ghost use Rattle.iopt.specs.Runs.{IsMadeText};
ghost use Rattle.iopt.specs.Resumed.{input_limit, resume_limit};
ghost use Rattle.iopt.specs.Top.{read_status, CanResume, CanRun, IsDoneWithMemory, IsLong, IsLongBehind, IsMadeEnd, IsOfNoImage, IsUntouched, PutAsAsked, PutProduct, PutResumed, PutsNothing, RefusedAs, UnresumedAs};

use crate::resuming::{INPUT_LIMIT, resume, script_status};
use crate::running::{answer_to, scripts_are_not_refused, scripts_are_one, summary_of};
use crate::status::Status;
use crate::words::{Product, Task, Words};
use pt_run::Gate;
use pt_stream::{Failed, ReadError, Sink, Source, read_all, write_all};
use std::alloc::Global;
use std::thread::Threads;

/// The most bytes of an image and a script behind it.
const RESUME_LIMIT: usize = 130 << 20;

/// How a run ends whose input wasn't read.
fn read_status(error: ReadError) -> Status
    ensures { result ≡ read_status error }
{
    match error {
        ReadError::Fault => Status::ReadFault,
        ReadError::TooLong => Status::TooLong,
        ReadError::Memory => Status::Memory,
    }
}

/// Reads a script, and puts this for it.
fn run_input<R: Threads + Sync, S: Source, K: Sink, G: Gate + Sync>(
    rt: &R,
    alloc: Global,
    product: Product,
    source: &mut S,
    sink: &mut K,
    gate: &G,
) -> Status
    ensures accepted { ¬ (result ≡ Status.Usage) }
    ensures too_long { S.given source.new < 2 ^ 64 - 1 →
        ((result ≡ Status.TooLong) ↔ (input_limit < S.given source.new - S.given source.old)) }
    ensures long { result ≡ Status.TooLong → IsLong (S.left source.old) }
    ensures read_fault { result ≡ Status.ReadFault → Rose (S.faults source.old) (S.faults source.new) }
    ensures refused { RefusedAs (S.left source.old) (S.left source.new) result }
    ensures images { IsOfNoImage result }
    ensures write_fault { result ≡ Status.WriteFault → Rose (K.faults sink.old) (K.faults sink.new) }
    ensures cut_off { result ≡ Status.WriteFault →
        PutProduct product (S.left source.old) (S.left source.new) (IsCutOff (K.room sink.old) (K.held sink.old) (K.held sink.new)) }
    ensures done { result ≡ Status.Done → PutProduct product (S.left source.old) (S.left source.new) (IsPut (K.room sink.old) (K.held sink.old) (K.held sink.new)) }
    ensures complete { CanRun (S.left source.old) → ¬ Rose (S.faults source.old) (S.faults source.new) →
        ¬ Rose (K.faults sink.old) (K.faults sink.new) → IsDoneWithMemory result }
    ensures quiet { PutsNothing result (K.held sink.old) (K.held sink.new) }
    ensures source_faults { S.faults source.old ≤ S.faults source.new }
    ensures sink_faults { K.faults sink.old ≤ K.faults sink.new }
{
    scripts_are_not_refused();
    let text = match read_all(alloc, source, INPUT_LIMIT) {
        Ok(text) => text,
        Err(error) => return read_status(error),
    };
    let made = match answer_to(rt, alloc, &text, product, gate) {
        Ok(made) => made,
        Err(error) => return script_status(error),
    };
    match write_all(sink, &made) {
        Ok(()) => Status::Done,
        Err(Failed) => Status::WriteFault,
    }
}

/// Reads an image and a script behind it, runs the script on the image's space, and puts the replies.
fn run_resumed<R: Threads + Sync, S: Source, K: Sink, G: Gate + Sync>(
    rt: &R,
    alloc: Global,
    source: &mut S,
    sink: &mut K,
    gate: &G,
) -> Status
    ensures accepted { ¬ (result ≡ Status.Usage) }
    ensures taken { S.given source.new < 2 ^ 64 - 1 → resume_limit < S.given source.new - S.given source.old → result ≡ Status.TooLong }
    ensures too_long { S.given source.new < 2 ^ 64 - 1 → result ≡ Status.TooLong →
        (resume_limit < S.given source.new - S.given source.old) ⊎ IsLongBehind (S.left source.old) }
    ensures read_fault { result ≡ Status.ReadFault → Rose (S.faults source.old) (S.faults source.new) }
    ensures unresumed { UnresumedAs (S.left source.old) (S.left source.new) result }
    ensures write_fault { result ≡ Status.WriteFault → Rose (K.faults sink.old) (K.faults sink.new) }
    ensures cut_off { result ≡ Status.WriteFault →
        PutResumed (S.left source.old) (S.left source.new) (IsCutOff (K.room sink.old) (K.held sink.old) (K.held sink.new)) }
    ensures done { result ≡ Status.Done → PutResumed (S.left source.old) (S.left source.new) (IsPut (K.room sink.old) (K.held sink.old) (K.held sink.new)) }
    ensures complete { CanResume (S.left source.old) → ¬ Rose (S.faults source.old) (S.faults source.new) →
        ¬ Rose (K.faults sink.old) (K.faults sink.new) → IsDoneWithMemory result }
    ensures quiet { PutsNothing result (K.held sink.old) (K.held sink.new) }
    ensures source_faults { S.faults source.old ≤ S.faults source.new }
    ensures sink_faults { K.faults sink.old ≤ K.faults sink.new }
{
    scripts_are_not_refused();
    scripts_are_one();
    let input = match read_all(alloc, source, RESUME_LIMIT) {
        Ok(input) => input,
        Err(unread) => return read_status(unread),
    };
    let text = match resume(rt, alloc, input, gate) {
        Ok(text) => text,
        Err(status) => return status,
    };
    match write_all(sink, &text) {
        Ok(()) => Status::Done,
        Err(Failed) => Status::WriteFault,
    }
}

/// Makes the script of a number, runs it, and puts the summary.
fn run_made<R: Threads + Sync, K: Sink, G: Gate + Sync>(
    rt: &R,
    alloc: Global,
    number: u64,
    sink: &mut K,
    gate: &G,
) -> Status
    ensures ends { IsMadeEnd result }
    ensures write_fault { result ≡ Status.WriteFault → Rose (K.faults sink.old) (K.faults sink.new) }
    ensures cut_off { result ≡ Status.WriteFault →
        (text : List ℕ) × IsMadeText number text × IsCutOff (K.room sink.old) (K.held sink.old) (K.held sink.new) text }
    ensures done { result ≡ Status.Done → (text : List ℕ) × IsMadeText number text × IsPut (K.room sink.old) (K.held sink.old) (K.held sink.new) text }
    ensures quiet { PutsNothing result (K.held sink.old) (K.held sink.new) }
    ensures sink_faults { K.faults sink.old ≤ K.faults sink.new }
{
    let Ok(text) = summary_of(rt, alloc, number, gate) else {
        return Status::Memory
    };
    match write_all(sink, &text) {
        Ok(()) => Status::Done,
        Err(Failed) => Status::WriteFault,
    }
}

/// Does all that the program does. With the words `run`, or `run --plain`, it reads a script from the source, runs it, and
/// puts the replies into the sink; with `save` it puts the image of the space that the script leaves; with `resume` it reads an
/// image and a script behind it, checks the image, runs the script on its space, and puts the replies; with `make` and a number it
/// makes that number's script, runs it, and puts the summary, and leaves the source as it was. What is put is built whole before
/// its first byte is. The branches of a fork run beside each other, as the two closures of the runtime's `join`, and each passes
/// the gate before its first command; with `--plain` and `save` they run in turn, over one owner, and pass none.
///
/// `Done` says that the whole input was read, where there is one, and all was put; `Memory` is want of memory, and puts
/// nothing. There is no other end where the input is within its limits and the text of a script, or a good image with a script
/// behind it that doesn't differ, and no count of faults rises. `Usage` comes exactly where the words are none of these, before the
/// source is touched; `TooLong` exactly where more than 1,048,576 bytes were taken, or for `resume` more than 136,314,880, or more
/// than 1,048,576 follow a whole image; `ReadFault` and `WriteFault` only where the source's and the sink's counts of
/// faults rose, and the latter puts some of the text from the front, but not all; where the sink tells its room the text is
/// then longer than what was left of it, and at `Done` it is not; `Refused` where the input, read whole, is no script, or for
/// `resume` what follows a good image is none, at its first line that none has after those before it. `Image` and `Differs` come
/// for `resume` alone: where the image has a fault, the first, and where the script's lines of format, frames and hold aren't the
/// image's, the first. With `run` the maps that lack frames inside forks stand in outermost forks that don't cover them; where no
/// outermost fork is short there are none, and the text is that of `run --plain`.
pub fn run<R: Threads + Sync, S: Source, K: Sink, G: Gate + Sync>(
    rt: &R,
    alloc: Global,
    words: &Words,
    source: &mut S,
    sink: &mut K,
    gate: &G,
) -> Status
    ensures usage { (result ≡ Status.Usage) ↔ (¬ IsAccepted words.now) }
    ensures untouched { ¬ AskToRead words.now →
        IsUntouched (S.left source.old) (S.left source.new) (S.given source.old) (S.given source.new) (S.faults source.old) (S.faults source.new) }
    ensures too_long { AskToRun words.now → S.given source.new < 2 ^ 64 - 1 →
        ((result ≡ Status.TooLong) ↔ (input_limit < S.given source.new - S.given source.old)) }
    ensures long { AskToRun words.now → result ≡ Status.TooLong → IsLong (S.left source.old) }
    ensures resume_taken { AskToResume words.now → S.given source.new < 2 ^ 64 - 1 →
        resume_limit < S.given source.new - S.given source.old → result ≡ Status.TooLong }
    ensures resume_too_long { AskToResume words.now → S.given source.new < 2 ^ 64 - 1 → result ≡ Status.TooLong →
        (resume_limit < S.given source.new - S.given source.old) ⊎ IsLongBehind (S.left source.old) }
    ensures read_fault { result ≡ Status.ReadFault → Rose (S.faults source.old) (S.faults source.new) }
    ensures refused { AskToRun words.now → RefusedAs (S.left source.old) (S.left source.new) result }
    ensures unresumed { AskToResume words.now → UnresumedAs (S.left source.old) (S.left source.new) result }
    ensures images { ¬ AskToResume words.now → IsOfNoImage result }
    ensures write_fault { result ≡ Status.WriteFault → Rose (K.faults sink.old) (K.faults sink.new) }
    ensures cut_off { result ≡ Status.WriteFault →
        PutAsAsked words.now (S.left source.old) (S.left source.new) (IsCutOff (K.room sink.old) (K.held sink.old) (K.held sink.new)) }
    ensures done { result ≡ Status.Done →
        PutAsAsked words.now (S.left source.old) (S.left source.new) (IsPut (K.room sink.old) (K.held sink.old) (K.held sink.new)) }
    ensures complete { AskToRun words.now → CanRun (S.left source.old) →
        ¬ Rose (S.faults source.old) (S.faults source.new) → ¬ Rose (K.faults sink.old) (K.faults sink.new) →
        IsDoneWithMemory result }
    ensures resume_complete { AskToResume words.now → CanResume (S.left source.old) →
        ¬ Rose (S.faults source.old) (S.faults source.new) → ¬ Rose (K.faults sink.old) (K.faults sink.new) →
        IsDoneWithMemory result }
    ensures made { (number : ℕ) → AskToMake words.now number → IsMadeEnd result }
    ensures quiet { PutsNothing result (K.held sink.old) (K.held sink.new) }
    ensures source_faults { S.faults source.old ≤ S.faults source.new }
    ensures sink_faults { K.faults sink.old ≤ K.faults sink.new }
{
    match words.task() {
        None => Status::Usage,
        Some(Task::Run { product }) => run_input(rt, alloc, product, source, sink, gate),
        Some(Task::Resume) => run_resumed(rt, alloc, source, sink, gate),
        Some(Task::Make { number }) => run_made(rt, alloc, number, sink, gate),
    }
}
