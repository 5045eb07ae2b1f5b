//! The program `pt_bench`: loads of maps, unmaps and lookups over the words of one owner or over leases, to be counted by an
//! instrument such as callgrind. It is no part of what others stand on.
//!
//! Words: a format, a load and a count of steps, and `lookup` where the range of each step is looked up after all
//! steps. Where the word `shared` or `quarter` stands before the load, it is run over a lease of the whole space, or of
//! its first quarter; else over one owner. It prints how many steps were made and not refused, and how many ranges were
//! found. Two runs of different counts differ by the cost of the calls alone. A format, `threads`, 1, 2 or 4 and a
//! count of rounds let as many leases of one space map, look up and unmap pages beside each other, and it prints
//! how many rounds were whole. It stands on the engine and on the formats, and promises that each call's condition holds.
#![tactic(auto)]

mod halves;
mod leased;
mod load;
mod owner;
mod size;
mod threads;

use crate::leased::run_leased;
use crate::load::{Load, Tally, Work};
use crate::owner::run_owned;
use crate::threads::run_rounds;
use fmt_amdv1::AmdV1;
use fmt_riscv::RiscV;
use fmt_vmsa::Vmsa;
use fmt_vtdss::VtdSs;
use fmt_x86::X86;
use pt_format::Format;
use std::alloc::Global;
use std::env;
use std::process::ExitCode;
use std::thread::Threads;

/// What is to be run, and over which holders.
#[derive(Clone, Copy, Debug, PartialEq, Eq)]
enum Task {
    /// A work over one owner.
    Owned(Work),
    /// A work over a lease of the lower half of the pages, of that half's, and so on so many times.
    Leased(u32, Work),
    /// Rounds over leases beside each other, each of what so many halvings leave.
    Beside { halvings: u32, rounds: u32 },
}

/// What was done.
#[derive(Clone, Copy, Debug, PartialEq, Eq)]
enum Done {
    Steps(Tally),
    /// So many rounds were whole at each lease.
    Rounds(u32),
}

fn load_named(word: &str) -> Option<Load> {
    match word {
        "pages" => Some(Load::Pages),
        "blocks" => Some(Load::Blocks),
        "sixteen" => Some(Load::Sixteen),
        "driver" => Some(Load::Driver),
        "gigabytes" => Some(Load::Gigabytes),
        "unmap" => Some(Load::Unmap),
        "unmap-blocks" => Some(Load::UnmapBlocks),
        "unmap-gigabytes" => Some(Load::UnmapGigabytes),
        "mix" => Some(Load::Mix),
        _ => None,
    }
}

/// How often a space is halved for so many leases.
fn halvings_for(leases: &str) -> Option<u32> {
    match leases {
        "1" => Some(0),
        "2" => Some(1),
        "4" => Some(2),
        _ => None,
    }
}

/// How often the space is halved for the lease that a word names.
fn halvings_of(lease: &str) -> Option<u32> {
    match lease {
        "shared" => Some(0),
        "quarter" => Some(2),
        _ => None,
    }
}

/// Whether the last word, where there is one, asks for lookups.
fn asks_lookups(word: Option<String>) -> Option<bool> {
    let Some(word) = word else {
        return Some(false);
    };
    if word.as_str() == "lookup" {
        Some(true)
    } else {
        None
    }
}

/// The work that a load's name and the words behind it say.
fn work_of(load: &str, count: &str, last: Option<String>) -> Option<Work> {
    Some(Work {
        load: load_named(load)?,
        count: count.parse::<u32>().ok()?,
        lookups: asks_lookups(last)?,
    })
}

/// The rounds that the words behind `threads` say.
fn rounds_of(leases: &str, rounds: Option<String>) -> Option<Task> {
    let halvings = halvings_for(leases)?;
    let rounds = rounds?.parse::<u32>().ok()?;
    Some(Task::Beside { halvings, rounds })
}

/// The name of the format and the task that the command line says.
fn words_of(rt: &HostRuntime) -> Option<(String, Task)> {
    let mut words = env::args(rt).ok()?.skip(1);
    let format = words.next()?;
    let first = words.next()?;
    let second = words.next()?;
    let third = words.next();
    let task = if let Some(halvings) = halvings_of(first.as_str()) {
        Task::Leased(
            halvings,
            work_of(second.as_str(), third?.as_str(), words.next())?,
        )
    } else if first.as_str() == "threads" {
        rounds_of(second.as_str(), third)?
    } else {
        Task::Owned(work_of(first.as_str(), second.as_str(), third)?)
    };
    Some((format, task))
}

/// Runs a task on a format. None where no memory was found.
fn run_task<F: Format + Send + Sync, R: Threads + Sync>(
    rt: &R,
    alloc: Global,
    task: Task,
) -> Option<Done> {
    match task {
        Task::Owned(work) => Some(Done::Steps(run_owned::<F>(alloc, work).ok()?)),
        Task::Leased(halvings, work) => {
            Some(Done::Steps(run_leased::<F>(alloc, halvings, work).ok()?))
        }
        Task::Beside { halvings, rounds } => {
            let whole = run_rounds::<F, R>(rt, alloc, halvings, rounds).ok()?;
            Some(Done::Rounds(whole))
        }
    }
}

/// Runs a task on the format of a name. None where none has it, or no memory was found.
fn run_on<R: Threads + Sync>(rt: &R, alloc: Global, format: &str, task: Task) -> Option<Done> {
    match format {
        "amdv1" => run_task::<AmdV1, R>(rt, alloc, task),
        "vtdss3" => run_task::<VtdSs<3>, R>(rt, alloc, task),
        "vtdss4" => run_task::<VtdSs<4>, R>(rt, alloc, task),
        "vtdss5" => run_task::<VtdSs<5>, R>(rt, alloc, task),
        "x86-4" => run_task::<X86<4>, R>(rt, alloc, task),
        "x86-5" => run_task::<X86<5>, R>(rt, alloc, task),
        "vmsa4" => run_task::<Vmsa<12>, R>(rt, alloc, task),
        "vmsa16" => run_task::<Vmsa<14>, R>(rt, alloc, task),
        "vmsa64" => run_task::<Vmsa<16>, R>(rt, alloc, task),
        "sv39" => run_task::<RiscV<3>, R>(rt, alloc, task),
        "sv48" => run_task::<RiscV<4>, R>(rt, alloc, task),
        "sv57" => run_task::<RiscV<5>, R>(rt, alloc, task),
        _ => None,
    }
}

fn print_done(rt: &HostRuntime, done: Done) -> ExitCode {
    let printed = match done {
        Done::Steps(Tally { made, found }) => println!(rt; "made {made} found {found}"),
        Done::Rounds(whole) => println!(rt; "whole {whole}"),
    };
    match printed {
        Ok(()) => ExitCode::SUCCESS,
        Err(_) => ExitCode::from(1),
    }
}

fn main(rt: HostRuntime) -> ExitCode {
    let Some((format, task)) = words_of(&rt) else {
        return ExitCode::from(2);
    };
    match run_on(&rt, rt.alloc(), format.as_str(), task) {
        Some(done) => print_done(&rt, done),
        None => ExitCode::from(2),
    }
}
