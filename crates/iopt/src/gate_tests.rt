//! Gates that see that the branches of a fork run beside each other, and over tables.

use crate::status::Status;
use crate::tests::ROOM;
use crate::top::run;
use crate::words::Words;
use pt_format::{Format, Prot};
use pt_run::Gate;
use pt_space::Lease;
use pt_stream::{MemorySink, SureSource};
use pt_walk::{OutsideLease, lookup};
use std::alloc::Global;
use std::sync::atomic::{AtomicU64, Ordering};
use std::test::Fail;
use std::thread::Threads;

/// Two branches that share tables, and the replies.
const SIDE_BY_SIDE: &[u8] =
    b"format vtdss3\nframes 16\nhold 8\nfork 0x100000\nmap 0xff000 0x5000 0x1000 rw\nwith\n\
    map 0x100000 0x7000 0x1000 rw\nend\nclose\nwalk 0x100010\ncensus\nend\n";

const SIDE_BY_SIDE_REPLIES: &[u8] =
    b"4 fork ok\n5 map ok\n7 map ok\n10 walk 0x7010 rw\n11 census levels 3 tables 3 blocks 2 pages 2\n";

/// A fork over what an earlier one mapped, and the replies.
const FORK_AFTER_FORK: &[u8] =
    b"format vtdss3\nframes 16\nhold 8\nfork 0x100000\nmap 0xff000 0x5000 0x1000 rw\nwith\n\
    map 0x100000 0x7000 0x1000 rw\nend\nfork 0x100000\nwith\nend\nclose\nend\n";

const FORK_AFTER_FORK_REPLIES: &[u8] = b"4 fork ok\n5 map ok\n7 map ok\n9 fork ok\n";

/// What a run of a text puts, whose branches pass this gate.
fn put_through<R: Threads + Sync, G: Gate + Sync>(
    rt: &R,
    alloc: Global,
    text: &[u8],
    gate: &G,
) -> Result<(Status, MemorySink), Fail> {
    let mut words = Words::new(alloc);
    words.push("run")?;
    let mut source = SureSource::new(Vec::from_slice(alloc, text)?);
    let mut sink = MemorySink::new(alloc, ROOM, ROOM, Vec::new(alloc))?;
    let status = run(rt, alloc, &words, &mut source, &mut sink, gate);
    Ok((status, sink))
}

/// Whether a branch came to the gate, and whether it saw the other one come, 1 for yes.
#[derive(Drop)]
struct Arrival {
    came: AtomicU64,
    met: AtomicU64,
}

/// A gate at which the two branches of a fork wait for each other, so long as they can: the left one is opened by line 4.
#[derive(Drop)]
struct Meeting {
    left: Arrival,
    right: Arrival,
}

impl Arrival {
    fn new() -> Arrival {
        Arrival {
            came: AtomicU64::new(0),
            met: AtomicU64::new(0),
        }
    }

    fn came_in_time(&self) -> bool {
        for _ in 0..500_000_000_u32 {
            if self.came.load(Ordering::SeqCst) == 1 {
                return true;
            }
        }
        false
    }
}

impl Gate for Meeting {
    fn pass<F: Format>(&self, branch: u32, _lease: &mut Lease<'_, F>) {
        let (own, other) = if branch == 4 {
            (&self.left, &self.right)
        } else {
            (&self.right, &self.left)
        };
        own.came.store(1, Ordering::SeqCst);
        if other.came_in_time() {
            own.met.store(1, Ordering::SeqCst);
        }
    }
}

#[test]
fn branches_see_each_other_at_the_gate(rt: HostRuntime) -> Result<(), Fail> {
    let gate = Meeting {
        left: Arrival::new(),
        right: Arrival::new(),
    };
    let (status, sink) = put_through(&rt, rt.alloc(), SIDE_BY_SIDE, &gate)?;
    assert_eq!(rt; status, Status::Done);
    assert_eq!(rt; sink.bytes(), SIDE_BY_SIDE_REPLIES);
    assert_eq!(rt; gate.left.met.load(Ordering::SeqCst), 1);
    assert_eq!(rt; gate.right.met.load(Ordering::SeqCst), 1);
    Ok(())
}

type Found = Result<Option<(u64, Prot)>, OutsideLease>;

/// What a branch is to find on its own lease at the pages on both sides of the cut, and how often one passed that did.
#[derive(Drop)]
struct Branch {
    line: u32,
    below: Found,
    above: Found,
    passes: AtomicU64,
}

/// A gate at which each branch looks up the pages on both sides of the cut, and how often one passed that found another thing.
#[derive(Drop)]
struct Looking {
    branches: [Branch; 4],
    others: AtomicU64,
}

impl Branch {
    fn new(line: u32, below: Found, above: Found) -> Branch {
        Branch {
            line,
            below,
            above,
            passes: AtomicU64::new(0),
        }
    }
}

impl Gate for Looking {
    fn pass<F: Format>(&self, branch: u32, lease: &mut Lease<'_, F>) {
        let below = lookup::<F, Lease<'_, F>>(lease, 0xff000);
        let above = lookup::<F, Lease<'_, F>>(lease, 0x10_0000);
        let passes = self
            .branches
            .iter()
            .find(|it| it.line == branch && it.below == below && it.above == above)
            .map_or(&self.others, |it| &it.passes);
        passes.fetch_add(1, Ordering::SeqCst);
    }
}

#[test]
fn branches_run_on_tables_of_their_own_leases(rt: HostRuntime) -> Result<(), Fail> {
    let lower = Ok(Some((0x5000, Prot::ReadWrite)));
    let upper = Ok(Some((0x7000, Prot::ReadWrite)));
    let gate = Looking {
        branches: [
            Branch::new(4, Ok(None), Err(OutsideLease)),
            Branch::new(6, Err(OutsideLease), Ok(None)),
            Branch::new(9, lower, Err(OutsideLease)),
            Branch::new(10, Err(OutsideLease), upper),
        ],
        others: AtomicU64::new(0),
    };
    let (status, sink) = put_through(&rt, rt.alloc(), FORK_AFTER_FORK, &gate)?;
    assert_eq!(rt; status, Status::Done);
    assert_eq!(rt; sink.bytes(), FORK_AFTER_FORK_REPLIES);
    for branch in &gate.branches {
        assert_eq!(rt;
            branch.passes.load(Ordering::SeqCst),
            1,
            "the branch of line {}",
            branch.line
        );
    }
    assert_eq!(rt; gate.others.load(Ordering::SeqCst), 0);
    Ok(())
}
