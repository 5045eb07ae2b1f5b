// The branches of a fork.
ghost use Rattle.std.specs.Prelude.{◌≡◌, ℕ, ◌^◌, ◌<◌, length};
ghost use Rattle.pt_script.specs.Lines.{command_line};
ghost use Rattle.pt_script.specs.Branches.{IsFork, IsBranch, inner_behind, ComeApart};

use pt_model::{Command, What};

// How many forks of a branch are open behind a command, or nothing where it ends the branch.
fn inner_behind(inner: usize, what: What) -> Option<usize>
    requires { inner < 2 ^ 63 }
    ensures { result ≡ inner_behind inner (command_line what) }
{
    match what {
        What::Fork { .. } => Some(inner + 1),
        What::With if inner == 0 => None,
        What::End => inner.checked_sub(1),
        _ => Some(inner),
    }
}

// How many commands stand before the `with` or the `end` that ends this branch.
fn branch_len(commands: &[Command]) -> usize
    requires { (count : ℕ) × IsBranch commands.now count }
    ensures branch { IsBranch commands.now result }
    ensures within { result < length commands.now }
{
    let mut inner: usize = 0;
    for (place, command) in commands.iter().enumerate() {
        let Some(behind) = inner_behind(inner, command.what) else {
            return place
        };
        inner = behind;
    }
    unreachable!()
}

/// The places of the `With` and of the `End` that belong to the `Fork` at place 0. The left branch is
/// the commands between the `Fork` and the `With`, and the right branch those between the `With` and
/// the `End`. It takes no memory.
pub fn branches(commands: &[Command]) -> (usize, usize)
    requires { (middle : ℕ) × (last : ℕ) × IsFork commands.now middle last }
    ensures fork { IsFork commands.now result.0 result.1 }
    ensures only { (middle last : ℕ) → IsFork commands.now middle last → (middle ≡ result.0) × (last ≡ result.1) }
    ensures within { result.1 < length commands.now }
{
    let middle = 1 + branch_len(&commands[1..]);
    let last = middle + 1 + branch_len(&commands[middle + 1..]);
    (middle, last)
}

/// A body behind its first line: a line that is no fork leaves a body, and a fork leaves its two
/// branches and a body.
pub fn bodies_come_apart()
    ensures { ComeApart }
{}
