//! What each branch of a fork passes before its first command.

ghost use Rattle.pt_reply.specs.Running.{IsReady};
ghost use Rattle.pt_shared.specs.Parts.{IsUnchanged};

use pt_format::Format;
use pt_space::Lease;

/// What each branch of a fork passes before its first command, with the lease on which it runs.
pub trait Gate {
    /// Lets the branch through that a line opens.
    fn pass<F: Format>(&self, branch: u32, lease: &mut Lease<'_, F>)
        requires { IsReady F.layout lease.old.view }
        ensures { IsUnchanged F.layout lease.old lease.new };
}

/// The gate that lets every branch through at once.
#[derive(Clone, Copy)]
pub struct Open;

impl Gate for Open {
    fn pass<F: Format>(&self, _branch: u32, _lease: &mut Lease<'_, F>) {}
}
