//! How a run of the program ends.

ghost use Rattle.std.specs.Prelude.{◌≡◌, IfOk};
ghost use Rattle.iopt.specs.Ends.{exit_code, fault_text, reason_text, status_line};

use pt_image::ImageFault;
use pt_num::Memory;
use pt_script::Reason;
use pt_stream::push_dec;
use std::alloc::Global;

/// How a run of the program ends.
#[derive(Clone, Copy, Debug, PartialEq, Eq)]
pub enum Status {
    /// The input was run, and the replies were written.
    Done,
    /// The words of the command line are none that the program knows.
    Usage,
    /// No script has this line after the lines before it, for this reason.
    Refused { line: u32, reason: Reason },
    /// The input is longer than a script may be.
    TooLong,
    /// The input failed.
    ReadFault,
    /// The output failed.
    WriteFault,
    /// No memory was found.
    Memory,
    /// The image isn't good.
    Image { fault: ImageFault },
    /// The script's header isn't the image's from this line on.
    Differs { line: u32 },
}

impl Status {
    /// The exit status of the program.
    pub fn exit_code(&self) -> u8
        ensures { result ≡ exit_code self.now }
    {
        match self {
            Status::Done => 0,
            Status::Usage => 2,
            Status::Refused { .. }
            | Status::TooLong
            | Status::Image { .. }
            | Status::Differs { .. } => 3,
            Status::ReadFault => 4,
            Status::WriteFault => 5,
            Status::Memory => 6,
        }
    }
}

fn reason_text(reason: Reason) -> &'static [u8]
    ensures { result.now ≡ reason_text reason }
{
    match reason {
        Reason::Ended => b"ended",
        Reason::Word => b"word",
        Reason::Shape => b"shape",
        Reason::Argument => b"argument",
        Reason::Limit => b"limit",
        Reason::After => b"after",
    }
}

fn fault_text(fault: &ImageFault) -> &'static [u8]
    ensures { result.now ≡ fault_text fault.now }
{
    match fault {
        ImageFault::Truncated { .. } => b"truncated",
        ImageFault::Header { .. } => b"header",
        ImageFault::Root => b"root",
        ImageFault::Entry { .. } => b"entry",
        ImageFault::Stray { .. } => b"stray",
    }
}

/// The line that tells a status on standard error, without a line feed; none for `Done`.
pub fn status_text(alloc: Global, status: &Status) -> Result<Vec<u8>, Memory>
    ensures { IfOk result (λ text. text.items ≡ status_line status.now) }
{
    let mut out = Vec::new(alloc);
    match status {
        Status::Done => {}
        Status::Usage => out.extend_from_slice(b"bad words")?,
        Status::Refused { line, reason } => {
            out.extend_from_slice(b"refused at line ")?;
            push_dec(&mut out, u64::from(*line))?;
            out.extend_from_slice(b": ")?;
            out.extend_from_slice(reason_text(*reason))?;
        }
        Status::TooLong => out.extend_from_slice(b"input too long")?,
        Status::ReadFault => out.extend_from_slice(b"read fault")?,
        Status::WriteFault => out.extend_from_slice(b"write fault")?,
        Status::Memory => out.extend_from_slice(b"out of memory")?,
        Status::Image { fault } => {
            out.extend_from_slice(b"bad image: ")?;
            out.extend_from_slice(fault_text(fault))?;
        }
        Status::Differs { line } => {
            out.extend_from_slice(b"script differs at line ")?;
            push_dec(&mut out, u64::from(*line))?;
        }
    }
    Ok(out)
}
