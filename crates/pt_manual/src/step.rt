//! What one entry says.

ghost use Rattle.std.specs.Prelude.{◌≡◌, ◌<◌};
ghost use Rattle.pt_manual.specs.NineBitWalk.{IsInOutput, Manual};

/// What an entry of a table says, by the manual. Addresses are output addresses, in bytes; a page is of
/// `2^log2` bytes.
#[derive(Clone, Copy, Debug, PartialEq, Eq)]
pub enum Step {
    NotPresent,
    Reserved,
    Page {
        address: u64,
        log2: u32,
        read: bool,
        write: bool,
    },
    Next {
        address: u64,
        read: bool,
        write: bool,
    },
}

/// The entries of a manual.
pub trait Entries {
    ghost manual: { Manual };

    /// The manual's number of a table of `level`, 0 being the lowest.
    fn number_of(level: u32) -> u32
        requires { level < 6 }
        ensures { result ≡ manual.number level };

    /// What a word says in a table of `level`, 0 being the lowest.
    fn read_entry(level: u32, word: u64) -> Step
        requires { level < 6 }
        ensures step { result ≡ manual.step (manual.number level) word }
        ensures in_output { IsInOutput result };
}
