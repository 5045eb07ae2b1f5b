use pt_format::Prot;

/// What a walk finds at an input address: nothing, the output address of that very byte (in bytes) and
/// what is permitted, or an entry of no form of the profile in a table of the manual's `level`.
#[derive(Clone, Copy, Debug, PartialEq, Eq)]
pub enum Walked {
    None,
    Page { out: u64, prot: Prot },
    Alien { level: u32 },
}
