//! The walks of the manuals: what a device finds at an input address, over the words of a space.
//!
//! Each is written from its manual alone, in the manual's own levels and fields, and knows nothing of a
//! format. `walk_vtdss` is that of VT-d second-stage tables (Intel Virtualization Technology for Directed
//! I/O, Architecture Specification, second-stage translation), `walk_x86` that of x86-64 tables (Intel 64
//! and IA-32 Architectures Software Developer's Manual, volume 3, paging), `walk_riscv` that of RISC-V tables
//! (Privileged Architecture, virtual address translation), `walk_amdv1` that of AMD tables (AMD I/O Virtualization
//! Technology Specification, I/O page tables for host translations). These take nine index bits at each level, AND the
//! permissions along the way, and differ in what an entry says; AMD's root says how many levels there are. `walk_vmsa`
//! is that of VMSAv8-64 tables (Arm Architecture Reference Manual for A-profile architecture, the AArch64 virtual
//! memory system), whose index bits go by the granule.
//!
//! The words are a root, a tag for each frame, and the frames. An entry that is present and of no form of
//! the profile is alien, at the level of its table; so is a pointer past the frames, and a bad root.
//! Addresses are in bytes. No call takes memory.
//!
//! It stands on the permissions and definitions of formats, and promises that each walk is its definition.
#![tactic(auto)]

mod amd;
mod bits;
mod descriptor;
mod granule;
mod riscv;
mod space;
mod step;
mod vmsa;
mod vtd;
mod walk;
mod walked;
mod x86;

pub use amd::walk_amdv1;
pub use riscv::walk_riscv;
pub use vmsa::walk_vmsa;
pub use vtd::walk_vtdss;
pub use walked::Walked;
pub use x86::walk_x86;
