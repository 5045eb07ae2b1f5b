//! What one descriptor of a VMSAv8-64 table says.

ghost use Rattle.std.specs.Prelude.{◌≡◌, ◌^◌, ◌<◌, ◌≤◌};
ghost use Rattle.pt_manual.specs.VmsaWalk as VmsaWalk;
ghost use Rattle.pt_manual.specs.VmsaWalk.{IsGranule, IsWithinOutput, descriptor_at, permission_of};

use crate::bits::{has, has_only, is_aligned};
use pt_format::Prot;

const VALID: u64 = 1 << 0;

const TABLE: u64 = 1 << 1;

const AP1: u64 = 1 << 6;

const AP2: u64 = 1 << 7;

const SH: u64 = 3 << 8;

const AF: u64 = 1 << 10;

const NG: u64 = 1 << 11;

const CONTIGUOUS: u64 = 1 << 52;

const BLOCK: u64 = VALID + AP1 + SH + AF + NG;

/// What a descriptor says, by the manual: addresses are output addresses, in bytes; a page or block is of `2^log2`
/// bytes.
#[derive(Clone, Copy, Debug, PartialEq, Eq)]
pub enum Descriptor {
    Invalid,
    Reserved,
    Table { address: u64 },
    Page { address: u64, log2: u32, prot: Prot },
}

/// The bits 47 down to the granule of a word, in place.
fn address_in(granule: u32, word: u64) -> u64
    requires { IsGranule granule }
    ensures address { result ≡ VmsaWalk.address_in granule word }
    ensures within { result < 2 ^ 48 }
    ensures part { result ≤ word }
{
    (word & ((1 << 48) - 1)) >> granule << granule
}

/// The bytes under a descriptor of a level, as a log2.
pub fn entry_log2(granule: u32, level: u32) -> u32
    requires a_granule { IsGranule granule }
    requires a_level { level < 4 }
    ensures log2 { result ≡ VmsaWalk.entry_log2 granule level }
    ensures within { result < 64 }
{
    granule + (granule - 3) * (3 - level)
}

/// Whether a level has block descriptors.
fn has_blocks(granule: u32, level: u32) -> bool
    ensures { result ≡ VmsaWalk.has_blocks granule level }
{
    level == 2 || level == 1 && granule == 12
}

/// The permission of a page or block.
fn permission_of(others: u64) -> Prot
    ensures { result ≡ permission_of others }
{
    if has(AP2, others) {
        Prot::Read
    } else {
        Prot::ReadWrite
    }
}

/// What a word says in a table of the manual's `level`.
pub fn read_descriptor(granule: u32, level: u32, word: u64) -> Descriptor
    requires a_granule { IsGranule granule }
    requires a_level { level < 4 }
    ensures descriptor { result ≡ descriptor_at granule level word }
    ensures within { IsWithinOutput result }
{
    let address = address_in(granule, word);
    let others = word - address;
    let log2 = entry_log2(granule, level);
    let prot = permission_of(others);
    let page = Descriptor::Page {
        address,
        log2,
        prot,
    };
    if !has(VALID, others) {
        Descriptor::Invalid
    } else if has_only(VALID + TABLE, 0, others) && level < 3 {
        Descriptor::Table { address }
    } else if has_only(BLOCK + TABLE, AP2 + CONTIGUOUS, others) && level == 3 {
        page
    } else if has_only(BLOCK, AP2 + CONTIGUOUS, others)
        && (has_blocks(granule, level) && is_aligned(log2, address))
    {
        page
    } else {
        Descriptor::Reserved
    }
}
