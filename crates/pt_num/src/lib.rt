//! Numbers: runs of pages, alignment, and the greatest step of a set of sizes.
//!
//! It stands on nothing but std. No call here refuses or takes memory; what a call needs is its
//! condition, and each answer is exact.
#![tactic(auto)]

ghost use Rattle.std.specs.Prelude.{◌≡◌, ℕ, ◌+◌, ◌-◌, ◌*◌, ◌/◌, ◌%◌, ◌^◌, ◌<◌, ◌≤◌, ◌≢◌, ◌↔◌, IsTrue, IsBitSet};
ghost use Rattle.pt_num.specs.Steps.{IsGreatestStep};

use std::alloc::{AllocError, AllocFailed};

/// A run of pages: `count` pages from page `first`. `first + count` is at most `2^52`.
#[derive(Clone, Copy, Debug, PartialEq, Eq)]
pub struct Span {
    pub first: u64,
    pub count: u64,
}

/// No memory was found.
#[derive(Clone, Copy, Debug, PartialEq, Eq)]
pub struct Memory;

impl From<AllocError> for Memory {
    fn from(_error: AllocError) -> Memory {
        Memory
    }
}

impl<T: Drop> From<AllocFailed<T>> for Memory {
    fn from(_failed: AllocFailed<T>) -> Memory {
        Memory
    }
}

/// The greatest multiple of `2^log2` that is at most `value`.
pub fn align_down(value: u64, log2: u32) -> u64
    requires { log2 < 64 }
    ensures multiple { result % 2 ^ log2 ≡ 0 }
    ensures at_most { result ≤ value }
    ensures greatest { value < result + 2 ^ log2 }
{
    (value >> log2) << log2
}

/// Whether `2^log2` divides `value`.
pub fn is_aligned(value: u64, log2: u32) -> bool
    requires { log2 < 64 }
    ensures { IsTrue result ↔ (value % 2 ^ log2 ≡ 0) }
{
    value & ((1 << log2) - 1) == 0
}

/// The place of the highest set bit.
pub fn log2_floor(value: u64) -> u32
    requires { value ≢ 0 }
    ensures at_least { 2 ^ result ≤ value }
    ensures below { value < 2 ^ (result + 1) }
{
    63 - value.leading_zeros()
}

/// How often 2 divides both numbers, at most 64.
fn common_alignment(first: u64, out: u64) -> u32
    ensures { (k : ℕ) → k < 64 → (k ≤ result ↔ ((first % 2 ^ k ≡ 0) × (out % 2 ^ k ≡ 0))) }
{
    (first | out).trailing_zeros()
}

/// The bits of a mask from 0 to `most`.
fn bits_up_to(mask: u64, most: u32) -> u64
    requires { most < 64 }
    ensures { (k : ℕ) → IsBitSet result k ↔ (IsBitSet mask k × (k ≤ most)) }
{
    mask & (u64::MAX >> (63 - most))
}

/// The greatest `k` whose bit is set in `sizes`, such that `2^k` divides `first` and `out` and is
/// at most `left`.
pub fn greatest_step(first: u64, out: u64, left: u64, sizes: u64) -> u32
    requires some { left ≢ 0 }
    requires page { IsBitSet sizes 0 }
    ensures greatest { IsGreatestStep first out left sizes result }
    ensures below { result < 64 }
{
    let aligned = common_alignment(first, out);
    let fitting = log2_floor(left);
    log2_floor(bits_up_to(sizes, aligned.min(fitting)))
}

#[cfg(test)]
mod tests;
