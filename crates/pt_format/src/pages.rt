//! Bytes and pages: the only way from the one to the other.

ghost use Rattle.std.specs.Prelude.{◌≡◌, ◌+◌, ◌-◌, ◌*◌, ◌%◌, ◌^◌, ◌<◌, ◌≤◌, IsTrue, nat_le, if◌then◌else◌, option_map};
ghost use Rattle.pt_model.specs.Layout.{input_pages};
ghost use Rattle.pt_model.specs.Pages as Pages;
ghost use Rattle.pt_model.specs.Pages.{page_at, byte_at, range_at, pages_at};
ghost use Rattle.pt_format.specs.Ranges.{span_of};

use crate::format::Format;
use pt_num::{Span, is_aligned};

/// Whether an address has a page.
pub fn has_page<F: Format>(address: u64) -> bool
    ensures { result ≡ Pages.has_page F.layout address }
{
    if F::SIGNED {
        let half = 1 << (F::INPUT - 1);
        address < half || address >= !half + 1
    } else {
        F::INPUT == 64 || address < 1 << F::INPUT
    }
}

/// The low bits of a number.
fn low_bits(value: u64, bits: u32) -> u64
    requires { bits ≤ 64 }
    ensures { result ≡ value % 2 ^ bits }
{
    if bits == 64 {
        value
    } else {
        value & ((1 << bits) - 1)
    }
}

/// The page that the low bits of an address name: its page, where it has one.
pub fn page_under<F: Format>(address: u64) -> u64
    ensures page { result ≡ Pages.page_under F.layout address }
    ensures within { result < input_pages F.layout }
{
    low_bits(address, F::INPUT) >> F::GRANULE
}

/// The page of an address, where it has one.
pub fn page_of<F: Format>(address: u64) -> Option<u64>
    ensures { result ≡ page_at F.layout address }
{
    if has_page::<F>(address) {
        Some(page_under::<F>(address))
    } else {
        None
    }
}

/// Whether a number of bytes is a number of whole pages.
pub fn is_whole<F: Format>(bytes: u64) -> bool
    ensures { result ≡ Pages.is_whole F.layout bytes }
{
    is_aligned(bytes, F::GRANULE)
}

/// An address of `bits` bits whose further bits are all as its top bit.
fn sign_extended(byte: u64, bits: u32) -> u64
    requires some { 1 ≤ bits }
    requires few { bits ≤ 64 }
    requires within { byte < 2 ^ bits }
    ensures { result ≡ byte + (if nat_le (2 ^ (bits - 1)) byte then 2 ^ 64 - 2 ^ bits else 0) }
{
    let half = 1 << (bits - 1);
    if byte >= half {
        byte - half + (!half + 1)
    } else {
        byte
    }
}

/// The bytes before a page.
fn bytes_before<F: Format>(page: u64) -> u64
    requires { page < input_pages F.layout }
    ensures bytes { result ≡ page * 2 ^ F.layout.granule }
    ensures within { result < 2 ^ F.layout.input }
{
    page << F::GRANULE
}

/// The input address at which a page of the space begins.
pub fn byte_of<F: Format>(page: u64) -> u64
    requires { page < input_pages F.layout }
    ensures { result ≡ byte_at F.layout page }
{
    let byte = bytes_before::<F>(page);
    if F::SIGNED {
        sign_extended(byte, F::INPUT)
    } else {
        byte
    }
}

/// The pages of a range of whole pages, by the pages of its first byte and of its last one.
fn range_by_ends<F: Format>(va: u64, len: u64) -> Option<Span>
    requires whole { IsTrue (Pages.is_whole F.layout len) }
    requires some { 0 < len }
    ensures { result ≡ option_map span_of (range_at F.layout va len) }
{
    let last = va.checked_add(len - 1)?;
    if !has_page::<F>(va) || !has_page::<F>(last) {
        return None;
    }
    let first = page_under::<F>(va);
    let count = len >> F::GRANULE;
    if first + count == page_under::<F>(last) + 1 {
        Some(Span { first, count })
    } else {
        None
    }
}

/// The pages of `len` bytes from an input address, both of whole pages. None exactly where one of the bytes has no
/// page. Where the space has no sign, they are the pages from the address's own on, as far as the space goes.
pub fn range_of<F: Format>(va: u64, len: u64) -> Option<Span>
    requires whole_va { IsTrue (Pages.is_whole F.layout va) }
    requires whole_len { IsTrue (Pages.is_whole F.layout len) }
    requires some { 0 < len }
    ensures { result ≡ option_map span_of (range_at F.layout va len) }
{
    if F::SIGNED {
        return range_by_ends::<F>(va, len);
    }
    let first = va >> F::GRANULE;
    let count = len >> F::GRANULE;
    if first + count <= 1 << (F::INPUT - F::GRANULE) {
        Some(Span { first, count })
    } else {
        None
    }
}

/// The pages of `len` bytes from an input address. None exactly where the address or the length is not
/// of whole pages, the length is 0, or a byte of the range has no page.
pub fn pages_of<F: Format>(va: u64, len: u64) -> Option<Span>
    ensures { result ≡ option_map span_of (pages_at F.layout va len) }
{
    if is_whole::<F>(va) && is_whole::<F>(len) && len != 0 {
        range_of::<F>(va, len)
    } else {
        None
    }
}
