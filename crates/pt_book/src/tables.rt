//! Lists of table positions, and the positions that blocks need.

ghost use Rattle.std.specs.Prelude.{◌≡◌, ℕ, ◌+◌, ◌^◌, ◌<◌, ◌≤◌, All, MatchOption, length, map, filter, nat_lt, not, IfOk, OnOk};
ghost use Rattle.std.specs.List.{list_any, insert};
ghost use Rattle.pt_model.specs.Layout.{IsLegalBlock, end_of, input_pages, pages_of_table};
ghost use Rattle.pt_model.specs.Tables as tables;
ghost use Rattle.pt_model.specs.Tables.{add_positions, levels_between, needed};
ghost use Rattle.pt_model.specs.Book.{table_lies_in};
ghost use Rattle.pt_model.specs.Sets.{IsSorted};
ghost use Rattle.pt_book.specs.Spaces.{IsStart};

use pt_format::{Block, Format};
use pt_model::Position;
use pt_num::Memory;
use std::alloc::Global;

/// Whether a position is before another: at a lower level, or at the same one with a lower first page.
fn is_before(position: Position, other: Position) -> bool
    ensures { result ≡ tables.is_before position other }
{
    position.level < other.level || position.level == other.level && position.base < other.base
}

/// Whether a position is in a list.
pub(crate) fn is_in(list: &[Position], position: Position) -> bool
    ensures { result ≡ list_any (tables.is_same position) list.now }
{
    list.iter().any(|other| position.level == other.level && position.base == other.base)
}

/// Whether a position is of the spine of a space that starts with so many levels.
pub(crate) fn is_spine(levels: u32, position: Position) -> bool
    requires { 1 ≤ levels }
    ensures { result ≡ tables.is_spine levels position }
{
    levels - 1 <= position.level && position.base == 0
}

/// Whether the table of a level at page 0 ends before page `last`.
fn ends_before<F: Format>(level: u32, last: u64) -> bool
    requires { level < F.layout.levels }
    ensures { result ≡ nat_lt (pages_of_table F.layout level) last }
{
    let log2 = F::INDEX * (level + 1);
    log2 < 64 && 1 << log2 < last
}

/// The least top of a space that starts with so many levels, whose table at page 0 has all pages before page
/// `last`.
pub(crate) fn least_top<F: Format>(levels: u32, last: u64) -> u32
    requires start { IsStart F.layout levels }
    requires in_space { last ≤ input_pages F.layout }
    ensures top { result ≡ tables.least_top F.layout levels last }
    ensures below { result < F.layout.levels }
{
    for top in levels - 1..F::LEVELS - 1 {
        if !ends_before::<F>(top, last) {
            return top;
        }
    }
    F::LEVELS - 1
}

/// The position of a level under which a page lies.
fn position_over<F: Format>(page: u64, level: u32) -> Position
    requires { level < F.layout.levels }
    ensures { result ≡ tables.position_over F.layout page level }
{
    let log2 = F::INDEX * (level + 1);
    Position {
        level,
        base: if log2 < 64 { page >> log2 << log2 } else { 0 },
    }
}

/// The place at which a position comes into a list in order, sought from the end; None where it is there.
fn place_for(list: &[Position], position: Position) -> Option<usize>
    requires { IsSorted list.now }
    ensures { MatchOption result
        (tables.add_position list.now position ≡ list.now)
        (λ place. (place ≤ length list.now) × (tables.add_position list.now position ≡ insert list.now place position)) }
{
    for last in (0..list.len()).rev() {
        if is_before(list[last], position) {
            return Some(last + 1);
        }
        if !is_before(position, list[last]) {
            return None;
        }
    }
    Some(0)
}

/// Puts a position into a list in order, once.
fn add_position(list: &mut Vec<Position>, position: Position) -> Result<(), Memory>
    requires { IsSorted list.old.items }
    ensures { OnOk result (list.new.items ≡ tables.add_position list.old.items position) }
{
    if let Some(place) = place_for(list, position) {
        list.insert(place, position)?;
    }
    Ok(())
}

/// Puts the positions over a page, of the levels from `low` to `high`, into a list in order.
fn add_over<F: Format>(
    list: &mut Vec<Position>,
    page: u64,
    low: u32,
    high: u32,
) -> Result<(), Memory>
    requires in_order { IsSorted list.old.items }
    requires below { high < F.layout.levels }
    ensures added { OnOk result (list.new.items
        ≡ add_positions list.old.items (map (tables.position_over F.layout page) (levels_between low high))) }
    ensures in_order { OnOk result (IsSorted list.new.items) }
{
    for level in low..high + 1 {
        add_position(list, position_over::<F>(page, level))?;
    }
    Ok(())
}

/// Puts the positions that a block needs into a list in order: those over its first page, and the spine.
fn add_needed<F: Format>(list: &mut Vec<Position>, levels: u32, block: Block) -> Result<(), Memory>
    requires start { IsStart F.layout levels }
    requires in_order { IsSorted list.old.items }
    requires legal { IsLegalBlock F.layout block }
    ensures { OnOk result (list.new.items ≡ add_positions list.old.items (needed F.layout levels block)) }
{
    let top = least_top::<F>(levels, block.first + (1 << block.log2));
    add_over::<F>(list, block.first, block.log2 / F::INDEX, top)?;
    add_over::<F>(list, 0, levels - 1, top)
}

/// The positions that blocks need in a space that starts with so many levels, in order, each once.
pub(crate) fn all_needed<F: Format>(
    alloc: Global,
    levels: u32,
    blocks: &[Block],
) -> Result<Vec<Position>, Memory>
    requires start { IsStart F.layout levels }
    requires legal { All (IsLegalBlock F.layout) blocks.now }
    ensures { IfOk result (λ list. list.items ≡ tables.all_needed F.layout levels blocks.now) }
{
    let mut list = Vec::new(alloc);
    for block in blocks {
        add_needed::<F>(&mut list, levels, *block)?;
    }
    Ok(list)
}

/// Whether the pages under a table are all in a block.
fn lies_in<F: Format>(position: Position, block: Block) -> bool
    requires { IsLegalBlock F.layout block }
    ensures { result ≡ table_lies_in F.layout block.first (end_of block) position }
{
    let log2 = u64::from(F::INDEX) * (u64::from(position.level) + 1);
    if log2 > u64::from(block.log2) {
        return false;
    }
    let room = (1 << block.log2) - (1 << log2);
    block.first <= position.base && position.base <= block.first + room
}

/// Whether the pages under a table are all in one of the blocks.
fn is_replaced<F: Format>(position: Position, blocks: &[Block]) -> bool
    requires { All (IsLegalBlock F.layout) blocks.now }
    ensures { result ≡ list_any (λ b. table_lies_in F.layout b.first (end_of b) position) blocks.now }
{
    for block in blocks {
        if lies_in::<F>(position, *block) {
            return true;
        }
    }
    false
}

/// The positions of a list whose tables no block takes the place of.
fn not_replaced<F: Format>(
    alloc: Global,
    list: &[Position],
    blocks: &[Block],
) -> Result<Vec<Position>, Memory>
    requires { All (IsLegalBlock F.layout) blocks.now }
    ensures { IfOk result (λ kept. kept.items
        ≡ filter (λ p. not (list_any (λ b. table_lies_in F.layout b.first (end_of b) p) blocks.now)) list.now) }
{
    let mut kept = Vec::new(alloc);
    for position in list {
        if !is_replaced::<F>(*position, blocks) {
            kept.push(*position)?;
        }
    }
    Ok(kept)
}

/// Whether the pages under a table are all among those from `first` to before `last`.
fn lies_among<F: Format>(position: Position, first: u64, last: u64) -> bool
    ensures { result ≡ table_lies_in F.layout first last position }
{
    let log2 = u64::from(F::INDEX) * (u64::from(position.level) + 1);
    if log2 >= 64 {
        return false;
    }
    first <= position.base && u128::from(position.base) + (1 << log2) <= u128::from(last)
}

/// The positions of a list whose tables are not wholly among the pages from `first` to before `last`.
pub(crate) fn tables_left<F: Format>(
    alloc: Global,
    list: &[Position],
    first: u64,
    last: u64,
) -> Result<Vec<Position>, Memory>
    ensures { IfOk result (λ left. left.items ≡ filter (λ p. not (table_lies_in F.layout first last p)) list.now) }
{
    let mut left = Vec::new(alloc);
    for position in list {
        if !lies_among::<F>(*position, first, last) {
            left.push(*position)?;
        }
    }
    Ok(left)
}

/// Puts those positions of a list that are not of the spine into another, which is in order.
fn add_off_spine(list: &mut Vec<Position>, levels: u32, needed: &[Position]) -> Result<(), Memory>
    requires start { 1 ≤ levels }
    requires in_order { IsSorted list.old.items }
    ensures added { OnOk result (list.new.items
        ≡ add_positions list.old.items (filter (λ p. not (tables.is_spine levels p)) needed.now)) }
    ensures in_order { OnOk result (IsSorted list.new.items) }
{
    for position in needed {
        if !is_spine(levels, *position) {
            add_position(list, *position)?;
        }
    }
    Ok(())
}

/// The tables after new blocks are mapped in a space that starts with so many levels: those that they need
/// with the old ones, but those that a new block takes the place of.
pub(crate) fn tables_after<F: Format>(
    alloc: Global,
    levels: u32,
    old: &[Position],
    new: &[Block],
) -> Result<Vec<Position>, Memory>
    requires start { IsStart F.layout levels }
    requires in_order { IsSorted old.now }
    requires legal { All (IsLegalBlock F.layout) new.now }
    ensures tables { IfOk result (λ list. list.items ≡ add_positions
        (filter (λ p. not (list_any (λ b. table_lies_in F.layout b.first (end_of b) p) new.now)) old.now)
        (filter (λ p. not (tables.is_spine levels p)) (tables.all_needed F.layout levels new.now))) }
    ensures in_order { IfOk result (λ list. IsSorted list.items) }
{
    let needed = all_needed::<F>(alloc, levels, new)?;
    let mut list = not_replaced::<F>(alloc, old, new)?;
    add_off_spine(&mut list, levels, &needed)?;
    Ok(list)
}
