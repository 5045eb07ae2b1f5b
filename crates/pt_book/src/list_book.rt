//! The book of a space as a list of blocks.

ghost use Rattle.std.specs.Prelude.{◌≡◌, ℕ, All, AllPairs, ◌+◌, ◌-◌, ◌*◌, ◌/◌, ◌%◌, ◌^◌, ◌<◌, ◌≤◌, None, Some, IsTrue, IfOk, IfSome, OnOk, OnErr, filter, length, not, ◌&&◌, nat_lt, nat_le, option_map, if◌then◌else◌};
ghost use Rattle.pt_model.specs.Layout.{IsLegalBlock, input_pages, output_pages};
ghost use Rattle.pt_model.specs.Pages as pages;
ghost use Rattle.pt_model.specs.Tiling.{tiling};
ghost use Rattle.pt_model.specs.Book as book;
ghost use Rattle.pt_model.specs.Book.{new_book, map_refusal, translation};
ghost use Rattle.pt_model.specs.Unmap as unmap;
ghost use Rattle.pt_model.specs.Unmap.{unmap_refusal, pages_gone, pages_in};
ghost use Rattle.pt_model.specs.Cuts.{cut_refusal, spanning};
ghost use Rattle.pt_model.specs.Dumps.{blocks_inside, census_of, dumped};
ghost use Rattle.pt_model.specs.Run.{refused_answer, refused_fork, refused_unmap, walk_answer};
ghost use Rattle.pt_book.specs.Spaces.{CrossesLegalBlock, CutsLegalBlock, IsStart, IsStated, with_book};

use crate::lists::{
    add_blocks, blocks_left, blocks_within, first_across, first_cut, first_met, pages_within, tiled,
};
use crate::tables::{all_needed, is_in, is_spine, least_top, tables_after, tables_left};
use pt_format::{Block, Format, Prot, byte_of, is_whole, page_of, page_under, range_of};
use pt_model::{Census, Dump, ForkAnswer, Listed, MapAnswer, Position, UnmapAnswer};
use pt_num::{Memory, Span};
use std::alloc::Global;
use std::marker::{Model, PhantomData};

/// The most blocks that a dump lists.
const DUMP_LIMIT: usize = 1000;

/// The book of a space that is changed by calls, and the number of levels that the space starts with.
#[derive(Drop)]
pub struct ListBook<F: Format> {
    levels: u32,
    top: u32,
    first: u64,
    count: u64,
    blocks: Vec<Block>,
    tables: Vec<Position>,
    alloc: Global,
    format: PhantomData<F>,
}

impl<F: Format> Model for ListBook<F> {
    ghost use Rattle.std.specs.Prelude.{◌+◌, ◌<◌, ◌≤◌, All};
    ghost use Rattle.pt_model.specs.Layout.{input_pages, IsLegalBlock};
    ghost use Rattle.pt_model.specs.Tables.{starting_top};
    ghost use Rattle.pt_model.specs.Sets.{IsSorted};
    ghost use Rattle.pt_book.specs.Spaces.{Space, IsStart};

    ghost Value = { Space };

    ghost view = { λ b. record {
      levels = b.levels;
      book = record {
        first = b.first;
        count = b.count;
        blocks = b.blocks.items;
        tables = b.tables.items;
        top = b.top;
      };
    } };

    ghost invariant = { λ b. (b.first + b.count ≤ input_pages F.layout)
        × All (IsLegalBlock F.layout) b.blocks.items
        × IsSorted b.tables.items
        × IsStart F.layout b.levels
        × (starting_top b.levels ≤ b.top)
        × (b.top < F.layout.levels) };
}

impl<F: Format> ListBook<F> {
    /// The book of the whole space of a format, which starts with so many levels and maps nothing.
    pub fn new(alloc: Global, levels: u32) -> ListBook<F>
        requires { IsStart F.layout levels }
        ensures levels { result.levels ≡ levels }
        ensures book { result.book ≡ new_book F.layout levels }
    {
        ListBook {
            levels,
            top: levels - 1,
            first: 0,
            count: space_pages::<F>(),
            blocks: Vec::new(alloc),
            tables: Vec::new(alloc),
            alloc,
            format: PhantomData,
        }
    }

    /// What a map of `len` bytes from input address `va` onto those from output address `pa` is answered where
    /// it is refused, other than for want of frames; None where it isn't.
    ///
    /// `Misaligned` where one of the three isn't of whole pages or the length is 0, `Outside` where a byte of
    /// the range has no page of the space, `Output` where the outputs end past the format's output addresses,
    /// `Occupied` with the address of the lowest page of the range that is mapped. The first of these that
    /// holds is the answer.
    pub fn refusal(&self, va: u64, pa: u64, len: u64) -> Option<MapAnswer>
        ensures { result ≡ option_map refused_answer (map_refusal F.layout self.now.book va pa len) }
    {
        if !are_whole::<F>(va, pa, len) {
            return Some(MapAnswer::Misaligned);
        }
        let Some(span) = range_of::<F>(va, len) else {
            return Some(MapAnswer::Outside)
        };
        let last = span.first + span.count;
        if !is_inside(self.first, self.count, span.first, last) {
            return Some(MapAnswer::Outside);
        }
        if is_past_output::<F>(pa, len) {
            return Some(MapAnswer::Output);
        }
        let block = first_met(&self.blocks, span.first, last)?;
        Some(MapAnswer::Occupied {
            address: byte_of::<F>(span.first.max(block.first)),
        })
    }

    /// Whether so many frames are too few for a map of `len` bytes from input address `va` onto those from
    /// output address `pa`: the tables that are linked and those that it needs besides are more.
    pub fn is_short(
        &self,
        frames: u32,
        va: u64,
        pa: u64,
        len: u64,
        prot: Prot,
    ) -> Result<bool, Memory>
        requires allowed { map_refusal F.layout self.now.book va pa len ≡ None }
        ensures { IfOk result (λ short. short ≡ book.is_short F.layout self.now.levels frames self.now.book
            (pages.page_under F.layout va) (len / 2 ^ F.layout.granule) (pa / 2 ^ F.layout.granule) prot) }
    {
        let new = self.new_blocks(va, pa, len, prot)?;
        let needed = all_needed::<F>(self.alloc, self.levels, &new)?;
        let linked = self.linked_count() as u128;
        Ok(u128::from(frames) < linked + self.count_missing(&needed) as u128)
    }

    /// Maps `len` bytes from input address `va` onto those from output address `pa`, by the blocks of the
    /// tiling, with the tables that these need. `Memory` where there is none for the lists, and then nothing
    /// changes.
    pub fn map(&mut self, va: u64, pa: u64, len: u64, prot: Prot) -> Result<(), Memory>
        requires allowed { map_refusal F.layout self.old.book va pa len ≡ None }
        ensures mapped { OnOk result (self.new ≡ with_book self.old (book.mapped F.layout self.old.levels self.old.book
            (pages.page_under F.layout va) (len / 2 ^ F.layout.granule) (pa / 2 ^ F.layout.granule) prot)) }
        ensures same { OnErr result (self.new ≡ self.old) }
    {
        let new = self.new_blocks(va, pa, len, prot)?;
        let tables = tables_after::<F>(self.alloc, self.levels, &self.tables, &new)?;
        let last = page_under::<F>(va) + (len >> F::GRANULE);
        self.blocks = add_blocks(self.alloc, &self.blocks, &new)?;
        self.tables = tables;
        self.top = self.top.max(least_top::<F>(self.levels, last));
        Ok(())
    }

    /// What the taking away of `len` bytes from input address `va` is answered where it is refused; None where
    /// it isn't.
    ///
    /// `Misaligned` where one of the two isn't of whole pages or the length is 0, `Outside` where a byte of the
    /// range has no page of the space, `Cuts` with the lowest block that lies partly in the range. The first of
    /// these that holds is the answer.
    pub fn unmap_refusal(&self, va: u64, len: u64) -> Option<UnmapAnswer>
        ensures answer { result ≡ option_map refused_unmap (unmap_refusal F.layout self.now.book va len) }
        ensures legal { IfSome result (CutsLegalBlock F.layout) }
    {
        if !is_whole::<F>(va) || !is_whole::<F>(len) || len == 0 {
            return Some(UnmapAnswer::Misaligned);
        }
        let Some(span) = range_of::<F>(va, len) else {
            return Some(UnmapAnswer::Outside)
        };
        let last = span.first + span.count;
        if !is_inside(self.first, self.count, span.first, last) {
            return Some(UnmapAnswer::Outside);
        }
        let block = first_cut(&self.blocks, span.first, last)?;
        Some(UnmapAnswer::Cuts { block })
    }

    /// Takes away the blocks and the tables that lie in `len` bytes from input address `va`, and answers how many
    /// pages are no longer mapped. `Memory` where there is none for the lists, and then nothing changes.
    pub fn unmap(&mut self, va: u64, len: u64) -> Result<u128, Memory>
        requires allowed { unmap_refusal F.layout self.old.book va len ≡ None }
        ensures pages { IfOk result (λ gone. gone ≡ pages_gone self.old.book
            (pages.page_under F.layout va) (len / 2 ^ F.layout.granule)) }
        ensures unmapped { OnOk result (self.new ≡ with_book self.old (unmap.unmapped F.layout self.old.book
            (pages.page_under F.layout va) (len / 2 ^ F.layout.granule))) }
        ensures same { OnErr result (self.new ≡ self.old) }
    {
        let first = page_under::<F>(va);
        let last = first + (len >> F::GRANULE);
        let pages = pages_within(&self.blocks, first, last);
        let tables = tables_left::<F>(self.alloc, &self.tables, first, last)?;
        self.blocks = blocks_left(self.alloc, &self.blocks, first, last)?;
        self.tables = tables;
        Ok(pages)
    }

    /// The blocks of a map of `len` bytes from input address `va` onto those from output address `pa`.
    fn new_blocks(&self, va: u64, pa: u64, len: u64, prot: Prot) -> Result<Vec<Block>, Memory>
        requires allowed { map_refusal F.layout self.now.book va pa len ≡ None }
        ensures tiling { IfOk result (λ new. new.items ≡ tiling F.layout prot
            (pages.page_under F.layout va) (pa / 2 ^ F.layout.granule) (len / 2 ^ F.layout.granule)) }
        ensures legal { IfOk result (λ new. All (IsLegalBlock F.layout) new.items) }
        ensures in_order { IfOk result (λ new. AllPairs (λ b c. b.first ≤ c.first) new.items) }
    {
        let span = Span {
            first: page_under::<F>(va),
            count: len >> F::GRANULE,
        };
        tiled::<F>(self.alloc, span, pa >> F::GRANULE, prot)
    }

    /// Whether a table position is linked: there is a table, or it is of the spine.
    fn is_linked(&self, position: Position) -> bool
        ensures { result ≡ book.is_linked self.now.levels self.now.book position }
    {
        is_spine(self.levels, position) && position.level <= self.top
            || is_in(&self.tables, position)
    }

    /// How many table positions are linked.
    fn linked_count(&self) -> usize
        ensures { result ≡ book.linked_count self.now.levels self.now.book }
    {
        self.tables.len() + (self.top + 2 - self.levels) as usize
    }

    /// How many positions of a list aren't linked.
    fn count_missing(&self, needed: &[Position]) -> usize
        ensures { result ≡ length (filter (λ p. not (book.is_linked self.now.levels self.now.book p)) needed.now) }
    {
        let mut missing = 0;
        for position in needed {
            if !self.is_linked(*position) {
                missing += 1;
            }
        }
        missing
    }

    /// The positions of the tables that are not of the spine, in order.
    pub fn tables(&self) -> &[Position]
        ensures { result.now ≡ self.now.book.tables }
    {
        &self.tables
    }

    /// Whether an input address has no page of the space.
    pub fn is_outside(&self, address: u64) -> bool
        ensures { result ≡ book.is_outside F.layout self.now.book address }
    {
        match page_of::<F>(address) {
            None => true,
            Some(page) => !is_inside(self.first, self.count, page, page + 1),
        }
    }

    /// The output address of the byte at an input address, and what is permitted there; None where its
    /// page isn't mapped. Addresses are in bytes.
    pub fn lookup(&self, address: u64) -> Option<(u64, Prot)>
        ensures { result ≡ translation F.layout self.now.book address }
    {
        let page = page_under::<F>(address);
        let block = first_met(&self.blocks, page, page + 1)?;
        let out = output_of::<F>(block, page);
        Some((byte_in::<F>(out, address), block.prot))
    }

    /// What the cutting of the span at an input address, in bytes, is answered where it is refused; None where it
    /// isn't.
    ///
    /// `Misaligned` where the address isn't of whole pages, `Outside` where its page isn't one of the span behind
    /// the first, `Cuts` with the lowest block that begins before the page and ends behind it. The first of these
    /// that holds is the answer.
    pub fn cut_refusal(&self, at: u64) -> Option<ForkAnswer>
        ensures answer { result ≡ option_map refused_fork (cut_refusal F.layout self.now.book at) }
        ensures legal { IfSome result (CrossesLegalBlock F.layout) }
    {
        if !is_whole::<F>(at) {
            return Some(ForkAnswer::Misaligned);
        }
        let Some(page) = page_of::<F>(at) else {
            return Some(ForkAnswer::Outside)
        };
        if !is_between(self.first, self.count, page) {
            return Some(ForkAnswer::Outside);
        }
        let block = first_across(&self.blocks, page)?;
        Some(ForkAnswer::Cuts { block })
    }

    /// The pages that the book is about.
    pub fn span(&self) -> Span
        ensures first { result.first ≡ self.now.book.first }
        ensures count { result.count ≡ self.now.book.count }
    {
        Span {
            first: self.first,
            count: self.count,
        }
    }

    /// Turns the book to the pages from `first` to before `end`. Its blocks and its tables stay, those outside these
    /// pages too.
    pub fn stand_in(&mut self, first: u64, end: u64)
        requires in_order { first ≤ end }
        requires in_space { end ≤ input_pages F.layout }
        ensures { self.new ≡ with_book self.old (spanning self.old.book first end) }
    {
        self.first = first;
        self.count = end - first;
    }

    /// How many blocks lie in the span, and the lowest thousand of them, or all where they are fewer. `Memory` where
    /// there is none for the list.
    pub fn dump(&self, alloc: Global) -> Result<Dump, Memory>
        ensures dumped { IfOk result (λ dump. dump ≡ dumped (blocks_inside self.now.book)) }
        ensures legal { IfOk result (λ dump. All (IsLegalBlock F.layout) dump.lowest) }
        ensures stated { IfOk result (λ dump. All (IsStated F.layout) dump.lowest) }
    {
        let end = self.first + self.count;
        let mut inside = blocks_within(alloc, &self.blocks, self.first, end)?;
        let count = inside.len() as u64;
        inside.truncate(DUMP_LIMIT);
        Ok(Dump {
            count,
            lowest: Listed::of(inside),
        })
    }

    /// The levels of the tree, its linked tables, its blocks, and the pages that these map, in the whole space. None
    /// where the pages are `2^64` or more.
    pub fn census(&self) -> Option<Census>
        ensures { result ≡ (if nat_lt (pages_in self.now.book.blocks) (2 ^ 64)
            then Some (census_of self.now.levels self.now.book) else None) }
    {
        let pages = self.mapped_pages();
        if pages >= 1 << 64 {
            return None;
        }
        Some(Census {
            levels: self.top + 1,
            tables: self.linked_count() as u64,
            blocks: self.blocks.len() as u64,
            pages: pages as u64,
        })
    }

    /// The number of pages of the blocks.
    fn mapped_pages(&self) -> u128
        ensures { result ≡ pages_in self.now.book.blocks }
    {
        pages_within(&self.blocks, 0, space_pages::<F>())
    }

    /// The output address of the byte at an input address, and what is permitted there; None where it has no page
    /// or its page isn't mapped, whatever the span is. Addresses are in bytes.
    pub fn walk(&self, address: u64) -> Option<(u64, Prot)>
        ensures { result ≡ walk_answer F.layout self.now.book address }
    {
        match page_of::<F>(address) {
            None => None,
            Some(_) => self.lookup(address),
        }
    }
}

/// The pages of the space of a format.
fn space_pages<F: Format>() -> u64
    ensures { result ≡ input_pages F.layout }
{
    1 << (F::INPUT - F::GRANULE)
}

/// Whether two addresses and a length are of whole pages, and the length isn't 0.
fn are_whole<F: Format>(va: u64, pa: u64, len: u64) -> bool
    ensures { result ≡ ((pages.is_whole F.layout va && pages.is_whole F.layout pa) && (pages.is_whole F.layout len && nat_lt 0 len)) }
{
    is_whole::<F>(va) && is_whole::<F>(pa) && is_whole::<F>(len) && len > 0
}

/// Whether the bytes from an output address end past the output addresses of the format.
fn is_past_output<F: Format>(pa: u64, len: u64) -> bool
    ensures { result ≡ nat_lt (2 ^ F.layout.output) (pa + len) }
{
    u128::from(pa) + u128::from(len) > 1 << F::OUTPUT
}

/// Whether the pages from `from` to before `last` are of the `count` pages from page `first`.
fn is_inside(first: u64, count: u64, from: u64, last: u64) -> bool
    requires { first + count < 2 ^ 64 }
    ensures { result ≡ (nat_le first from && nat_le last (first + count)) }
{
    first <= from && last <= first + count
}

/// Whether a page is one of the `count` pages from page `first`, and not the first of them.
fn is_between(first: u64, count: u64, page: u64) -> bool
    requires { first + count < 2 ^ 64 }
    ensures { result ≡ (nat_lt first page && nat_lt page (first + count)) }
{
    first < page && page < first + count
}

/// The output page of a page of a block.
fn output_of<F: Format>(block: Block, page: u64) -> u64
    requires legal { IsLegalBlock F.layout block }
    requires of { IsTrue (book.meets page (page + 1) block) }
    ensures page { result ≡ block.out + (page - block.first) }
    ensures within { result < output_pages F.layout }
{
    block.out + (page - block.first)
}

/// The output address on a page at which an input address lies in its own page.
fn byte_in<F: Format>(out: u64, address: u64) -> u64
    requires { out < output_pages F.layout }
    ensures { result ≡ out * 2 ^ F.layout.granule + address % 2 ^ F.layout.granule }
{
    (out << F::GRANULE) + address % (1 << F::GRANULE)
}
