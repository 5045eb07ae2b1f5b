//! One owner of a whole space in a span of it.

ghost use Rattle.std.specs.Prelude.{◌≡◌, ◌<◌, [], All, IfOk, IsTrue};
ghost use Rattle.pt_model.specs.declared.command.What.TheVariants as what;
ghost use Rattle.pt_model.specs.declared.reply.Answer.TheVariants as answer;
ghost use Rattle.pt_reply.specs.Running.{IsReady, book_in, machine_in};
ghost use Rattle.pt_reply.specs.Telling.{has_small_blocks, IsListable};
ghost use Rattle.pt_forks.specs.Places.{StaysIn};
ghost use Rattle.pt_narrow.specs.Standing.{Answers, place_of};

use arrayvec::ArrayVec;
use pt_format::{Format, Span};
use pt_model::Dump;
use pt_num::Memory;
use pt_plain::Plain;
use pt_reply::dump;
use pt_view::Holder;
use std::alloc::Global;
use std::marker::Model;

/// A span that was cut: `count` pages from page `first`, in two before page `at`.
#[derive(Clone, Copy, Debug, Default, PartialEq, Eq)]
pub struct Narrowing {
    pub(crate) first: u64,
    pub(crate) count: u64,
    pub(crate) at: u64,
}

/// One owner of a whole space, who stands in a span of it. Contracts see the owner, the span in pages, and the cuts in
/// whose parts it stands.
#[derive(Drop)]
pub struct Narrowed<F: Format> {
    pub(crate) plain: Plain<F>,
    pub(crate) first: u64,
    pub(crate) count: u64,
    pub(crate) cuts: ArrayVec<Narrowing, 16>,
}

impl<F: Format> Model for Narrowed<F> {
    ghost use Rattle.pt_narrow.specs.Standing.{Stand, IsStanding, stand_of};

    ghost Value = { Stand };

    ghost view = { λ n. stand_of n.plain n.first n.count n.cuts.items };

    ghost invariant = { λ n. IsStanding F.layout (stand_of n.plain n.first n.count n.cuts.items) };
}

impl<F: Format> Narrowed<F> {
    /// An owner at rest, in its whole space.
    pub fn new(plain: Plain<F>) -> Narrowed<F>
        requires small { IsTrue (has_small_blocks F.layout) }
        requires ready { IsReady F.layout plain.view }
        requires aside { plain.aside.positions ≡ [] }
        ensures owned { result.owned ≡ plain }
        ensures machine { (place_of F.layout result).machine ≡ machine_in F.layout plain.view }
        ensures book { (place_of F.layout result).book ≡ book_in plain.view }
        ensures uncut { result.cuts ≡ [] }
    {
        let span = plain.range();
        Narrowed {
            plain,
            first: span.first,
            count: span.count,
            cuts: ArrayVec::new(),
        }
    }

    /// The owner at rest, where it stands in no cut.
    pub fn into_plain(self) -> Plain<F>
        requires uncut { self.cuts ≡ [] }
        ensures owned { result ≡ self.owned }
        ensures ready { IsReady F.layout result.view }
        ensures aside { result.aside.positions ≡ [] }
        ensures machine { machine_in F.layout result.view ≡ (place_of F.layout self).machine }
        ensures book { book_in result.view ≡ (place_of F.layout self).book }
    {
        let Narrowed {
            plain,
            first: _,
            count: _,
            cuts: _,
        } = self;
        plain
    }

    /// Dumps the present span.
    pub(crate) fn dump(&mut self, alloc: Global) -> Result<Dump, Memory>
        ensures stays { StaysIn (place_of F.layout self.old) (place_of F.layout self.new) }
        ensures dumps { IfOk result (λ d. Answers (place_of F.layout self.old) (place_of F.layout self.new) what.Dump (answer.Dump d)) }
        ensures listable { IfOk result (λ dump. All (IsListable F.layout) dump.lowest) }
    {
        // that the book at rest is lawful is what says that no block crosses the span's ends
        let _whole = self.plain.range();
        let span = Span {
            first: self.first,
            count: self.count,
        };
        dump::<F, Plain<F>>(alloc, &mut self.plain, span)
    }
}
