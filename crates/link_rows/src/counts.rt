//! Counters of links.

ghost use Rattle.std.specs.Prelude.{◌≡◌, ◌+◌, ◌<◌, ◌≤◌, ℕ};
ghost use Rattle.link_rows.specs.Counts.{one_is_cheap, none_is_cheap};

use std::marker::Model;
use std::sync::ledger::{Blank, Book, Ledger, Share};

/// A counter of links. Each link that is read raises it by one where links are counted, and leaves
/// it where they are not.
pub trait LinkCount {
    ghost count: { Self → ℕ };

    // By how much a link raises the count.
    ghost price: { ℕ };

    /// One more link.
    fn tick(&mut self)
        ensures { count self.new ≡ count self.old + price };

    ghost cheap: { price ≤ 1 };
}

/// How many links were read. It takes no bytes.
#[derive(Drop)]
pub struct Steps<L: Ledger> {
    book: Book<L>,
    share: Share<L>,
}

impl<L: Ledger> Model for Steps<L> {
    ghost use Rattle.std.specs.Prelude.{ℕ, ◌<◌};

    ghost Value = { ℕ };

    ghost view = { λ s. s.book.total };

    ghost invariant = { λ s. 0 < s.share.parts };
}

impl<L: Ledger> Steps<L> {
    /// No link so far.
    pub fn new(blank: Blank) -> Steps<L>
        requires name { blank.name ≡ L.name }
        requires parts { blank.parts ≡ L.parts }
        requires some { 0 < L.parts }
        ensures { result ≡ 0 }
    {
        let (book, share) = blank.open();
        Steps { book, share }
    }
}

impl<L: Ledger> LinkCount for Steps<L> {
    ghost count = { λ s. s };

    ghost price = { 1 };

    fn tick(&mut self) {
        self.book.add(&mut self.share, 1);
    }

    ghost cheap = { one_is_cheap };
}

/// No count: links are read, and how many is not told.
#[derive(Clone, Copy, Drop)]
pub struct Uncounted;

impl LinkCount for Uncounted {
    ghost count = { λ _. 0 };

    ghost price = { 0 };

    fn tick(&mut self) {}

    ghost cheap = { none_is_cheap };
}
