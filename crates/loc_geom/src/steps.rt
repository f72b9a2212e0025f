// The counter of steps, and the tests that it counts.

ghost use Rattle.std.specs.Prelude.{◌≡◌, ℕ, ◌+◌, ◌<◌, IsTrue};
ghost use Rattle.std.specs.Ordering.{MatchOrdering};
ghost use Rattle.loc_spec_plane.specs.Points.{before};
ghost use Rattle.loc_geom.specs.Answers.{IsSide};

use crate::laws::point_order;
use crate::{Edge, Point, Side, side};
use std::cmp::Ordering;
use std::marker::Model;
use std::sync::ledger::{Blank, Book, Ledger, Share};

/// How many steps a search took, seen as one whole number. It has no bytes at run time. Only its two tests raise it, each by
/// one. `L` names the count.
#[derive(Drop)]
pub struct Steps<L: Ledger> {
    book: Book<L>,
    share: Share<L>,
}

impl<L: Ledger> Model for Steps<L> {
    ghost Value = { ℕ };

    ghost view = { λ s. s.book.total };

    ghost invariant = { λ s. 0 < s.share.parts };
}

impl<L: Ledger> Steps<L> {
    /// A counter that has counted nothing, from a blank for its name.
    pub fn new(blank: Blank) -> Steps<L>
        requires name { blank.name ≡ L.name }
        requires parts { blank.parts ≡ L.parts }
        requires some { 0 < L.parts }
        ensures { result ≡ 0 }
    {
        let (book, share) = blank.open::<L>();
        Steps { book, share }
    }

    // Counts one step.
    fn tick(&mut self)
        ensures { self.new ≡ self.old + 1 }
    {
        self.book.add(&mut self.share, 1);
    }

    /// The side of p against the line through an edge. It counts one step.
    pub fn side(&mut self, edge: Edge, p: Point) -> Side
        ensures value { IsSide edge p result }
        ensures counted { self.new ≡ self.old + 1 }
    {
        self.tick();
        side(edge, p)
    }

    /// How p stands to q in the order of points. It counts one step.
    pub fn compare(&mut self, p: Point, q: Point) -> Ordering
        ensures value { MatchOrdering result (IsTrue (before p q)) (p ≡ q) (IsTrue (before q p)) }
        ensures counted { self.new ≡ self.old + 1 }
    {
        self.tick();
        point_order(p, q)
    }
}
