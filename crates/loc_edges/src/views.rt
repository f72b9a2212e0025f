// What an index sees of a table while it is asked for a point: points against edges and corners, each test counted, and no coordinates.

ghost use Rattle.std.specs.Prelude.{◌≡◌, ◌+◌, ◌<◌, ◌≤◌, ◌==◌, IsTrue, filter, length};
ghost use Rattle.std.specs.Ordering.{MatchOrdering};
ghost use Rattle.loc_spec_text.specs.Limits.{most_pieces, most_points};
ghost use Rattle.loc_spec_plane.specs.Points.{before, same_point};
ghost use Rattle.loc_spec_plane.specs.Places.{lower_of};
ghost use Rattle.loc_spec_plane.specs.Tables.{IsTable, corner as corner_of, edge as edge_of, lo_of, hi_of, edge_numbers};
ghost use Rattle.loc_geom.specs.Answers.{IsSide};
ghost use Rattle.loc_edges.specs.Ending.{IsBeginning};
ghost use Rattle.loc_edges.specs.Small.{IsSmallTable};

use crate::table::EdgeTable;
use loc_geom::{Point, Side, Steps, lower};
use std::cmp::Ordering;
use std::marker::{Model, PhantomData};
use std::sync::ledger::Ledger;

/// A table shut off from its coordinates: a point is tested against an edge or a corner by number, and each test counts one step of the
/// count `L`, and of no other.
#[derive(Drop)]
pub struct Views<'t, L: Ledger> {
    table: &'t EdgeTable,
    count: PhantomData<L>,
}

impl<'t, L: Ledger> Model for Views<'t, L> {
    ghost use Rattle.loc_spec_plane.specs.Tables.{Table};

    ghost Value = { Table };

    ghost view = { λ v. v.table.now };
}

impl EdgeTable {
    /// The table without its coordinates, for one count of steps.
    pub fn views<L: Ledger>(&self) -> Views<'_, L>
        ensures { result ≡ self.now }
    {
        Views {
            table: self,
            count: PhantomData,
        }
    }
}

impl<'t, L: Ledger> Views<'t, L> {
    /// What is true of every table, as a call that does no work: its rows stand in order, and it has few corners and edges.
    pub fn law(&self)
        ensures in_order { IsTable self.now }
        ensures small { IsSmallTable self.now }
    {
        self.table.law();
    }

    /// How many corners there are.
    pub fn corner_count(&self) -> u32
        ensures value { result ≡ length self.now.corners }
        ensures within { result ≤ most_points }
    {
        self.table.corner_count()
    }

    /// How many edges there are.
    pub fn edge_count(&self) -> u32
        ensures value { result ≡ length self.now.ends }
        ensures within { result ≤ most_pieces }
    {
        self.table.edge_count()
    }

    /// The side of p against the line through an edge. It counts one step.
    pub fn side(&self, edge: u32, p: Point, steps: &mut Steps<L>) -> Side
        requires in_range { edge < length self.now.ends }
        ensures value { IsSide (edge_of self.now edge) p result }
        ensures counted { steps.new ≡ steps.old + 1 }
    {
        steps.side(self.table.edge(edge), p)
    }

    /// How a corner stands to p in the order of points. It counts one step.
    pub fn compare(&self, corner: u32, p: Point, steps: &mut Steps<L>) -> Ordering
        requires in_range { corner < length self.now.corners }
        ensures value { MatchOrdering result (IsTrue (before (corner_of self.now corner) p)) (IsTrue (same_point (corner_of self.now corner) p)) (IsTrue (before p (corner_of self.now corner))) }
        ensures counted { steps.new ≡ steps.old + 1 }
    {
        steps.compare(self.table.corner(corner), p)
    }

    /// Whether edge a is lower than edge b. It says which edge is lower where both are alive at one point and do not conflict.
    pub fn lower(&self, a: u32, b: u32) -> bool
        requires first_in_range { a < length self.now.ends }
        requires second_in_range { b < length self.now.ends }
        ensures { result ≡ lower_of self.now a b }
    {
        lower(self.table.edge(a), self.table.edge(b))
    }

    /// The numbers of the lower and of the upper end of an edge.
    pub fn ends(&self, edge: u32) -> (u32, u32)
        requires in_range { edge < length self.now.ends }
        ensures lower { result.0 ≡ lo_of self.now edge }
        ensures upper { result.1 ≡ hi_of self.now edge }
        ensures goes_up { result.0 < result.1 }
        ensures within { result.1 < length self.now.corners }
    {
        self.table.ends(edge)
    }

    /// The edges whose lower end is the corner: from the first number on and before the second.
    pub fn beginning(&self, corner: u32) -> (u32, u32)
        requires { corner < length self.now.corners }
        ensures { IsBeginning self.now corner result.0 result.1 }
    {
        self.table.beginning(corner)
    }

    /// The edges whose upper end is the corner, in order.
    pub fn ending(&self, corner: u32) -> &[u32]
        requires { corner < length self.now.corners }
        ensures { result.now ≡ filter (λ e. hi_of self.now e == corner) (edge_numbers self.now) }
    {
        self.table.ending(corner)
    }
}
