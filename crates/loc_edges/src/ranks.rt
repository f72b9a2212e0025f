// What an index sees of a table while it is built: edges against edges and corners, by number, without points to look for and without a
// count.

ghost use Rattle.std.specs.Prelude.{◌≡◌, ◌≢◌, ◌<◌, ◌==◌, if◌then◌else◌, IsTrue, length};
ghost use Rattle.loc_spec_plane.specs.Points.{is_above, same_point, touch};
ghost use Rattle.loc_spec_plane.specs.Places.{alive_at, lower as lower_edge, lower_of};
ghost use Rattle.loc_spec_plane.specs.Tables.{IsTable, corner as corner_of, edge as edge_of, lo_of, hi_of};
ghost use Rattle.loc_geom.specs.Answers.{IsSide};
ghost use Rattle.loc_edges.specs.Placing.{deciding_end, IsPlacing, OnHits};
ghost use Rattle.loc_edges.specs.Small.{IsSmallTable};

use crate::table::EdgeTable;
use loc_geom::{Edge, Point, Side, lower, side};
use std::marker::Model;

/// How an edge stands to another that the sweep line meets where the edge begins: it goes below or above it, or hits it.
#[derive(Clone, Copy, Drop)]
pub enum Placing {
    Below,
    Above,
    Hits,
}

/// A table shut off from its coordinates, edge against edge.
#[derive(Drop)]
pub struct Ranks<'t> {
    table: &'t EdgeTable,
}

impl<'t> Model for Ranks<'t> {
    ghost use Rattle.loc_spec_plane.specs.Tables.{Table};

    ghost Value = { Table };

    ghost view = { λ r. r.table.now };
}

impl EdgeTable {
    /// The table, edge against edge.
    pub fn ranks(&self) -> Ranks<'_>
        ensures { result ≡ self.now }
    {
        Ranks { table: self }
    }
}

// The end of b whose side decides how it stands to a: its lower end, or its upper end where both begin at one point.
fn end_to_place(a: Edge, b: Edge) -> Point
    ensures { result ≡ deciding_end a b }
{
    if a.lo() == b.lo() { b.hi() } else { b.lo() }
}

// Whether a point is above the line through an edge.
fn has_above(edge: Edge, p: Point) -> bool
    ensures { result ≡ is_above edge p }
{
    match side(edge, p) {
        Side::Below | Side::On => false,
        Side::Above => true,
    }
}

// Whether edge b begins above edge a, by the side of the end that decides.
fn begins_above(a: Edge, b: Edge) -> bool
    ensures { result ≡ is_above a (deciding_end a b) }
{
    has_above(a, end_to_place(a, b))
}

// Whether edge b ends above edge a: by the side of its upper end, or where both end at one point by which of them is lower.
fn ends_above(a: Edge, b: Edge) -> bool
    ensures { result ≡ (if same_point b.hi a.hi then lower_edge a b else is_above a b.hi) }
{
    if b.hi() == a.hi() {
        lower(a, b)
    } else {
        has_above(a, b.hi())
    }
}

impl<'t> Ranks<'t> {
    /// What is true of every table, as a call that does no work: its rows stand in order, and it has few corners and edges.
    pub fn law(&self)
        ensures in_order { IsTable self.now }
        ensures small { IsSmallTable self.now }
    {
        self.table.law();
    }

    /// How edge b stands to edge a: it hits a where it begins on a and not at an end of it, or where both begin at one corner in one
    /// direction. Else it is below or above a, by the side of its lower end, or where both begin at one corner by that of its upper end.
    pub fn placing(&self, a: u32, b: u32) -> Placing
        requires different { a ≢ b }
        requires first_alive { IsTrue (alive_at self.now (edge_of self.now b).lo a) }
        requires second_in_range { b < length self.now.ends }
        ensures value { IsPlacing (edge_of self.now a) (edge_of self.now b) result }
        ensures touching { OnHits result (IsTrue (touch (edge_of self.now a) (edge_of self.now b))) }
    {
        self.law();
        let first = self.table.edge(a);
        let second = self.table.edge(b);
        match side(first, end_to_place(first, second)) {
            Side::Below => Placing::Below,
            Side::On => Placing::Hits,
            Side::Above => Placing::Above,
        }
    }

    /// Whether edge a is lower than edge b. It says which edge is lower where both are alive at one point and do not conflict.
    pub fn lower(&self, a: u32, b: u32) -> bool
        requires first_in_range { a < length self.now.ends }
        requires second_in_range { b < length self.now.ends }
        ensures { result ≡ lower_of self.now a b }
    {
        lower(self.table.edge(a), self.table.edge(b))
    }

    /// Whether edge b begins above edge a: by the side of its lower end, or where both begin at one corner by that of its upper end.
    pub fn begins_above(&self, a: u32, b: u32) -> bool
        requires first_in_range { a < length self.now.ends }
        requires second_in_range { b < length self.now.ends }
        ensures { result ≡ is_above (edge_of self.now a) (deciding_end (edge_of self.now a) (edge_of self.now b)) }
    {
        begins_above(self.table.edge(a), self.table.edge(b))
    }

    /// Whether edge b ends above edge a: by the side of its upper end, or where both end at one corner by which of them is lower.
    pub fn ends_above(&self, a: u32, b: u32) -> bool
        requires first_in_range { a < length self.now.ends }
        requires second_in_range { b < length self.now.ends }
        ensures { result ≡ (if hi_of self.now a == hi_of self.now b then lower_of self.now a b else is_above (edge_of self.now a) (edge_of self.now b).hi) }
    {
        self.law();
        ends_above(self.table.edge(a), self.table.edge(b))
    }

    /// The side of a corner against the line through an edge.
    pub fn side(&self, edge: u32, corner: u32) -> Side
        requires edge_in_range { edge < length self.now.ends }
        requires corner_in_range { corner < length self.now.corners }
        ensures { IsSide (edge_of self.now edge) (corner_of self.now corner) result }
    {
        side(self.table.edge(edge), self.table.corner(corner))
    }

    /// The numbers of the lower and of the upper end of an edge.
    pub fn ends(&self, edge: u32) -> (u32, u32)
        requires in_range { edge < length self.now.ends }
        ensures lower { result.0 ≡ lo_of self.now edge }
        ensures upper { result.1 ≡ hi_of self.now edge }
        ensures goes_up { result.0 < result.1 }
        ensures within { result.1 < length self.now.corners }
    {
        self.table.ends(edge)
    }
}
