// The table of a layer: its corners, its edges and their marks, by number.

ghost use Rattle.std.specs.Prelude.{◌≡◌, ℕ, ◌<◌, ◌≤◌, ◌^◌, ◌==◌, [], List, IsTrue, Some, All, filter, get_or, length, slice_get, IfOk};
ghost use Rattle.std.specs.Option.{option_map_or};
ghost use Rattle.loc_spec_text.specs.Limits.{most_pieces, most_points};
ghost use Rattle.loc_spec_plane.specs.Lists.{is_rising};
ghost use Rattle.loc_spec_plane.specs.Points.{Point as PointOf, Edge as EdgeOf, before};
ghost use Rattle.loc_spec_plane.specs.Covers.{feature_count};
ghost use Rattle.loc_spec_plane.specs.Rings.{Rings, touches, covers};
ghost use Rattle.loc_spec_plane.specs.Tables.{IsTable, AllEnds, AllEven, table_by, table_of, corner as corner_of, edge as edge_of, lo_of, hi_of, source_of, edge_numbers, mark_before, pair_before, touches_by_marks, covers_by_marks};
ghost use Rattle.loc_edges.specs.Ending.{IsBeginning};
ghost use Rattle.loc_edges.specs.Kept.{AreEdges};
ghost use Rattle.loc_edges.specs.Layers.{AreOfLayer, layer_rings};
ghost use Rattle.loc_edges.specs.Parts.{GoesUpBelow, edge_mark_before, table_of_parts, table_with};
ghost use Rattle.loc_edges.specs.Small.{IsSmallTable};
ghost use Rattle.loc_edges.specs.Tagged.{marks_in};

use crate::grouped::distinct_edges;
use crate::marks::edge_marks;
use crate::numbers::{edges_between, numbered_ends};
use crate::ranges::{ending_rows, first_edges};
use crate::rows::Rows;
use crate::sorted::sorted_segments;
use crate::tables::corners_between;
use loc_geom::{Edge, Point};
use loc_rings::Layer;
use loc_spec_plane::Mark;
use std::alloc::{AllocError, Global};
use std::marker::Model;

/// The table of a layer: its corners in order, its edges as pairs of corner numbers in order, and for each edge its marks in the order of
/// the features, and its source. In a table that is made of a layer the source is the least segment of which the edge is a piece.
#[derive(Drop)]
pub struct EdgeTable {
    corners: Vec<Point>,
    edges: Vec<Edge>,
    ends: Vec<(u32, u32)>,
    marks: Rows<Mark>,
    // None where each edge is its own source.
    sources: Option<Vec<(u32, u32)>>,
    firsts: Vec<u32>,
    ending: Rows<u32>,
}

impl Model for EdgeTable {
    ghost use Rattle.std.specs.Option.{option_map_or};
    ghost use Rattle.loc_spec_plane.specs.Tables.{Table};
    ghost use Rattle.loc_edges.specs.Kept.{IsKept};

    ghost Value = { Table };

    ghost view = { λ t. record { corners = t.corners.items; ends = t.ends.items; marks = t.marks; sources = option_map_or (λ kept. kept.items) t.sources t.ends.items } };

    ghost invariant = { λ t. IsKept t.edges.items t.firsts.items t.ending (record { corners = t.corners.items; ends = t.ends.items; marks = t.marks; sources = option_map_or (λ kept. kept.items) t.sources t.ends.items }) };
}

impl EdgeTable {
    /// The table of a layer. Every corner is an end of an edge, every feature has an even number of odd marks at each corner, and it touches
    /// and covers by its marks what it touches and covers by its rings. It takes time in the order of n log n for n written points.
    pub fn make(alloc: Global, layer: &Layer) -> Result<EdgeTable, AllocError>
        ensures ok { IfOk result (λ table. table ≡ table_of (layer_rings layer.now)) }
        ensures in_order { IfOk result IsTable }
        ensures all_ends { IfOk result AllEnds }
        ensures all_even { IfOk result AllEven }
        ensures features { IfOk result (λ table. feature_count table ≤ length layer.now) }
        ensures touching { IfOk result (λ table. (f : ℕ) (p : PointOf) → touches_by_marks table f p ≡ touches (get_or (layer_rings layer.now) f []) p) }
        ensures covering { IfOk result (λ table. (f : ℕ) (p : PointOf) → covers_by_marks table f p ≡ covers (get_or (layer_rings layer.now) f []) p) }
    {
        let features = layer.features();
        let tagged = sorted_segments(alloc, features)?;
        let edges = distinct_edges(alloc, &tagged)?;
        // the segments are let go before anything else is made
        let marks = edge_marks(alloc, tagged)?;
        let corners = corners_between(alloc, &edges)?;
        let ends = numbered_ends(alloc, &corners, &edges)?;
        EdgeTable::of_marks(alloc, corners, edges, ends, None, marks)
    }

    /// The table of a layer whose segments are cut, from its corners, its edges, their ends and their sources by corner numbers, and the pieces in
    /// order, each with the number of its feature.
    pub fn of_tagged(
        alloc: Global,
        corners: Vec<Point>,
        edges: Vec<Edge>,
        ends: Vec<(u32, u32)>,
        sources: Vec<(u32, u32)>,
        tagged: Vec<(Edge, usize)>,
    ) -> Result<EdgeTable, AllocError>
        requires of_layer { (cut : EdgeOf → List EdgeOf) × ((layer : List Rings) × AreOfLayer cut layer corners.items edges.items ends.items sources.items tagged.items) }
        requires few_corners { length corners.items ≤ most_points }
        requires few_edges { length edges.items ≤ most_pieces }
        requires few_features { All (λ (t : EdgeOf × ℕ). t.1 < 2 ^ 20) tagged.items }
        ensures { IfOk result (λ table. (cut : EdgeOf → List EdgeOf) (layer : List Rings) → AreOfLayer cut layer corners.items edges.items ends.items sources.items tagged.items → table ≡ table_by cut layer) }
    {
        let marks = edge_marks(alloc, tagged)?;
        EdgeTable::of_marks(alloc, corners, edges, ends, Some(sources), marks)
    }

    // The same from the marks that these pieces leave, and from the sources, where they are not the edges themselves.
    fn of_marks(
        alloc: Global,
        corners: Vec<Point>,
        edges: Vec<Edge>,
        ends: Vec<(u32, u32)>,
        sources: Option<Vec<(u32, u32)>>,
        marks: Rows<Mark>,
    ) -> Result<EdgeTable, AllocError>
        requires of_layer { (cut : EdgeOf → List EdgeOf) × ((layer : List Rings) × ((tagged : List (EdgeOf × ℕ)) × (AreOfLayer cut layer corners.items edges.items ends.items (option_map_or (λ kept. kept.items) sources ends.items) tagged × (marks ≡ marks_in tagged)))) }
        requires few_corners { length corners.items ≤ most_points }
        requires few_edges { length edges.items ≤ most_pieces }
        ensures { IfOk result (λ table. (cut : EdgeOf → List EdgeOf) (layer : List Rings) (tagged : List (EdgeOf × ℕ)) → AreOfLayer cut layer corners.items edges.items ends.items (option_map_or (λ kept. kept.items) sources ends.items) tagged → marks ≡ marks_in tagged → table ≡ table_by cut layer) }
    {
        EdgeTable::assemble(alloc, corners, edges, ends, marks, sources)
    }

    /// The table with these corners, these pairs of corner numbers as edges, these marks, each behind the number of its edge, and these sources.
    pub fn of_parts(
        alloc: Global,
        corners: Vec<Point>,
        ends: Vec<(u32, u32)>,
        marks: Vec<(u32, Mark)>,
        sources: Vec<(u32, u32)>,
    ) -> Result<EdgeTable, AllocError>
        requires corners_rise { IsTrue (is_rising before corners.items) }
        requires few_corners { length corners.items ≤ most_points }
        requires edges_rise { IsTrue (is_rising pair_before ends.items) }
        requires edges_go_up { All (GoesUpBelow (length corners.items)) ends.items }
        requires few_edges { length ends.items ≤ most_pieces }
        requires marks_rise { IsTrue (is_rising edge_mark_before marks.items) }
        requires marks_on_edges { All (λ mark. mark.0 < length ends.items) marks.items }
        requires sources_fit { length sources.items ≡ length ends.items }
        requires sources_go_up { All (GoesUpBelow (length corners.items)) sources.items }
        ensures table { IfOk result (λ table. table ≡ table_of_parts corners.items ends.items marks.items sources.items) }
        ensures features { IfOk result (λ table. (most : ℕ) → All (λ mark. mark.1.feature < most) marks.items → feature_count table ≤ most) }
    {
        let edges = edges_between(alloc, &corners, &ends)?;
        let rows = Rows::by_key(alloc, &marks, ends.len())?;
        EdgeTable::assemble(alloc, corners, edges, ends, rows, Some(sources))
    }

    // The table of these rows, with what begins and what ends at each corner.
    fn assemble(
        alloc: Global,
        corners: Vec<Point>,
        edges: Vec<Edge>,
        ends: Vec<(u32, u32)>,
        marks: Rows<Mark>,
        sources: Option<Vec<(u32, u32)>>,
    ) -> Result<EdgeTable, AllocError>
        requires in_order { IsTable (table_with corners.items ends.items marks (option_map_or (λ kept. kept.items) sources ends.items)) }
        requires small { IsSmallTable (table_with corners.items ends.items marks (option_map_or (λ kept. kept.items) sources ends.items)) }
        requires edges { AreEdges (table_with corners.items ends.items marks (option_map_or (λ kept. kept.items) sources ends.items)) edges.items }
        ensures { IfOk result (λ table. table ≡ table_with corners.items ends.items marks (option_map_or (λ kept. kept.items) sources ends.items)) }
    {
        let count = corners.len() as u32;
        let firsts = first_edges(alloc, &ends, count)?;
        let ending = ending_rows(alloc, &ends, count)?;
        Ok(EdgeTable {
            corners,
            edges,
            ends,
            marks,
            sources,
            firsts,
            ending,
        })
    }

    /// What is true of every table, as a call that does no work: its rows stand in order, and it has few corners and edges.
    pub fn law(&self)
        ensures in_order { IsTable self.now }
        ensures small { IsSmallTable self.now }
    {
        let _corners = &self.corners;
    }

    /// How many corners there are.
    pub fn corner_count(&self) -> u32
        ensures value { result ≡ length self.now.corners }
        ensures within { result ≤ most_points }
    {
        self.corners.len() as u32
    }

    /// How many edges there are.
    pub fn edge_count(&self) -> u32
        ensures value { result ≡ length self.now.ends }
        ensures within { result ≤ most_pieces }
    {
        self.ends.len() as u32
    }

    /// Corner n.
    pub fn corner(&self, n: u32) -> Point
        requires { n < length self.now.corners }
        ensures { result ≡ corner_of self.now n }
    {
        self.corners[n as usize]
    }

    /// Edge n by its points.
    pub fn edge(&self, n: u32) -> Edge
        requires { n < length self.now.ends }
        ensures { result ≡ edge_of self.now n }
    {
        self.edges[n as usize]
    }

    /// The numbers of the lower and of the upper end of edge n.
    pub fn ends(&self, n: u32) -> (u32, u32)
        requires { n < length self.now.ends }
        ensures lower { result.0 ≡ lo_of self.now n }
        ensures upper { result.1 ≡ hi_of self.now n }
        ensures goes_up { result.0 < result.1 }
        ensures in_range { result.1 < length self.now.corners }
    {
        self.ends[n as usize]
    }

    /// The marks of edge n, in the order of the features.
    pub fn marks(&self, n: u32) -> &[Mark]
        requires { n < length self.now.ends }
        ensures value { slice_get self.now.marks n ≡ Some result.now }
        ensures in_order { IsTrue (is_rising mark_before result.now) }
    {
        self.marks.row(n as usize)
    }

    /// The numbers of the ends of the source of edge n.
    pub fn source(&self, n: u32) -> (u32, u32)
        requires { n < length self.now.ends }
        ensures value { result ≡ source_of self.now n }
        ensures goes_up { result.0 < result.1 }
        ensures in_range { result.1 < length self.now.corners }
    {
        match &self.sources {
            Some(sources) => sources[n as usize],
            None => self.ends[n as usize],
        }
    }

    /// The edges whose lower end is the corner: from the first number on and before the second.
    pub fn beginning(&self, corner: u32) -> (u32, u32)
        requires { corner < length self.now.corners }
        ensures { IsBeginning self.now corner result.0 result.1 }
    {
        let at = corner as usize;
        (self.firsts[at], self.firsts[at + 1])
    }

    /// The edges whose upper end is the corner, in order.
    pub fn ending(&self, corner: u32) -> &[u32]
        requires { corner < length self.now.corners }
        ensures { result.now ≡ filter (λ e. hi_of self.now e == corner) (edge_numbers self.now) }
    {
        self.ending.row(corner as usize)
    }
}
