// The table of the edges that a group keeps.

ghost use Rattle.std.specs.Prelude.{◌≡◌, ◌<◌, ◌≤◌, ℕ, All, IsTrue, length, map, true, IfOk};
ghost use Rattle.loc_spec_text.specs.Limits.{most_points};
ghost use Rattle.loc_spec_plane.specs.Points.{Edge as EdgeOf, before};
ghost use Rattle.loc_spec_plane.specs.Lists.{is_rising, numbers};
ghost use Rattle.loc_spec_plane.specs.Tables.{AllEnds, AllEven, NoConflict, edge as edge_of, number_of};
ghost use Rattle.loc_spec_groups.specs.Groups.{group_table as group_table_of, kept_edges};
ghost use Rattle.loc_dissolve.specs.Grouping.{in_group};

use loc_edges::{EdgeTable, Mark, corners_between};
use loc_geom::{Edge, Point};
use std::alloc::{AllocError, Global};

// The edges by their points.
fn edges_by_points(alloc: Global, table: &EdgeTable, kept: &[u32]) -> Result<Vec<Edge>, AllocError>
    requires { All (λ e. e < length table.now.ends) kept.now }
    ensures { IfOk result (λ edges. edges.items ≡ map (edge_of table.now) kept.now) }
{
    let mut edges = Vec::with_capacity(alloc, kept.len())?;
    for edge in kept {
        edges.push(table.edge(*edge))?;
    }
    Ok(edges)
}

// The place of a point among corners in order, 0 where it is none of them.
fn corner_number(corners: &[Point], p: Point) -> u32
    requires in_order { IsTrue (is_rising before corners.now) }
    requires few { length corners.now ≤ most_points }
    ensures { result ≡ number_of corners.now p }
{
    match corners.binary_search(&p) {
        Ok(n) => n as u32,
        Err(_) => 0,
    }
}

// The ends of each edge, by their places among the corners.
fn numbered_ends(
    alloc: Global,
    corners: &[Point],
    edges: &[Edge],
) -> Result<Vec<(u32, u32)>, AllocError>
    requires in_order { IsTrue (is_rising before corners.now) }
    requires few { length corners.now ≤ most_points }
    ensures { IfOk result (λ ends. ends.items ≡ map (λ (e : EdgeOf). (number_of corners.now e.lo, number_of corners.now e.hi)) edges.now) }
{
    let mut ends = Vec::with_capacity(alloc, edges.len())?;
    for edge in edges {
        let lo = corner_number(corners, edge.lo());
        let hi = corner_number(corners, edge.hi());
        ends.push((lo, hi))?;
    }
    Ok(ends)
}

// An odd mark of one feature for each of so many edges.
fn odd_marks(alloc: Global, count: u32) -> Result<Vec<(u32, Mark)>, AllocError>
    ensures { IfOk result (λ marks. marks.items ≡ map (λ k. (k, record { feature = 0; odd = true })) (numbers count)) }
{
    let mut marks = Vec::with_capacity(alloc, count as usize)?;
    for edge in 0..count {
        let mark = Mark {
            feature: 0,
            odd: true,
        };
        marks.push((edge, mark))?;
    }
    Ok(marks)
}

/// The table of a group, from the edges that it keeps.
pub(crate) fn group_table(
    alloc: Global,
    table: &EdgeTable,
    kept: &[u32],
    groups: &[u32],
    group: u32,
) -> Result<EdgeTable, AllocError>
    requires all_ends { AllEnds table.now }
    requires all_even { AllEven table.now }
    requires apart { NoConflict table.now }
    requires kept { kept.now ≡ kept_edges table.now (in_group groups.now group) }
    ensures { IfOk result (λ made. made ≡ group_table_of table.now (in_group groups.now group)) }
{
    table.law();
    let edges = edges_by_points(alloc, table, kept)?;
    let corners = corners_between(alloc, &edges)?;
    let ends = numbered_ends(alloc, &corners, &edges)?;
    let marks = odd_marks(alloc, edges.len() as u32)?;
    let sources = Vec::from_slice(alloc, &ends)?;
    EdgeTable::of_parts(alloc, corners, ends, marks, sources)
}
