// The polygons of a group: the faces that it covers, as rings.

ghost use Rattle.std.specs.Prelude.{◌≡◌, ◌<◌, ◌-◌, ◌++◌, ℕ, All, false, filter, get_or, length, map, IfOk, OnOk};
ghost use Rattle.std.specs.List.{range_with_len};
ghost use Rattle.loc_spec_plane.specs.HalfEdges.{half_edge_count};
ghost use Rattle.loc_half.specs.HalfEdgeLists.{AreHalfEdges, next_in};
ghost use Rattle.loc_faces.specs.FaceLists.{AreFaces, face_in};
ghost use Rattle.loc_spec_groups.specs.Groups.{face_rings, ring_from as ring_from_of};

use crate::groups::{Polygon, Ring};
use crate::subdivided::Subdivided;
use loc_edges::EdgeTable;
use loc_faces::Faces;
use loc_half::HalfEdges;
use std::alloc::{AllocError, Global};

// The corners of a cycle, from a half-edge on.
fn ring_from(
    alloc: Global,
    table: &EdgeTable,
    half: &HalfEdges,
    leader: u32,
) -> Result<Ring, AllocError>
    requires half { AreHalfEdges table.now half.now }
    requires in_range { leader < half_edge_count table.now }
    ensures { IfOk result (λ ring. (face : ℕ → ℕ) → ring ≡ ring_from_of table.now (next_in half.now) face leader) }
{
    table.law();
    let mut corners = vec![in alloc; table.corner(half.origin(leader))]?;
    let mut h = half.next(leader);
    'round: while h != leader {
        corners.push(table.corner(half.origin(h)))?;
        h = half.next(h);
    }
    Ok(Ring::of(corners))
}

// Puts the rings of cycles behind others.
fn put_rings(
    rings: &mut Vec<Ring>,
    alloc: Global,
    table: &EdgeTable,
    half: &HalfEdges,
    leaders: &[u32],
) -> Result<(), AllocError>
    requires half { AreHalfEdges table.now half.now }
    requires in_range { All (λ leader. leader < half_edge_count table.now) leaders.now }
    ensures { OnOk result ((face : ℕ → ℕ) → rings.new.items ≡ rings.old.items ++ map (ring_from_of table.now (next_in half.now) face) leaders.now) }
{
    for leader in leaders {
        rings.push(ring_from(alloc, table, half, *leader)?)?;
    }
    Ok(())
}

// A face as a polygon: its outer cycle, and the cycles that hang in it.
fn polygon_of(
    alloc: Global,
    table: &EdgeTable,
    half: &HalfEdges,
    faces: &Faces,
    number: u32,
) -> Result<Polygon, AllocError>
    requires half { AreHalfEdges table.now half.now }
    requires faces { AreFaces table.now (next_in half.now) faces.now }
    requires in_range { number < faces.now.count }
    ensures { IfOk result (λ polygon. polygon ≡ face_rings table.now (next_in half.now) (face_in faces.now) number) }
{
    let mut rings = Vec::new(alloc);
    put_rings(&mut rings, alloc, table, half, faces.outer(number))?;
    put_rings(&mut rings, alloc, table, half, faces.inner(number))?;
    Ok(Polygon::of(rings))
}

/// The polygons of the faces from 1 on that are covered.
pub(crate) fn polygons_of(
    alloc: Global,
    table: &EdgeTable,
    half: &HalfEdges,
    faces: &Faces,
    covered: &[bool],
) -> Result<Vec<Polygon>, AllocError>
    requires half { AreHalfEdges table.now half.now }
    requires faces { AreFaces table.now (next_in half.now) faces.now }
    requires as_many { length covered.now ≡ faces.now.count }
    ensures { IfOk result (λ polygons. polygons.items ≡ map (face_rings table.now (next_in half.now) (face_in faces.now)) (filter (λ f. get_or covered.now f false) (range_with_len 1 (faces.now.count - 1)))) }
{
    let mut polygons = Vec::new(alloc);
    for number in 1..faces.count() {
        if covered[number as usize] {
            polygons.push(polygon_of(alloc, table, half, faces, number)?)?;
        }
    }
    Ok(polygons)
}
