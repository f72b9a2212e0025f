// In which face each hanging cycle lies.

ghost use Rattle.std.specs.Prelude.{◌≡◌, ◌+◌, ◌*◌, ◌<◌, ◌≤◌, ◌&&◌, ◌==◌, false, get_or, length, map, All, IfOk, IfSome, None, true, ℕ};
ghost use Rattle.std.specs.List.Sorted.{IsNonDecreasingBy};
ghost use Rattle.loc_spec_plane.specs.Lists.{numbers};
ghost use Rattle.loc_spec_plane.specs.Faces.{face_above, hangs, least_corner};
ghost use Rattle.loc_spec_plane.specs.HalfEdges.{half_edge_count};
ghost use Rattle.loc_spec_plane.specs.Tables.{lo_of};
ghost use Rattle.loc_edges.specs.Ending.{row_of};
ghost use Rattle.loc_edges.specs.Floors.{AreFloors};
ghost use Rattle.loc_half.specs.HalfEdgeLists.{AreHalfEdges, leader_in, next_in};
ghost use Rattle.loc_faces.specs.Boundaries.{inner_leaders};
ghost use Rattle.loc_faces.specs.Cycles.{AreHanging, AreLeast, face_by};

use crate::cycles::leads_hanging;
use loc_edges::{EdgeTable, Floors, Rows};
use loc_half::HalfEdges;
use std::alloc::{AllocError, Global};

// The face above a floor, by the faces that the cycles have so far.
fn face_over(of_cycle: &[u32], table: &EdgeTable, half: &HalfEdges, floor: Option<u32>) -> u32
    requires half { AreHalfEdges table.now half.now }
    requires as_many { length of_cycle.now ≡ half_edge_count table.now }
    requires in_range { IfSome floor (λ e. e < length table.now.ends) }
    ensures { result ≡ face_above (face_by half.now of_cycle.now) floor }
{
    table.law();
    match floor {
        Some(edge) => of_cycle[half.leader(2 * edge) as usize],
        None => 0,
    }
}

// Whether a hanging cycle comes to its least corner down an edge.
fn comes_low(
    table: &EdgeTable,
    half: &HalfEdges,
    least: &[u32],
    hanging: &[bool],
    edge: u32,
) -> bool
    requires half { AreHalfEdges table.now half.now }
    requires least { AreLeast table.now half.now least.now }
    requires hanging { AreHanging table.now half.now hanging.now }
    requires in_range { edge < length table.now.ends }
    ensures { result ≡ (get_or hanging.now (leader_in half.now (2 * edge + 1)) false && (get_or least.now (leader_in half.now (2 * edge + 1)) 0 == lo_of table.now edge)) }
{
    table.law();
    let (corner, _) = table.ends(edge);
    let leader = half.leader(2 * edge + 1) as usize;
    hanging[leader] && least[leader] == corner
}

/// Each hanging cycle gets the face above the floor of its least corner. The cycles come in the order of their least corners, and a floor
/// begins before the corner above it.
pub(crate) fn number_hanging(
    mut of_cycle: Vec<u32>,
    table: &EdgeTable,
    half: &HalfEdges,
    floors: &Floors,
    least: &[u32],
    hanging: &[bool],
) -> Vec<u32>
    requires half { AreHalfEdges table.now half.now }
    requires floors { AreFloors table.now floors.now }
    requires least { AreLeast table.now half.now least.now }
    requires hanging { AreHanging table.now half.now hanging.now }
    requires as_many { length of_cycle.items ≡ half_edge_count table.now }
    ensures as_many { length result.items ≡ half_edge_count table.now }
    ensures outer { (h : ℕ) → h < half_edge_count table.now → hangs table.now (next_in half.now) h ≡ false → face_by half.now result.items h ≡ face_by half.now of_cycle.items h }
    ensures hanging { (h : ℕ) → h < half_edge_count table.now → hangs table.now (next_in half.now) h ≡ true → face_by half.now result.items h ≡ face_above (face_by half.now result.items) (get_or floors.now.of_corner (least_corner table.now (next_in half.now) h) None) }
    ensures within { (most : ℕ) → ((l : ℕ) → get_or of_cycle.items l 0 ≤ most) → (l : ℕ) → get_or result.items l 0 ≤ most }
{
    table.law();
    for edge in 0..table.edge_count() {
        if comes_low(table, half, least, hanging, edge) {
            let (corner, _) = table.ends(edge);
            let leader = half.leader(2 * edge + 1) as usize;
            let floor = floors.of_corner()[corner as usize];
            of_cycle[leader] = face_over(&of_cycle, table, half, floor);
        }
    }
    of_cycle
}

/// The face of each half-edge: that of its cycle.
pub(crate) fn face_of_each(
    alloc: Global,
    table: &EdgeTable,
    half: &HalfEdges,
    of_cycle: &[u32],
) -> Result<Vec<u32>, AllocError>
    requires half { AreHalfEdges table.now half.now }
    requires as_many { length of_cycle.now ≡ half_edge_count table.now }
    ensures as_many { IfOk result (λ faces. length faces.items ≡ half_edge_count table.now) }
    ensures each { IfOk result (λ faces. (h : ℕ) → h < half_edge_count table.now → get_or faces.items h 0 ≡ face_by half.now of_cycle.now h) }
{
    table.law();
    let mut faces = Vec::new(alloc);
    for h in 0..2 * table.edge_count() {
        faces.push(of_cycle[half.leader(h) as usize])?;
    }
    Ok(faces)
}

// The leaders of hanging cycles, each behind its face, sorted by that.
fn hanging_by_face(
    alloc: Global,
    table: &EdgeTable,
    half: &HalfEdges,
    hanging: &[bool],
    faces: &[u32],
) -> Result<Vec<(u32, u32)>, AllocError>
    requires half { AreHalfEdges table.now half.now }
    requires hanging { AreHanging table.now half.now hanging.now }
    requires as_many { length faces.now ≡ half_edge_count table.now }
    ensures sorted { IfOk result (λ keyed. IsNonDecreasingBy (λ pair. pair.0) keyed.items) }
    ensures rows { IfOk result (λ keyed. (f : ℕ) → row_of keyed.items f ≡ inner_leaders table.now (next_in half.now) (λ h. get_or faces.now h 0) f) }
    ensures in_range { IfOk result (λ keyed. (count : ℕ) → ((h : ℕ) → h < length faces.now → get_or faces.now h 0 < count) → All (λ pair. pair.0 < count) keyed.items) }
{
    table.law();
    let mut keyed = Vec::new(alloc);
    for h in 0..2 * table.edge_count() {
        if leads_hanging(table, half, hanging, h) {
            keyed.push((faces[h as usize], h))?;
        }
    }
    keyed.sort_by_key(|pair| pair.0)?;
    Ok(keyed)
}

/// For each face the leaders of the cycles that hang in it.
pub(crate) fn hanging_rows(
    alloc: Global,
    table: &EdgeTable,
    half: &HalfEdges,
    hanging: &[bool],
    faces: &[u32],
    count: u32,
) -> Result<Rows<u32>, AllocError>
    requires half { AreHalfEdges table.now half.now }
    requires hanging { AreHanging table.now half.now hanging.now }
    requires as_many { length faces.now ≡ half_edge_count table.now }
    requires within { (h : ℕ) → h < length faces.now → get_or faces.now h 0 < count }
    ensures { IfOk result (λ rows. rows ≡ map (inner_leaders table.now (next_in half.now) (λ h. get_or faces.now h 0)) (numbers count)) }
{
    let keyed = hanging_by_face(alloc, table, half, hanging, faces)?;
    Rows::by_key(alloc, &keyed, count as usize)
}
