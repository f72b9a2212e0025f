// What the lines of faces are together, and what is computed from a table.

ghost use Rattle.std.specs.Prelude.{◌≡◌, ◌<◌, ◌==◌, [], count_by, length, if◌then◌else◌, ℕ};
ghost use Rattle.loc_spec_plane.specs.Faces.{IsFaces};
ghost use Rattle.loc_spec_plane.specs.HalfEdges.{half_edge_count, IsNextOfAll};
ghost use Rattle.loc_spec_plane.specs.Tables.{NoConflict};
ghost use Rattle.loc_half.specs.HalfEdgeLists.{AreHalfEdges, next_in};
ghost use Rattle.loc_faces.specs.Boundaries.{boundary, outer_leaders};
ghost use Rattle.loc_faces.specs.FaceLists.{AreFaces, face_in};
ghost use Rattle.loc_faces.specs.Subdivision.{face_at, next_at};

use crate::Faces;
use loc_edges::EdgeTable;
use loc_half::HalfEdges;

/// Each half-edge stands in exactly one line of its face, and in no line of another. Each face but face 0 has one outer cycle. The call does
/// nothing: its contract is the law.
pub fn lines_law(table: &EdgeTable, half: &HalfEdges, faces: &Faces)
    requires half { AreHalfEdges table.now half.now }
    requires faces { AreFaces table.now (next_in half.now) faces.now }
    ensures once { (f h : ℕ) → h < half_edge_count table.now → count_by (λ g. g == h) (boundary table.now (next_in half.now) (face_in faces.now) f) ≡ (if face_in faces.now h == f then 1 else 0) }
    ensures no_outer { outer_leaders table.now (next_in half.now) (face_in faces.now) 0 ≡ [] }
    ensures one_outer { (f : ℕ) → 0 < f → f < faces.now.count → length (outer_leaders table.now (next_in half.now) (face_in faces.now) f) ≡ 1 }
{
    table.law();
    let _faces = faces;
    let _half = half;
}

/// What is computed from a table in which no two edges conflict are its nexts and its faces. The call does nothing: its contract is the law.
pub fn subdivision_law(table: &EdgeTable)
    requires { NoConflict table.now }
    ensures nexts { IsNextOfAll table.now (next_at table.now) }
    ensures faces { IsFaces table.now (next_at table.now) (face_at table.now) }
{
    table.law();
}
