// A table with its half-edges and its faces.

ghost use Rattle.std.specs.Prelude.{◌≡◌, IfOk};
ghost use Rattle.loc_spec_plane.specs.Tables.{NoConflict};
ghost use Rattle.loc_edges.specs.Floors.{AreFloors};
ghost use Rattle.loc_half.specs.HalfEdgeLists.{AreHalfEdges, next_in};
ghost use Rattle.loc_faces.specs.FaceLists.{AreFaces};

use loc_edges::{EdgeTable, Floors};
use loc_faces::Faces;
use loc_half::HalfEdges;
use loc_status::VecStatus;
use loc_sweep::{SweepFault, sweep};
use std::alloc::{AllocError, Global};

/// A table in which no two edges conflict, its half-edges, and its faces.
#[derive(Drop)]
pub(crate) struct Subdivided {
    pub(crate) table: EdgeTable,
    pub(crate) half: HalfEdges,
    pub(crate) faces: Faces,
}

// The floors of a table in which no two edges conflict.
fn floors_of(alloc: Global, table: &EdgeTable) -> Result<Floors, AllocError>
    requires { NoConflict table.now }
    ensures { IfOk result (AreFloors table.now) }
{
    match sweep(alloc, table, VecStatus::new(alloc)) {
        Ok((_, floors)) => Ok(floors),
        Err(SweepFault::NoMemory) => Err(AllocError),
        Err(SweepFault::Conflict { .. }) => unreachable!(),
    }
}

// The half-edges of a table, and its faces.
fn halves_and_faces(alloc: Global, table: &EdgeTable) -> Result<(HalfEdges, Faces), AllocError>
    requires apart { NoConflict table.now }
    ensures half { IfOk result (λ made. AreHalfEdges table.now made.0) }
    ensures faces { IfOk result (λ made. AreFaces table.now (next_in made.0) made.1) }
{
    let floors = floors_of(alloc, table)?;
    let half = HalfEdges::make(alloc, table)?;
    let faces = Faces::make(alloc, table, &half, &floors)?;
    Ok((half, faces))
}

/// The half-edges and the faces of a table.
pub(crate) fn subdivide(alloc: Global, table: EdgeTable) -> Result<Subdivided, AllocError>
    requires { NoConflict table }
    ensures table { IfOk result (λ made. made.table ≡ table) }
    ensures half { IfOk result (λ made. AreHalfEdges made.table made.half) }
    ensures faces { IfOk result (λ made. AreFaces made.table (next_in made.half) made.faces) }
{
    match halves_and_faces(alloc, &table) {
        Ok((half, faces)) => Ok(Subdivided { table, half, faces }),
        Err(fault) => {
            drop(table);
            Err(fault)
        }
    }
}
