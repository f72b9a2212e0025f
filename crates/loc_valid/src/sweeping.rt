// A table is swept with the list that is faster for its size.

ghost use Rattle.std.specs.Prelude.{IfErr, IfOk, OnOk};
ghost use Rattle.loc_spec_plane.specs.Tables.{NoConflict};
ghost use Rattle.loc_edges.specs.Floors.{AreFloors};
ghost use Rattle.loc_sweep.specs.Swept.{IsShown};

use loc_edges::{EdgeTable, Floors};
use loc_status::VecStatus;
use loc_sweep::{SweepFault, sweep};
use loc_treeidx::TreeIndex;
use std::alloc::Global;

// With so many edges a sorted list is faster than a tree, whose nodes take memory one by one.
const FEW_EDGES: u32 = 4096;

// The floors of a table in which no two edges conflict, or two that do.
pub(crate) fn swept_floors(alloc: Global, table: &EdgeTable) -> Result<Floors, SweepFault>
    ensures apart { OnOk result (NoConflict table.now) }
    ensures floors { IfOk result (AreFloors table.now) }
    ensures shown { IfErr result (IsShown table.now) }
{
    if table.edge_count() <= FEW_EDGES {
        let (_, floors) = sweep(alloc, table, VecStatus::new(alloc))?;
        return Ok(floors);
    }
    let (_, floors) = sweep(alloc, table, TreeIndex::new(alloc))?;
    Ok(floors)
}
