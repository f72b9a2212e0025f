// The sweep, corner after corner.

ghost use Rattle.std.specs.Prelude.{IfOk, IfErr, OnOk};
ghost use Rattle.loc_spec_plane.specs.Tables.{NoConflict};
ghost use Rattle.loc_status.specs.Meaning.{IsFresh};
ghost use Rattle.loc_edges.specs.Floors.{AreFloors};
ghost use Rattle.loc_sweep.specs.Swept.{IsSwept, IsShown};

use crate::SweepFault;
use crate::coming::come_all;
use crate::leaving::leave_all;
use crate::notes::note_floor;
use loc_edges::{EdgeTable, Floors};
use loc_status::Status;
use std::alloc::Global;

/// Sweeps the corners of a table in order. It hands back the status, which then has a list sealed for each corner, and the floors, exactly
/// where no two edges conflict, unless memory is wanting. Else it shows two that do (Shamos and Hoey 1976). The status must be one to which
/// nothing was done.
pub fn sweep<S: Status>(
    alloc: Global,
    table: &EdgeTable,
    mut status: S,
) -> Result<(S, Floors), SweepFault>
    requires fresh { IsFresh (S.meaning status) }
    ensures apart { OnOk result (NoConflict table.now) }
    ensures swept { IfOk result (λ done. IsSwept table.now (S.meaning done.0)) }
    ensures floors { IfOk result (λ done. AreFloors table.now done.1) }
    ensures shown { IfErr result (IsShown table.now) }
{
    table.law();
    let mut of_corner = Vec::with_capacity(alloc, table.corner_count() as usize)?;
    let mut of_edge = vec![in alloc; None; table.edge_count() as usize]?;
    for corner in 0..table.corner_count() {
        let left = leave_all(table, &mut status, corner)?;
        let between = come_all(table, &mut status, corner, left, &mut of_edge)?;
        note_floor(table, &status, corner, between, &mut of_corner)?;
        status.seal()?;
    }
    Ok((status, Floors::of(of_corner, of_edge)))
}
