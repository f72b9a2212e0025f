//! A layer judged: its plane, or why it has none.

ghost use Rattle.std.specs.Prelude.{IfErr, IfOk};
ghost use Rattle.loc_spec_plane.specs.Tables.{NoConflict};
ghost use Rattle.loc_sweep.specs.Swept.{IsSwept};
ghost use Rattle.loc_treeidx.specs.Meaning.{meaning_of};
ghost use Rattle.loc_maps.specs.Maps.{IsMapOf, IsTableOf};
ghost use Rattle.loc_parts.specs.Faults.{IsFaultOf, IsRefusedBy};

use crate::fault::PlaneFault;
use crate::parts::PartPlane;
use loc_cover::{Legend, LegendFault};
use loc_edges::EdgeTable;
use loc_node::{NodeFault, node};
use loc_rings::Layer;
use loc_sweep::{SweepFault, sweep};
use loc_treeidx::TreeIndex;
use std::alloc::Global;

/// The plane of a layer over its table. It has one where no two edges of the table conflict and its distinct cover lists are few; else the table
/// is handed back, or let go for want of memory. The layer stays.
pub fn judged(alloc: Global, layer: &Layer, table: EdgeTable) -> Result<PartPlane, PlaneFault>
    requires { NoConflict table → IsTableOf layer.now table }
    ensures map { IfOk result (λ plane. IsMapOf layer.now plane.table plane.legend) }
    ensures swept { IfOk result (λ plane. IsSwept plane.table (meaning_of plane.tree)) }
    ensures fault { IfErr result (IsFaultOf table) }
{
    let (tree, floors) = match sweep(alloc, &table, TreeIndex::new(alloc)) {
        Ok(done) => done,
        Err(SweepFault::Conflict { .. }) => return Err(PlaneFault::Conflict(table)),
        Err(SweepFault::NoMemory) => {
            drop(table);
            return Err(PlaneFault::NoMemory);
        }
    };
    match Legend::make(alloc, layer, &table, &floors) {
        Ok(legend) => {
            drop(floors);
            Ok(PartPlane {
                table,
                tree,
                legend,
            })
        }
        Err(LegendFault::ManyCovers) => {
            drop(floors);
            drop(tree);
            Err(PlaneFault::Covers(table))
        }
        Err(LegendFault::NoMemory) => {
            drop(floors);
            drop(tree);
            drop(table);
            Err(PlaneFault::NoMemory)
        }
    }
}

// The plane of a layer over its noded table.
fn judged_noded(alloc: Global, layer: &Layer) -> Result<PartPlane, PlaneFault>
    ensures map { IfOk result (λ plane. IsMapOf layer.now plane.table plane.legend) }
    ensures swept { IfOk result (λ plane. IsSwept plane.table (meaning_of plane.tree)) }
    ensures fault { IfErr result (IsRefusedBy layer.now) }
{
    match node(alloc, layer) {
        Ok(table) => judged(alloc, layer, table),
        Err(NodeFault::ManyPieces) => Err(PlaneFault::Pieces),
        Err(NodeFault::NoMemory) => Err(PlaneFault::NoMemory),
    }
}

/// The plane of a layer, where it is accepted. Its plain table is judged first; where two edges of that conflict its segments are cut, and the
/// noded table is judged. The layer stays.
pub fn judged_layer(alloc: Global, layer: &Layer) -> Result<PartPlane, PlaneFault>
    ensures map { IfOk result (λ plane. IsMapOf layer.now plane.table plane.legend) }
    ensures swept { IfOk result (λ plane. IsSwept plane.table (meaning_of plane.tree)) }
    ensures fault { IfErr result (IsRefusedBy layer.now) }
{
    let table = EdgeTable::make(alloc, layer)?;
    let _few = layer.features();
    match judged(alloc, layer, table) {
        Ok(plane) => Ok(plane),
        Err(PlaneFault::Conflict(plain)) => {
            drop(plain);
            judged_noded(alloc, layer)
        }
        Err(PlaneFault::Covers(plain)) => Err(PlaneFault::Covers(plain)),
        Err(PlaneFault::Pieces) => Err(PlaneFault::Pieces),
        Err(PlaneFault::NoMemory) => Err(PlaneFault::NoMemory),
    }
}
