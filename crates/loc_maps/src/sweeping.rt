//! The table of a layer, and its sweep: the plain table first, and the noded one where that shows a conflict.

ghost use Rattle.std.specs.Prelude.{◌≡◌, IfOk, IfErr, IfSome};
ghost use Rattle.loc_spec_plane.specs.Tables.{NoConflict};
ghost use Rattle.loc_edges.specs.Conflicts.{table_edges as edges_of_table};
ghost use Rattle.loc_edges.specs.Floors.{AreFloors};
ghost use Rattle.loc_status.specs.Meaning.{IsFresh};
ghost use Rattle.loc_sweep.specs.Swept.{IsSwept};
ghost use Rattle.loc_course.specs.Courses.{Course};
ghost use Rattle.loc_course.specs.Following.{Moment};
ghost use Rattle.loc_course.specs.Stops.{GoesOn};
ghost use Rattle.loc_course.specs.declared.stop.Stop.TheVariants.{NoMemory};
ghost use Rattle.loc_maps.specs.Located.{edges_of};
ghost use Rattle.loc_maps.specs.MapCourses.{apart_course, pieces_course};
ghost use Rattle.loc_maps.specs.Maps.{IsTableOf};

use crate::lines::{Pair, conflict_line, pieces_line};
use crate::statuses::FreshStatus;
use loc_course::Stop;
use loc_edges::{EdgeTable, Floors};
use loc_node::{NodeFault, node};
use loc_rings::Layer;
use loc_spec_text::Scale;
use loc_status::Status;
use loc_sweep::{SweepFault, sweep};
use std::alloc::Global;

/// A table in which no two edges conflict, the status with which it was swept, and the floors that the sweep left.
#[derive(Drop)]
pub struct SweptTable<S> {
    pub table: EdgeTable,
    pub status: S,
    pub floors: Floors,
}

/// The table of a layer, where its pieces are few.
#[tactic(auto, unfolding(crate::specs::Located::table_in))]
pub fn layer_table(alloc: Global, layer: &Layer) -> Result<EdgeTable, Stop>
    ensures goes_on { (next : Course) (m : Moment) → GoesOn (pieces_course layer.now next) m (λ _. next) m result }
    ensures table { IfOk result (IsTableOf layer.now) }
{
    match node(alloc, layer) {
        Ok(table) => Ok(table),
        Err(NodeFault::ManyPieces) => Err(Stop::Refused(pieces_line())),
        Err(NodeFault::NoMemory) => Err(Stop::NoMemory),
    }
}

/// A table that is swept with a status to which nothing was done, where no two of its edges conflict.
pub fn sweep_table<S: Status>(
    alloc: Global,
    table: EdgeTable,
    scale: Scale,
    status: S,
) -> Result<SweptTable<S>, Stop>
    requires fresh { IsFresh (S.meaning status) }
    ensures goes_on { (next : Course) (m : Moment) → GoesOn (apart_course scale (edges_of_table table) next) m
        (λ _. next) m result }
    ensures table { IfOk result (λ plane. plane.table ≡ table) }
    ensures apart { IfOk result (λ plane. NoConflict plane.table) }
    ensures swept { IfOk result (λ plane. IsSwept plane.table (S.meaning plane.status)) }
    ensures floors { IfOk result (λ plane. AreFloors plane.table plane.floors) }
{
    table.law();
    match sweep(alloc, &table, status) {
        Ok((status, floors)) => Ok(SweptTable {
            table,
            status,
            floors,
        }),
        Err(SweepFault::Conflict { a, b, meeting }) => {
            let pair = Pair {
                a: table.edge(a),
                b: table.edge(b),
                meeting,
            };
            drop(table);
            Err(Stop::Refused(conflict_line(scale, pair)))
        }
        Err(SweepFault::NoMemory) => {
            drop(table);
            Err(Stop::NoMemory)
        }
    }
}

// The plain table of a layer, swept, or none where two of its edges conflict.
fn sweep_plain<S: FreshStatus>(alloc: Global, layer: &Layer) -> Result<Option<SweptTable<S>>, Stop>
    ensures memory { IfErr result (λ stop. stop ≡ NoMemory) }
    ensures table { IfOk result (λ found. IfSome found (λ plane. IsTableOf layer.now plane.table)) }
    ensures apart { IfOk result (λ found. IfSome found (λ plane. NoConflict plane.table)) }
    ensures swept { IfOk result (λ found. IfSome found (λ plane. IsSwept plane.table (S.meaning plane.status))) }
    ensures floors { IfOk result (λ found. IfSome found (λ plane. AreFloors plane.table plane.floors)) }
{
    let table = EdgeTable::make(alloc, layer)?;
    match sweep(alloc, &table, S::fresh(alloc)) {
        Ok((status, floors)) => {
            let _few = layer.features();
            Ok(Some(SweptTable {
                table,
                status,
                floors,
            }))
        }
        Err(SweepFault::Conflict { .. }) => {
            drop(table);
            Ok(None)
        }
        Err(SweepFault::NoMemory) => {
            drop(table);
            Err(Stop::NoMemory)
        }
    }
}

/// The table of a layer, swept, where its pieces are few and no two of its edges conflict. Where no two edges of the plain table conflict that
/// one is the table of the layer, and nothing is cut.
pub fn sweep_layer<S: FreshStatus>(
    alloc: Global,
    layer: &Layer,
    scale: Scale,
) -> Result<SweptTable<S>, Stop>
    ensures goes_on { (next : Course) (m : Moment) → GoesOn
        (pieces_course layer.now (apart_course scale (edges_of layer.now) next)) m (λ _. next) m result }
    ensures table { IfOk result (λ plane. IsTableOf layer.now plane.table) }
    ensures apart { IfOk result (λ plane. NoConflict plane.table) }
    ensures swept { IfOk result (λ plane. IsSwept plane.table (S.meaning plane.status)) }
    ensures floors { IfOk result (λ plane. AreFloors plane.table plane.floors) }
{
    if let Some(plane) = sweep_plain(alloc, layer)? {
        return Ok(plane);
    }
    let table = layer_table(alloc, layer)?;
    sweep_table(alloc, table, scale, S::fresh(alloc))
}
