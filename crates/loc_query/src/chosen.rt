//! The index that is asked for, of a layer that is accepted. Here alone one is chosen.

ghost use Rattle.std.specs.Prelude.{◌≡◌, Ok, IfOk, IfSome, length};
ghost use Rattle.loc_spec_plane.specs.Tables.{AllEnds, NoConflict};
ghost use Rattle.loc_edges.specs.Floors.{AreFloors};
ghost use Rattle.loc_place.specs.Found.{place_at};
ghost use Rattle.loc_place.specs.Planar.{IsPlanar};
ghost use Rattle.loc_place.proofs.FoundPlace.{place_at_is};
ghost use Rattle.loc_course.specs.Courses.{Course};
ghost use Rattle.loc_course.specs.Following.{Moment};
ghost use Rattle.loc_course.specs.Stops.{GoesOn};
ghost use Rattle.loc_maps.specs.Located.{table_in};
ghost use Rattle.loc_maps.specs.MapCourses.{accepted_course, pieces_course};
ghost use Rattle.loc_maps.specs.Maps.{IsMapOf, IsTableOf};
ghost use Rattle.loc_orders.specs.OrderCourses.{IsGivenOrder};
ghost use Rattle.loc_trapdag.specs.Graphs.{IsIndexOf};
ghost use Rattle.loc_query.specs.Chosen.{HasFewNodes, HasIndex, IsIndexFor, index_of, nodes_of};
ghost use Rattle.loc_spec_asked.specs.declared.Index.TheVariants as by;
ghost use Rattle.loc_query.specs.QueryCourses.{steps_by};
ghost use Rattle.loc_query.specs.declared.chosen.Chosen.TheVariants.{Tree};

use loc_course::Stop;
use loc_edges::{EdgeTable, Views};
use loc_geom::{Point, Steps};
use loc_maps::{Plane, judge_over};
use loc_orders::GivenOrder;
use loc_place::{Deep, Locator, Place};
use loc_rings::Layer;
use loc_scan::Scan;
use loc_spec_asked::Index;
use loc_spec_text::Scale;
use loc_status::VecStatus;
use loc_trapdag::TrapIndex;
use loc_treeidx::TreeIndex;
use loc_treeidx::laws::swept_stands;
use std::alloc::{AllocError, Global};
use std::sync::ledger::Ledger;

/// An index of a table: the plain look at every corner and edge, the tree of the versions that a sweep left, or the trapezoids of the edges.
#[derive(Drop)]
pub enum Chosen {
    Scan,
    Tree(TreeIndex),
    Trap(TrapIndex),
}

impl Chosen {
    /// The number of the nodes of the tree, where there is one.
    pub fn nodes(&self) -> Option<u32>
        ensures { result ≡ nodes_of self.now }
    {
        match self {
            Chosen::Scan | Chosen::Trap(_) => None,
            Chosen::Tree(index) => Some(index.versions().nodes()),
        }
    }
}

impl Locator for Chosen {
    ghost fits = { λ index t. IsIndexFor t index };

    ghost stands = { λ index t. IsIndexFor t index };

    ghost finds = { λ _ t p. Ok (place_at t p) };

    ghost most = { λ index t. steps_by (index_of index) t };

    fn locate<L: Ledger>(
        &self,
        views: &Views<'_, L>,
        p: Point,
        steps: &mut Steps<L>,
    ) -> Result<Place, Deep> {
        match self {
            Chosen::Scan => Scan.locate(views, p, steps),
            Chosen::Tree(index) => index.locate(views, p, steps),
            Chosen::Trap(index) => index.locate(views, p, steps),
        }
    }

    ghost stands_fits = { λ _ t stands. stands };

    ghost stands_apart = { λ _ t stands. stands.planar.apart };

    ghost stands_finds = { λ _ t p stands. place_at_is t stands.planar p };
}

// The plane with an index in place of its status, which is let go.
fn with_index<S: Drop>(plane: Plane<S>, index: Chosen) -> Plane<Chosen>
    ensures table { result.table ≡ plane.table }
    ensures status { result.status ≡ index }
    ensures floors { result.floors ≡ plane.floors }
    ensures legend { result.legend ≡ plane.legend }
{
    let Plane {
        table,
        status: _,
        floors,
        legend,
    } = plane;
    Plane {
        table,
        status: index,
        floors,
        legend,
    }
}

// The plane of a table that was swept with a tree, with that tree as its index.
fn with_tree(plane: Plane<TreeIndex>) -> Plane<Chosen>
    ensures table { result.table ≡ plane.table }
    ensures status { result.status ≡ Tree plane.status }
    ensures floors { result.floors ≡ plane.floors }
    ensures legend { result.legend ≡ plane.legend }
{
    let Plane {
        table,
        status,
        floors,
        legend,
    } = plane;
    Plane {
        table,
        status: Chosen::Tree(status),
        floors,
        legend,
    }
}

// The trapezoids of a table whose edges are added in the order that was given.
fn traps_of(alloc: Global, table: &EdgeTable, order: GivenOrder) -> Result<TrapIndex, AllocError>
    requires apart { NoConflict table.now }
    requires ends { AllEnds table.now }
    requires permutation { IsGivenOrder (length table.now.ends) order }
    ensures { IfOk result (IsIndexOf table.now) }
{
    let order = order.order(alloc, table.edge_count())?;
    TrapIndex::build(alloc, &table.ranks(), &order)
}

// The plane of a table that was swept with a tree, with the trapezoids of its edges as its index.
fn with_traps(
    alloc: Global,
    plane: Plane<TreeIndex>,
    order: GivenOrder,
) -> Result<Plane<Chosen>, AllocError>
    requires apart { NoConflict plane.table }
    requires ends { AllEnds plane.table }
    requires permutation { IsGivenOrder (length plane.table.ends) order }
    ensures table { IfOk result (λ chosen. chosen.table ≡ plane.table) }
    ensures asked { IfOk result (λ chosen. index_of chosen.status ≡ by.Trap) }
    ensures kept { IfOk result (λ chosen. HasIndex plane.table chosen.status) }
    ensures floors { IfOk result (λ chosen. chosen.floors ≡ plane.floors) }
    ensures legend { IfOk result (λ chosen. chosen.legend ≡ plane.legend) }
{
    match traps_of(alloc, &plane.table, order) {
        Ok(traps) => Ok(with_index(plane, Chosen::Trap(traps))),
        Err(fault) => {
            drop(plane);
            Err(fault)
        }
    }
}

/// The plane of a layer that is accepted, where its table may be made already, with an index in place of the status that swept it. The plain
/// look is swept with a sorted list, and trapezoids with the tree, and their edges are added in the order that was given.
pub fn choose(
    alloc: Global,
    index: Index,
    order: GivenOrder,
    layer: Layer,
    table: Option<EdgeTable>,
    scale: Scale,
) -> Result<Plane<Chosen>, Stop>
    requires table { IfSome table (IsTableOf layer) }
    requires permutation { IsGivenOrder (length (table_in layer).ends) order }
    ensures goes_on { (next : Course) (m : Moment) → GoesOn (pieces_course layer (accepted_course scale layer next)) m
        (λ _. next) m result }
    ensures map { IfOk result (λ plane. IsMapOf layer plane.table plane.legend) }
    ensures floors { IfOk result (λ plane. AreFloors plane.table plane.floors) }
    ensures asked { IfOk result (λ plane. index_of plane.status ≡ index) }
    ensures stands { IfOk result (λ plane. IsIndexFor plane.table plane.status) }
    ensures few { IfOk result (λ plane. HasFewNodes plane.table plane.status) }
{
    match index {
        Index::Scan => {
            let plane: Plane<VecStatus> = judge_over(alloc, layer, table, scale)?;
            plane.table.law();
            Ok(with_index(plane, Chosen::Scan))
        }
        Index::Tree => {
            let plane: Plane<TreeIndex> = judge_over(alloc, layer, table, scale)?;
            swept_stands(&plane.table, &plane.status);
            Ok(with_tree(plane))
        }
        Index::Trap => {
            let plane: Plane<TreeIndex> = judge_over(alloc, layer, table, scale)?;
            Ok(with_traps(alloc, plane, order)?)
        }
    }
}
