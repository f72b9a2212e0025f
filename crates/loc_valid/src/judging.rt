// The first breach of a feature.

ghost use Rattle.std.specs.Prelude.{◌≡◌, ◌≤◌, None, find, length, option_map, IfOk, IfErr};
ghost use Rattle.loc_spec_text.specs.Limits.{most_points};
ghost use Rattle.loc_spec_plane.specs.Covers.{feature_count};
ghost use Rattle.loc_spec_plane.specs.Tables.{AllEnds, AllEven, NoConflict, edge as edge_of, edge_numbers};
ghost use Rattle.loc_spec_valid.specs.Breaches.{HasSegments, IsBreachOf, feature_rings, is_twice, ring_table};
ghost use Rattle.loc_edges.specs.Floors.{AreFloors};
ghost use Rattle.loc_rings.specs.Layers.{point_count};
ghost use Rattle.loc_cover.specs.Legends.{FitsTable as FitsLegend, IsFew, IsTrueLegend};
ghost use Rattle.loc_faces.specs.Subdivision.{face_at, next_at};
ghost use Rattle.loc_valid.specs.Hits.{IsLaidOut};
ghost use Rattle.loc_valid.specs.Judged.{HasFewPieces, HasManyCovers, HasManyPieces, IsNoMemory, IsRefusedFeature, IsRefusedLegend, IsUnpinched, told};

use crate::breach::Breach;
use crate::fault::ValidFault;
use crate::hits::Fault;
use crate::homes::homes_of;
use crate::passes::{first_misplaced, first_overlap};
use crate::pinches::first_pinch;
use crate::points::first_point;
use crate::polygons::first_parted;
use crate::sweeping::swept_floors;
use crate::tables::table_of_rings;
use loc_cover::{Legend, LegendFault};
use loc_edges::{EdgeTable, Floors};
use loc_geom::Edge;
use loc_rings::{Feature, Layer};
use loc_sweep::SweepFault;
use std::alloc::Global;

/// The first breach of a feature, or none exactly where it keeps the rules. It is not judged exactly where, with a segment in each ring, the
/// pieces of its rings are more than 2,097,152, or where, none of the first four breaches and not this, the distinct cover lists of its rings
/// have more than 16,777,216 members together, want of memory aside.
pub fn judge(alloc: Global, feature: &Feature) -> Result<Option<Breach>, ValidFault>
    requires { point_count feature.now ≤ most_points }
    ensures breach { IfOk result (λ breach. IsBreachOf next_at face_at feature.now.polygons (told breach)) }
    ensures few_pieces { IfOk result (λ _. HasManyPieces feature.now.polygons → ⊥) }
    ensures few_covers { IfOk result (λ _. HasManyCovers feature.now.polygons → ⊥) }
    ensures refused { IfErr result (IsRefusedFeature feature.now.polygons) }
{
    let rings = feature.rings();
    // There are at most 2^28 rings.
    let _count = rings.len();
    if let Some(ring) = first_point(rings) {
        return Ok(Some(Breach::PointRing { ring: ring + 1 }));
    }
    judge_rings(alloc, feature)
}

// The first breach of a feature in which each ring has a segment.
fn judge_rings(alloc: Global, feature: &Feature) -> Result<Option<Breach>, ValidFault>
    requires few { point_count feature.now ≤ most_points }
    requires segments { HasSegments feature.now.polygons }
    ensures breach { IfOk result (λ breach. IsBreachOf next_at face_at feature.now.polygons (told breach)) }
    ensures few_pieces { IfOk result (λ _. HasFewPieces feature.now.polygons) }
    ensures few_covers { IfOk result (λ _. HasManyCovers feature.now.polygons → ⊥) }
    ensures refused { IfErr result (IsRefusedFeature feature.now.polygons) }
{
    let (layer, table, twice) = table_of_rings(alloc, feature)?;
    judge_table(alloc, feature, &layer, &table, twice)
}

// The first breach of a feature in which each ring has a segment, by the table of its rings.
fn judge_table(
    alloc: Global,
    feature: &Feature,
    layer: &Layer,
    table: &EdgeTable,
    twice: Option<Edge>,
) -> Result<Option<Breach>, ValidFault>
    requires few { point_count feature.now ≤ most_points }
    requires segments { HasSegments feature.now.polygons }
    requires few_pieces { HasFewPieces feature.now.polygons }
    requires of_rings { table.now ≡ ring_table feature.now.polygons }
    requires all_ends { AllEnds table.now }
    requires all_even { AllEven table.now }
    requires twice { option_map (edge_of table.now) (find (is_twice feature.now.polygons table.now) (edge_numbers table.now)) ≡ twice }
    requires as_many { length layer.now ≡ length (feature_rings feature.now.polygons) }
    requires features { feature_count table.now ≤ length layer.now }
    ensures breach { IfOk result (λ breach. IsBreachOf next_at face_at feature.now.polygons (told breach)) }
    ensures few_covers { IfOk result (λ _. HasManyCovers feature.now.polygons → ⊥) }
    ensures refused { IfErr result (IsRefusedFeature feature.now.polygons) }
{
    table.law();
    match swept_floors(alloc, table) {
        Ok(floors) => judge_calm(alloc, feature, layer, table, twice, &floors),
        Err(SweepFault::Conflict { a, b, .. }) => Ok(Some(Breach::Cross {
            a: table.edge(a),
            b: table.edge(b),
        })),
        Err(SweepFault::NoMemory) => Err(ValidFault::NoMemory),
    }
}

// The first breach of a feature in which no two edges cross.
fn judge_calm(
    alloc: Global,
    feature: &Feature,
    layer: &Layer,
    table: &EdgeTable,
    twice: Option<Edge>,
    floors: &Floors,
) -> Result<Option<Breach>, ValidFault>
    requires few { point_count feature.now ≤ most_points }
    requires segments { HasSegments feature.now.polygons }
    requires few_pieces { HasFewPieces feature.now.polygons }
    requires of_rings { table.now ≡ ring_table feature.now.polygons }
    requires all_ends { AllEnds table.now }
    requires all_even { AllEven table.now }
    requires apart { NoConflict table.now }
    requires twice { option_map (edge_of table.now) (find (is_twice feature.now.polygons table.now) (edge_numbers table.now)) ≡ twice }
    requires as_many { length layer.now ≡ length (feature_rings feature.now.polygons) }
    requires features { feature_count table.now ≤ length layer.now }
    requires swept { AreFloors table.now floors.now }
    ensures breach { IfOk result (λ breach. IsBreachOf next_at face_at feature.now.polygons (told breach)) }
    ensures few_covers { IfOk result (λ _. HasManyCovers feature.now.polygons → ⊥) }
    ensures refused { IfErr result (IsRefusedFeature feature.now.polygons) }
{
    if let Some(edge) = twice {
        return Ok(Some(Breach::Twice { edge }));
    }
    // There are at most 2^28 rings.
    let _count = feature.rings().len();
    if let Some((ring, corner)) = first_pinch(alloc, feature, table)? {
        return Ok(Some(Breach::Pinch {
            ring: ring + 1,
            at: table.corner(corner),
        }));
    }
    judge_unpinched(alloc, feature, layer, table, floors)
}

// The legend of the ring table.
fn legend_of_rings(
    alloc: Global,
    layer: &Layer,
    table: &EdgeTable,
    floors: &Floors,
) -> Result<Legend, ValidFault>
    requires all_ends { AllEnds table.now }
    requires all_even { AllEven table.now }
    requires apart { NoConflict table.now }
    requires features { feature_count table.now ≤ length layer.now }
    requires swept { AreFloors table.now floors.now }
    ensures named { IfOk result (λ legend. length legend.ids ≡ length layer.now) }
    ensures fits { IfOk result (FitsLegend table.now) }
    ensures is_true { IfOk result (IsTrueLegend table.now) }
    ensures few { IfOk result (λ _. IsFew table.now) }
    ensures refused { IfErr result (IsRefusedLegend table.now) }
{
    match Legend::make(alloc, layer, table, floors) {
        Ok(legend) => Ok(legend),
        Err(LegendFault::ManyCovers) => Err(ValidFault::ManyCovers),
        Err(LegendFault::NoMemory) => Err(ValidFault::NoMemory),
    }
}

// The first breach of a feature to which none of the first four applies.
fn judge_unpinched(
    alloc: Global,
    feature: &Feature,
    layer: &Layer,
    table: &EdgeTable,
    floors: &Floors,
) -> Result<Option<Breach>, ValidFault>
    requires few { point_count feature.now ≤ most_points }
    requires unpinched { IsUnpinched feature.now.polygons }
    requires few_pieces { HasFewPieces feature.now.polygons }
    requires of_rings { table.now ≡ ring_table feature.now.polygons }
    requires all_ends { AllEnds table.now }
    requires all_even { AllEven table.now }
    requires apart { NoConflict table.now }
    requires as_many { length layer.now ≡ length (feature_rings feature.now.polygons) }
    requires features { feature_count table.now ≤ length layer.now }
    requires swept { AreFloors table.now floors.now }
    ensures breach { IfOk result (λ breach. IsBreachOf next_at face_at feature.now.polygons (told breach)) }
    ensures few_covers { IfOk result (λ _. IsFew table.now) }
    ensures refused { IfErr result (IsRefusedLegend table.now) }
{
    let homes = homes_of(alloc, feature.rings())?;
    let legend = legend_of_rings(alloc, layer, table, floors)?;
    judge_lists(alloc, feature, &homes, table, &legend)
}

// The first breach of a feature to which none of the first four applies, by the lists above the edges of its rings.
fn judge_lists(
    alloc: Global,
    feature: &Feature,
    homes: &[u32],
    table: &EdgeTable,
    legend: &Legend,
) -> Result<Option<Breach>, ValidFault>
    requires few { point_count feature.now ≤ most_points }
    requires unpinched { IsUnpinched feature.now.polygons }
    requires few_pieces { HasFewPieces feature.now.polygons }
    requires of_rings { table.now ≡ ring_table feature.now.polygons }
    requires all_even { AllEven table.now }
    requires laid_out { IsLaidOut feature.now.polygons homes.now table.now legend.now }
    ensures breach { IfOk result (λ breach. IsBreachOf next_at face_at feature.now.polygons (told breach)) }
    ensures refused { IfErr result IsNoMemory }
{
    let rings = feature.rings();
    // There are at most 2^28 rings, and as many polygons.
    let _rings = rings.len();
    let _polygons = rings.polygons();
    if let Some((ring, _)) = first_misplaced(Fault::Outside, rings, homes, table, legend) {
        return Ok(Some(Breach::Outside { ring: ring + 1 }));
    }
    if let Some((ring, inside)) = first_misplaced(Fault::Nested, rings, homes, table, legend) {
        return Ok(Some(Breach::Nested {
            ring: ring + 1,
            inside: inside + 1,
        }));
    }
    if let Some((polygon, parts)) = first_parted(alloc, feature)? {
        return Ok(Some(Breach::Parts {
            polygon: polygon + 1,
            parts,
        }));
    }
    match first_overlap(alloc, rings, homes, table, legend)? {
        Some((polygon, other)) => Ok(Some(Breach::Overlap {
            polygon: polygon + 1,
            other: other + 1,
        })),
        None => Ok(None),
    }
}
