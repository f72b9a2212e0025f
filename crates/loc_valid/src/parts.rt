// How many parts the inside of a polygon has.

ghost use Rattle.std.specs.Prelude.{◌≡◌, ℕ, ◌<◌, ◌≤◌, ◌^◌, ◌*◌, ◌-◌, ◌∷◌, ◌==◌, ◌&&◌, [], false, count_by, length, get_or, IfOk, IfErr, IfSome};
ghost use Rattle.std.specs.List.{list_any, range_with_len};
ghost use Rattle.loc_spec_plane.specs.Covers.{cover_above, feature_count};
ghost use Rattle.loc_spec_plane.specs.Lists.{is_in};
ghost use Rattle.loc_spec_plane.specs.HalfEdges.{half_edge_count};
ghost use Rattle.loc_spec_plane.specs.Tables.{AllEnds, AllEven, NoConflict, edge_numbers, noded_table_of, piece_count};
ghost use Rattle.loc_spec_valid.specs.Breaches.{part_count, polygon_table};
ghost use Rattle.loc_edges.specs.Floors.{AreFloors};
ghost use Rattle.loc_edges.specs.Layers.{layer_rings};
ghost use Rattle.loc_spec_text.specs.Limits.{most_pieces, most_points};
ghost use Rattle.loc_rings.specs.Layers.{point_count};
ghost use Rattle.loc_cover.specs.Legends.{IsTrueLegend, FitsTable as FitsLegend};
ghost use Rattle.loc_faces.specs.FaceLists.{FitsTable as FitsFaces, face_in};
ghost use Rattle.loc_faces.specs.Subdivision.{face_at, next_at};
ghost use Rattle.loc_valid.specs.Judged.{IsNoMemory};

use crate::fault::ValidFault;
use crate::sweeping::swept_floors;
use loc_cover::{Legend, LegendFault};
use loc_edges::{EdgeTable, Floors};
use loc_faces::Faces;
use loc_half::HalfEdges;
use loc_node::{NodeFault, node};
use loc_rings::{Feature, Layer};
use loc_sweep::SweepFault;
use std::alloc::{AllocError, Global};

// The floors of a table in which no two edges conflict.
fn floors_of(alloc: Global, table: &EdgeTable) -> Result<Floors, ValidFault>
    requires { NoConflict table.now }
    ensures floors { IfOk result (AreFloors table.now) }
    ensures refused { IfErr result IsNoMemory }
{
    match swept_floors(alloc, table) {
        Ok(floors) => Ok(floors),
        Err(SweepFault::Conflict { .. }) => unreachable!(),
        Err(SweepFault::NoMemory) => Err(ValidFault::NoMemory),
    }
}

// The plain table of a layer and its floors, where no two of its edges conflict. Then it is the noded one.
fn plain_swept(alloc: Global, layer: &Layer) -> Result<Option<(EdgeTable, Floors)>, ValidFault>
    ensures table { IfOk result (λ found. IfSome found (λ made. made.0 ≡ noded_table_of (layer_rings layer.now))) }
    ensures all_ends { IfOk result (λ found. IfSome found (λ made. AllEnds made.0)) }
    ensures all_even { IfOk result (λ found. IfSome found (λ made. AllEven made.0)) }
    ensures features { IfOk result (λ found. IfSome found (λ made. feature_count made.0 ≤ length layer.now)) }
    ensures floors { IfOk result (λ found. IfSome found (λ made. AreFloors made.0 made.1)) }
    ensures refused { IfErr result IsNoMemory }
{
    let table = EdgeTable::make(alloc, layer)?;
    match swept_floors(alloc, &table) {
        Ok(floors) => Ok(Some((table, floors))),
        Err(SweepFault::Conflict { .. }) => Ok(None),
        Err(SweepFault::NoMemory) => Err(ValidFault::NoMemory),
    }
}

// The noded table of a layer and its floors.
fn noded_swept(alloc: Global, layer: &Layer) -> Result<(EdgeTable, Floors), ValidFault>
    requires few_pieces { piece_count (layer_rings layer.now) ≤ most_pieces }
    requires apart { NoConflict (noded_table_of (layer_rings layer.now)) }
    ensures table { IfOk result (λ made. made.0 ≡ noded_table_of (layer_rings layer.now)) }
    ensures all_ends { IfOk result (λ made. AllEnds made.0) }
    ensures all_even { IfOk result (λ made. AllEven made.0) }
    ensures features { IfOk result (λ made. feature_count made.0 ≤ length layer.now) }
    ensures floors { IfOk result (λ made. AreFloors made.0 made.1) }
    ensures refused { IfErr result IsNoMemory }
{
    let table = match node(alloc, layer) {
        Ok(table) => table,
        Err(NodeFault::ManyPieces) => unreachable!(),
        Err(NodeFault::NoMemory) => return Err(ValidFault::NoMemory),
    };
    let floors = floors_of(alloc, &table)?;
    Ok((table, floors))
}

// The noded table of a layer and its floors, by the plain table where that is the noded one.
fn swept_table(alloc: Global, layer: &Layer) -> Result<(EdgeTable, Floors), ValidFault>
    requires few_pieces { piece_count (layer_rings layer.now) ≤ most_pieces }
    requires apart { NoConflict (noded_table_of (layer_rings layer.now)) }
    ensures table { IfOk result (λ made. made.0 ≡ noded_table_of (layer_rings layer.now)) }
    ensures all_ends { IfOk result (λ made. AllEnds made.0) }
    ensures all_even { IfOk result (λ made. AllEven made.0) }
    ensures features { IfOk result (λ made. feature_count made.0 ≤ length layer.now) }
    ensures floors { IfOk result (λ made. AreFloors made.0 made.1) }
    ensures refused { IfErr result IsNoMemory }
{
    match plain_swept(alloc, layer)? {
        Some(made) => Ok(made),
        None => noded_swept(alloc, layer),
    }
}

// The legend of the table of one feature, whose cover lists have at most one member each.
fn legend_of_one(
    alloc: Global,
    layer: &Layer,
    table: &EdgeTable,
    floors: &Floors,
) -> Result<Legend, ValidFault>
    requires all_ends { AllEnds table.now }
    requires all_even { AllEven table.now }
    requires apart { NoConflict table.now }
    requires one_feature { feature_count table.now ≤ 1 }
    requires one_layer { length layer.now ≡ 1 }
    requires swept { AreFloors table.now floors.now }
    ensures fits { IfOk result (FitsLegend table.now) }
    ensures is_true { IfOk result (IsTrueLegend table.now) }
    ensures refused { IfErr result IsNoMemory }
{
    table.law();
    match Legend::make(alloc, layer, table, floors) {
        Ok(legend) => Ok(legend),
        Err(LegendFault::ManyCovers) => unreachable!(),
        Err(LegendFault::NoMemory) => Err(ValidFault::NoMemory),
    }
}

// How many of the faces from 1 on are covered.
fn count_covered(covered: &[bool]) -> u32
    requires some { 0 < length covered.now }
    requires few { length covered.now < 2 ^ 31 }
    ensures { result ≡ count_by (λ f. get_or covered.now f false) (range_with_len 1 (length covered.now - 1)) }
{
    let mut parts = 0;
    for face in 1..covered.len() {
        if covered[face] {
            parts += 1;
        }
    }
    parts
}

// For each face whether it has the upper side of an edge above which the one feature is.
fn covered_faces(
    alloc: Global,
    table: &EdgeTable,
    legend: &Legend,
    faces: &Faces,
) -> Result<Vec<bool>, AllocError>
    requires fits { FitsLegend table.now legend.now }
    requires is_true { IsTrueLegend table.now legend.now }
    requires as_many { length faces.now.of_half ≡ half_edge_count table.now }
    requires within { (h : ℕ) → face_in faces.now h < faces.now.count }
    ensures as_many { IfOk result (λ covered. length covered.items ≡ faces.now.count) }
    ensures covered { IfOk result (λ covered. (f : ℕ) → f < faces.now.count → get_or covered.items f false ≡ list_any (λ e. (face_in faces.now (2 * e) == f) && is_in 0 (cover_above table.now e)) (edge_numbers table.now)) }
{
    table.law();
    legend.law();
    let mut covered = vec![in alloc; false; faces.count() as usize]?;
    for edge in 0..table.edge_count() {
        if legend.above(edge).contains(&0) {
            covered[faces.face_of(2 * edge) as usize] = true;
        }
    }
    Ok(covered)
}

// For each face of the table of one feature whether it has the upper side of an edge above which the feature is.
fn covered_of_one(
    alloc: Global,
    layer: &Layer,
    table: &EdgeTable,
    floors: &Floors,
    faces: &Faces,
) -> Result<Vec<bool>, ValidFault>
    requires all_ends { AllEnds table.now }
    requires all_even { AllEven table.now }
    requires apart { NoConflict table.now }
    requires one_feature { feature_count table.now ≤ 1 }
    requires one_layer { length layer.now ≡ 1 }
    requires swept { AreFloors table.now floors.now }
    requires fits { FitsFaces table.now faces.now }
    ensures as_many { IfOk result (λ covered. length covered.items ≡ faces.now.count) }
    ensures covered { IfOk result (λ covered. (f : ℕ) → f < faces.now.count → get_or covered.items f false ≡ list_any (λ e. (face_in faces.now (2 * e) == f) && is_in 0 (cover_above table.now e)) (edge_numbers table.now)) }
    ensures refused { IfErr result IsNoMemory }
{
    let legend = legend_of_one(alloc, layer, table, floors)?;
    let covered = covered_faces(alloc, table, &legend, faces)?;
    Ok(covered)
}

// The faces of a table, by half-edges of its own.
fn faces_of(alloc: Global, table: &EdgeTable, floors: &Floors) -> Result<Faces, AllocError>
    requires apart { NoConflict table.now }
    requires swept { AreFloors table.now floors.now }
    ensures { IfOk result (FitsFaces table.now) }
{
    let half = HalfEdges::make(alloc, table)?;
    Faces::make(alloc, table, &half, floors)
}

// How many parts the inside of the one feature of a layer has, by its table and the floors of that.
fn count_parts(
    alloc: Global,
    layer: &Layer,
    table: &EdgeTable,
    floors: &Floors,
) -> Result<u32, ValidFault>
    requires all_ends { AllEnds table.now }
    requires all_even { AllEven table.now }
    requires apart { NoConflict table.now }
    requires one_feature { feature_count table.now ≤ 1 }
    requires one_layer { length layer.now ≡ 1 }
    requires swept { AreFloors table.now floors.now }
    ensures parts { IfOk result (λ parts. parts ≡ part_count table.now (next_at table.now) (face_at table.now)) }
    ensures refused { IfErr result IsNoMemory }
{
    table.law();
    let faces = faces_of(alloc, table, floors)?;
    let covered = covered_of_one(alloc, layer, table, floors, &faces)?;
    Ok(count_covered(&covered))
}

// How many parts the inside of the one feature of a layer has, where no two edges of its noded table conflict.
fn parts_of_layer(alloc: Global, layer: &Layer) -> Result<u32, ValidFault>
    requires one_layer { length layer.now ≡ 1 }
    requires few_pieces { piece_count (layer_rings layer.now) ≤ most_pieces }
    requires apart { NoConflict (noded_table_of (layer_rings layer.now)) }
    ensures parts { IfOk result (λ parts. parts ≡ part_count (noded_table_of (layer_rings layer.now)) (next_at (noded_table_of (layer_rings layer.now))) (face_at (noded_table_of (layer_rings layer.now)))) }
    ensures refused { IfErr result IsNoMemory }
{
    let (table, floors) = swept_table(alloc, layer)?;
    count_parts(alloc, layer, &table, &floors)
}

/// How many parts the inside of polygon n has, where no two edges of its table conflict.
pub(crate) fn parts_of(alloc: Global, feature: &Feature, n: u32) -> Result<u32, ValidFault>
    requires few { point_count feature.now ≤ most_points }
    requires in_range { n < length feature.now.polygons }
    requires few_pieces { piece_count (get_or feature.now.polygons n [] ∷ []) ≤ most_pieces }
    requires apart { NoConflict (polygon_table feature.now.polygons n) }
    ensures parts { IfOk result (λ parts. parts ≡ part_count (polygon_table feature.now.polygons n) (next_at (polygon_table feature.now.polygons n)) (face_at (polygon_table feature.now.polygons n))) }
    ensures refused { IfErr result IsNoMemory }
{
    let layer = Layer::of_polygon(alloc, feature, n)?;
    parts_of_layer(alloc, &layer)
}
