// The groups of a layer, dissolved.

ghost use Rattle.std.specs.Prelude.{◌≡◌, ◌*◌, ◌<◌, ◌≤◌, ◌==◌, ◌&&◌, [], ℕ, All, false, get_or, length, map, IfOk};
ghost use Rattle.std.specs.List.{list_any};
ghost use Rattle.loc_spec_text.specs.Limits.{most_features, most_pieces};
ghost use Rattle.loc_spec_plane.specs.Lists.{numbers};
ghost use Rattle.loc_spec_plane.specs.Tables.{AllEnds, AllEven, NoConflict, noded_table_of};
ghost use Rattle.loc_spec_plane.specs.Covers.{feature_count};
ghost use Rattle.loc_edges.specs.Layers.{layer_rings};
ghost use Rattle.loc_cover.specs.Legends.{FitsTable, IsTrueLegend};
ghost use Rattle.loc_half.specs.HalfEdgeLists.{AreHalfEdges, next_in};
ghost use Rattle.loc_faces.specs.FaceLists.{AreFaces, face_in};
ghost use Rattle.loc_faces.specs.Subdivision.{face_at, next_at};
ghost use Rattle.loc_spec_groups.specs.Groups.{covers_upper, dissolved, dissolved_group, group_polygons as group_polygons_of, group_table as group_table_of, kept_edges};
ghost use Rattle.loc_dissolve.specs.Dissolving.{CoversAsMembers, HasKeptOnce};
ghost use Rattle.loc_dissolve.specs.Grouping.{AreGroups, AreMembers, ids_of, in_group};

use crate::chosen::group_table;
use crate::groups::{Dissolved, Group, Polygon};
use crate::ids::group_ids;
use crate::kept::kept_rows;
use crate::polygons::polygons_of;
use crate::rows::{member_rows, occurrences};
use crate::subdivided::{Subdivided, subdivide};
use loc_cover::Legend;
use loc_edges::{EdgeTable, Rows};
use loc_faces::Faces;
use loc_laws_noding::noding_law;
use loc_rings::Layer;
use std::alloc::{AllocError, Global};

// Whether a group covers the upper side of an edge.
fn is_covered(
    table: &EdgeTable,
    legend: &Legend,
    groups: &[u32],
    members: &Rows<u32>,
    edge: u32,
    group: u32,
) -> bool
    requires features { feature_count table.now ≤ length groups.now }
    requires is_true { IsTrueLegend table.now legend.now }
    requires fits { FitsTable table.now legend.now }
    requires members { AreMembers groups.now legend.now.lists members.now }
    requires in_range { edge < length table.now.ends }
    ensures { result ≡ covers_upper table.now (in_group groups.now group) edge }
{
    table.law();
    legend.law();
    occurrences(members.row(legend.cover_of(edge) as usize), group) > 0
}

// Whether the group covers each face.
fn covered_faces(
    alloc: Global,
    table: &EdgeTable,
    legend: &Legend,
    groups: &[u32],
    members: &Rows<u32>,
    kept: &[u32],
    group: u32,
    faces: &Faces,
) -> Result<Vec<bool>, AllocError>
    requires features { feature_count table.now ≤ length groups.now }
    requires is_true { IsTrueLegend table.now legend.now }
    requires fits { FitsTable table.now legend.now }
    requires members { AreMembers groups.now legend.now.lists members.now }
    requires kept { All (λ e. e < length table.now.ends) kept.now }
    requires few { length kept.now ≤ most_pieces }
    requires halves { 2 * length kept.now ≤ length faces.now.of_half }
    requires within { (h : ℕ) → face_in faces.now h < faces.now.count }
    ensures as_many { IfOk result (λ covered. length covered.items ≡ faces.now.count) }
    ensures each { IfOk result (λ covered. (f : ℕ) → get_or covered.items f false ≡ list_any (λ k. (face_in faces.now (2 * k) == f) && covers_upper table.now (in_group groups.now group) (get_or kept.now k 0)) (numbers (length kept.now))) }
{
    let mut covered = vec![in alloc; false; faces.count() as usize]?;
    for (n, edge) in kept.iter().enumerate() {
        if is_covered(table, legend, groups, members, *edge, group) {
            covered[faces.face_of(2 * n as u32) as usize] = true;
        }
    }
    Ok(covered)
}

// The polygons of a group, from the edges that it keeps and its own table of them.
fn own_polygons(
    alloc: Global,
    own: &Subdivided,
    table: &EdgeTable,
    legend: &Legend,
    groups: &[u32],
    members: &Rows<u32>,
    kept: &[u32],
    group: u32,
) -> Result<Vec<Polygon>, AllocError>
    requires own { own.now.table ≡ group_table_of table.now (in_group groups.now group) }
    requires half { AreHalfEdges own.now.table own.now.half }
    requires faces { AreFaces own.now.table (next_in own.now.half) own.now.faces }
    requires all_ends { AllEnds table.now }
    requires all_even { AllEven table.now }
    requires apart { NoConflict table.now }
    requires features { feature_count table.now ≤ length groups.now }
    requires is_true { IsTrueLegend table.now legend.now }
    requires fits { FitsTable table.now legend.now }
    requires members { AreMembers groups.now legend.now.lists members.now }
    requires kept { kept.now ≡ kept_edges table.now (in_group groups.now group) }
    ensures polygons { IfOk result (λ polygons. polygons.items ≡ group_polygons_of table.now (in_group groups.now group) (next_at (group_table_of table.now (in_group groups.now group))) (face_at (group_table_of table.now (in_group groups.now group)))) }
{
    table.law();
    let covered = covered_faces(
        alloc, table, legend, groups, members, kept, group, &own.faces,
    )?;
    polygons_of(alloc, &own.table, &own.half, &own.faces, &covered)
}

// The polygons of a group, from the edges that it keeps.
fn group_polygons(
    alloc: Global,
    table: &EdgeTable,
    legend: &Legend,
    groups: &[u32],
    members: &Rows<u32>,
    kept: &[u32],
    group: u32,
) -> Result<Vec<Polygon>, AllocError>
    requires all_ends { AllEnds table.now }
    requires all_even { AllEven table.now }
    requires apart { NoConflict table.now }
    requires features { feature_count table.now ≤ length groups.now }
    requires is_true { IsTrueLegend table.now legend.now }
    requires fits { FitsTable table.now legend.now }
    requires members { AreMembers groups.now legend.now.lists members.now }
    requires kept { kept.now ≡ kept_edges table.now (in_group groups.now group) }
    ensures { IfOk result (λ polygons. polygons.items ≡ group_polygons_of table.now (in_group groups.now group) (next_at (group_table_of table.now (in_group groups.now group))) (face_at (group_table_of table.now (in_group groups.now group)))) }
{
    table.law();
    let own = subdivide(alloc, group_table(alloc, table, kept, groups, group)?)?;
    let polygons = own_polygons(alloc, &own, table, legend, groups, members, kept, group);
    drop(own);
    polygons
}

// The groups, each with the id of its first feature.
fn made_groups(
    alloc: Global,
    layer: &Layer,
    table: &EdgeTable,
    legend: &Legend,
    firsts: &[u32],
    groups: &[u32],
    members: &Rows<u32>,
    kept: &Rows<u32>,
) -> Result<Vec<Group>, AllocError>
    requires all_ends { AllEnds table.now }
    requires even { AllEven table.now }
    requires apart { NoConflict table.now }
    requires is_true { IsTrueLegend table.now legend.now }
    requires fits { FitsTable table.now legend.now }
    requires few { length firsts.now ≤ most_features }
    requires are { AreGroups (ids_of layer.now) firsts.now groups.now }
    requires features { feature_count table.now ≤ length groups.now }
    requires members { AreMembers groups.now legend.now.lists members.now }
    requires kept { kept.now ≡ map (λ g. kept_edges table.now (in_group groups.now g)) (numbers (length firsts.now)) }
    ensures made { IfOk result (λ made. made.items ≡ map (λ f. dissolved_group next_at face_at table.now (ids_of layer.now) (get_or (ids_of layer.now) f [])) firsts.now) }
{
    let mut made = Vec::with_capacity(alloc, firsts.len())?;
    for (n, first) in firsts.iter().enumerate() {
        let id = Vec::from_slice(alloc, layer.feature(*first as usize).id())?;
        let polygons = group_polygons(
            alloc,
            table,
            legend,
            groups,
            members,
            kept.row(n),
            n as u32,
        )?;
        made.push(Group::of(id, polygons))?;
    }
    Ok(made)
}

/// The groups of a layer.
pub fn dissolve(
    alloc: Global,
    layer: &Layer,
    table: &EdgeTable,
    legend: &Legend,
) -> Result<Dissolved, AllocError>
    requires table { table.now ≡ noded_table_of (layer_rings layer.now) }
    requires even { AllEven table.now }
    requires apart { NoConflict table.now }
    requires is_true { IsTrueLegend table.now legend.now }
    requires fits { FitsTable table.now legend.now }
    requires ids { legend.now.ids ≡ ids_of layer.now }
    ensures groups { IfOk result (λ groups. groups ≡ dissolved next_at face_at table.now (ids_of layer.now)) }
    ensures segments { IfOk result (All (HasKeptOnce table.now (ids_of layer.now))) }
    ensures covering { IfOk result (All (CoversAsMembers table.now layer.now)) }
{
    table.law();
    noding_law();
    let (firsts, groups) = group_ids(alloc, layer.features())?;
    let members = member_rows(alloc, legend, &groups)?;
    let kept = kept_rows(alloc, table, legend, &groups, &members, firsts.len() as u32)?;
    let made = made_groups(
        alloc, layer, table, legend, &firsts, &groups, &members, &kept,
    );
    drop(kept);
    drop(members);
    Ok(Dissolved::of(made?))
}
