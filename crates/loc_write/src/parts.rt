// The parts of a file, row by row from the tables.

ghost use Rattle.std.specs.Prelude.{◌≡◌, ◌≤◌, ◌<◌, ◌++◌, ◌∷◌, [], ℕ, List, All, OnOk, true, false, length, map, sum_by, get_or};
ghost use Rattle.std.specs.List.{flat_map};
ghost use Rattle.loc_spec_plane.specs.declared.Mark.{Mark as MarkOf};
ghost use Rattle.loc_spec_index.specs.declared.NodeRow.{NodeRow as RowOf};
ghost use Rattle.loc_spec_index.specs.IndexFile.{none_or_next};
ghost use Rattle.loc_cover.specs.Legends.{FitsTable};
ghost use Rattle.loc_persist.specs.ByNumber.{AreRowsByNumber, AreRootsByNumber};
ghost use Rattle.loc_page.specs.Making.{PutsBytes};
ghost use Rattle.loc_write.specs.Bytes.{id_bytes, corner_bytes, edge_bytes, mark_bytes, cover_bytes, number_bytes, node_bytes};
ghost use Rattle.loc_write.specs.Written.{edge_rows, marks_from};
ghost use Rattle.loc_spec_text.specs.Limits.{most_id_bytes, most_members, most_pieces};

use crate::rows::{corner_row, edge_row, floor_number, id_row, mark_row, node_row, number_row};
use loc_cover::Legend;
use loc_edges::{EdgeTable, Mark};
use loc_io::{Shelf, WriteFault};
use loc_page::FilePage;
use loc_persist::Versions;
use loc_spec_index::NodeRow;

// The ids.
pub(crate) fn put_ids<F: Shelf>(
    page: &mut FilePage,
    shelf: &mut F,
    legend: &Legend,
) -> Result<(), WriteFault>
    requires making { (F.meaning shelf.old).is_making ≡ true }
    requires short { All (λ (id : List ℕ). length id ≤ most_id_bytes) legend.now.ids }
    ensures put { PutsBytes (flat_map id_bytes legend.now.ids) (F.meaning shelf.old) (F.meaning shelf.new) page.old page.new result }
    ensures making { OnOk result ((F.meaning shelf.new).is_making ≡ true) }
{
    for feature in 0..legend.features() {
        let row = id_row(legend.id(feature));
        page.put(shelf, row.as_slice())?;
    }
    Ok(())
}

// The corners.
pub(crate) fn put_corners<F: Shelf>(
    page: &mut FilePage,
    shelf: &mut F,
    table: &EdgeTable,
) -> Result<(), WriteFault>
    requires making { (F.meaning shelf.old).is_making ≡ true }
    ensures put { PutsBytes (flat_map corner_bytes table.now.corners) (F.meaning shelf.old) (F.meaning shelf.new) page.old page.new result }
    ensures making { OnOk result ((F.meaning shelf.new).is_making ≡ true) }
{
    for corner in 0..table.corner_count() {
        let row = corner_row(table.corner(corner));
        page.put(shelf, row.as_slice())?;
    }
    Ok(())
}

// The edges.
pub(crate) fn put_edges<F: Shelf>(
    page: &mut FilePage,
    shelf: &mut F,
    table: &EdgeTable,
    legend: &Legend,
) -> Result<(), WriteFault>
    requires making { (F.meaning shelf.old).is_making ≡ true }
    requires as_many { length legend.now.above ≡ length table.now.ends }
    requires sourced { length table.now.sources ≡ length table.now.ends }
    ensures put { PutsBytes (flat_map edge_bytes (edge_rows table.now.ends table.now.sources legend.now.above)) (F.meaning shelf.old) (F.meaning shelf.new) page.old page.new result }
    ensures making { OnOk result ((F.meaning shelf.new).is_making ≡ true) }
{
    for edge in 0..table.edge_count() {
        let row = edge_row(table.ends(edge), legend.cover_of(edge), table.source(edge));
        page.put(shelf, row.as_slice())?;
    }
    Ok(())
}

// How many marks all edges have.
pub(crate) fn count_marks(table: &EdgeTable) -> u32
    requires as_many { length table.now.marks ≡ length table.now.ends }
    requires few { sum_by length table.now.marks ≤ most_pieces }
    ensures { result ≡ sum_by length table.now.marks }
{
    let mut count = 0;
    for edge in 0..table.edge_count() {
        count += table.marks(edge).len() as u32;
    }
    count
}

// The marks of an edge.
fn put_edge_marks<F: Shelf>(
    page: &mut FilePage,
    shelf: &mut F,
    edge: u32,
    marks: &[Mark],
) -> Result<(), WriteFault>
    requires making { (F.meaning shelf.old).is_making ≡ true }
    ensures put { PutsBytes (flat_map mark_bytes (map (λ (m : MarkOf). (edge, m)) marks.now)) (F.meaning shelf.old) (F.meaning shelf.new) page.old page.new result }
    ensures making { OnOk result ((F.meaning shelf.new).is_making ≡ true) }
{
    for mark in marks {
        let row = mark_row(edge, *mark);
        page.put(shelf, row.as_slice())?;
    }
    Ok(())
}

// The marks of all edges.
pub(crate) fn put_marks<F: Shelf>(
    page: &mut FilePage,
    shelf: &mut F,
    table: &EdgeTable,
) -> Result<(), WriteFault>
    requires making { (F.meaning shelf.old).is_making ≡ true }
    requires as_many { length table.now.marks ≡ length table.now.ends }
    ensures put { PutsBytes (flat_map mark_bytes (marks_from 0 table.now.marks)) (F.meaning shelf.old) (F.meaning shelf.new) page.old page.new result }
    ensures making { OnOk result ((F.meaning shelf.new).is_making ≡ true) }
{
    for edge in 0..table.edge_count() {
        put_edge_marks(page, shelf, edge, table.marks(edge))?;
    }
    Ok(())
}

// Numbers, as the members of a cover list or roots.
pub(crate) fn put_numbers<F: Shelf>(
    page: &mut FilePage,
    shelf: &mut F,
    list: &[u32],
) -> Result<(), WriteFault>
    requires making { (F.meaning shelf.old).is_making ≡ true }
    ensures put { PutsBytes (flat_map number_bytes list.now) (F.meaning shelf.old) (F.meaning shelf.new) page.old page.new result }
    ensures making { OnOk result ((F.meaning shelf.new).is_making ≡ true) }
{
    for number in list {
        let row = number_row(*number);
        page.put(shelf, row.as_slice())?;
    }
    Ok(())
}

// A cover list behind its length.
fn put_cover<F: Shelf>(page: &mut FilePage, shelf: &mut F, list: &[u32]) -> Result<(), WriteFault>
    requires making { (F.meaning shelf.old).is_making ≡ true }
    requires short { length list.now ≤ most_members }
    ensures put { PutsBytes (cover_bytes list.now) (F.meaning shelf.old) (F.meaning shelf.new) page.old page.new result }
    ensures making { OnOk result ((F.meaning shelf.new).is_making ≡ true) }
{
    let row = number_row(list.len() as u32);
    page.put(shelf, row.as_slice())?;
    put_numbers(page, shelf, list)
}

// The cover lists.
pub(crate) fn put_covers<F: Shelf>(
    page: &mut FilePage,
    shelf: &mut F,
    legend: &Legend,
) -> Result<(), WriteFault>
    requires making { (F.meaning shelf.old).is_making ≡ true }
    requires short { All (λ (list : List ℕ). length list ≤ most_members) legend.now.lists }
    ensures put { PutsBytes (flat_map cover_bytes legend.now.lists) (F.meaning shelf.old) (F.meaning shelf.new) page.old page.new result }
    ensures making { OnOk result ((F.meaning shelf.new).is_making ≡ true) }
{
    for list in 0..legend.covers() {
        put_cover(page, shelf, legend.cover(list))?;
    }
    Ok(())
}

// The floors of the corners.
pub(crate) fn put_floors<F: Shelf>(
    page: &mut FilePage,
    shelf: &mut F,
    legend: &Legend,
    corners: u32,
) -> Result<(), WriteFault>
    requires making { (F.meaning shelf.old).is_making ≡ true }
    requires as_many { corners ≡ length legend.now.floors }
    requires small { All (λ floor. none_or_next floor ≤ most_pieces) legend.now.floors }
    ensures put { PutsBytes (flat_map (λ floor. number_bytes (none_or_next floor)) legend.now.floors) (F.meaning shelf.old) (F.meaning shelf.new) page.old page.new result }
    ensures making { OnOk result ((F.meaning shelf.new).is_making ≡ true) }
{
    for corner in 0..corners {
        let row = number_row(floor_number(legend.floor(corner)));
        page.put(shelf, row.as_slice())?;
    }
    Ok(())
}

// The roots of the sealed versions.
pub(crate) fn put_roots<F: Shelf>(
    page: &mut FilePage,
    shelf: &mut F,
    versions: &Versions,
) -> Result<(), WriteFault>
    requires making { (F.meaning shelf.old).is_making ≡ true }
    ensures put { (roots : List ℕ) → AreRootsByNumber versions.now.rows versions.now.roots roots → length roots ≡ length versions.now.roots
        → PutsBytes (flat_map number_bytes roots) (F.meaning shelf.old) (F.meaning shelf.new) page.old page.new result }
    ensures making { OnOk result ((F.meaning shelf.new).is_making ≡ true) }
{
    let _nodes = versions.nodes();
    for version in 0..versions.sealed() {
        let row = number_row(versions.root_number(version));
        page.put(shelf, row.as_slice())?;
    }
    Ok(())
}

// The nodes, in the order of their numbers.
pub(crate) fn put_nodes<F: Shelf>(
    page: &mut FilePage,
    shelf: &mut F,
    versions: &Versions,
) -> Result<(), WriteFault>
    requires making { (F.meaning shelf.old).is_making ≡ true }
    ensures put { (rows : List RowOf) → AreRowsByNumber versions.now.rows rows
        → PutsBytes (flat_map node_bytes rows) (F.meaning shelf.old) (F.meaning shelf.new) page.old page.new result }
    ensures making { OnOk result ((F.meaning shelf.new).is_making ≡ true) }
{
    for before in 0..versions.nodes() {
        let row = node_row(versions.row(before + 1));
        page.put(shelf, row.as_slice())?;
    }
    Ok(())
}

// Nodes.
pub(crate) fn put_node_rows<F: Shelf>(
    page: &mut FilePage,
    shelf: &mut F,
    nodes: &[NodeRow],
) -> Result<(), WriteFault>
    requires making { (F.meaning shelf.old).is_making ≡ true }
    ensures put { PutsBytes (flat_map node_bytes nodes.now) (F.meaning shelf.old) (F.meaning shelf.new) page.old page.new result }
    ensures making { OnOk result ((F.meaning shelf.new).is_making ≡ true) }
{
    for node in nodes {
        page.put(shelf, node_row(*node).as_slice())?;
    }
    Ok(())
}
