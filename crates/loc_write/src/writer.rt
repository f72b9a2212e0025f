// The writer of an index file.

ghost use Rattle.std.specs.Prelude.{◌≡◌, ◌≤◌, ◌*◌, ℕ, List, All, OnOk, true, false, length, sum_by};
ghost use Rattle.loc_spec_plane.specs.Covers.{feature_count};
ghost use Rattle.loc_spec_plane.specs.Tables.{IsTable};
ghost use Rattle.loc_spec_index.specs.Content.{Content};
ghost use Rattle.loc_spec_index.specs.IndexFile.{IsFileOf, bytes_of};
ghost use Rattle.loc_cover.specs.Legends.{FitsTable, IsSound};
ghost use Rattle.loc_page.specs.Making.{PutsBytes};
ghost use Rattle.loc_page.specs.Writing.{WritesFile};
ghost use Rattle.loc_write.specs.Texts.{front_text, head_text, list_text};
ghost use Rattle.loc_write.specs.Written.{IsContentOf};
ghost use Rattle.loc_spec_text.specs.Limits.{most_id_bytes, most_pieces};

use crate::facts::{corners_on_grid, nodes_numbered, roots_numbered};
use crate::parts::{
    count_marks, put_corners, put_covers, put_edges, put_floors, put_ids, put_marks, put_nodes,
    put_roots,
};
use crate::rows::{Counts, header_row};
use loc_cover::Legend;
use loc_edges::EdgeTable;
use loc_io::{Shelf, WriteFault};
use loc_page::FilePage;
use loc_persist::Versions;

// The ids, the corners, the edges and the marks.
fn put_front<F: Shelf>(
    page: &mut FilePage,
    shelf: &mut F,
    table: &EdgeTable,
    legend: &Legend,
) -> Result<(), WriteFault>
    requires making { (F.meaning shelf.old).is_making ≡ true }
    requires short { All (λ (id : List ℕ). length id ≤ most_id_bytes) legend.now.ids }
    requires as_many { length legend.now.above ≡ length table.now.ends }
    requires marked { length table.now.marks ≡ length table.now.ends }
    requires sourced { length table.now.sources ≡ length table.now.ends }
    ensures put { PutsBytes (front_text table.now legend.now) (F.meaning shelf.old) (F.meaning shelf.new) page.old page.new result }
    ensures making { OnOk result ((F.meaning shelf.new).is_making ≡ true) }
{
    put_ids(page, shelf, legend)?;
    put_corners(page, shelf, table)?;
    put_edges(page, shelf, table, legend)?;
    put_marks(page, shelf, table)
}

// The cover lists and the floors.
fn put_lists<F: Shelf>(
    page: &mut FilePage,
    shelf: &mut F,
    table: &EdgeTable,
    legend: &Legend,
) -> Result<(), WriteFault>
    requires making { (F.meaning shelf.old).is_making ≡ true }
    requires fits { FitsTable table.now legend.now }
    requires sound { IsSound legend.now }
    ensures put { PutsBytes (list_text legend.now) (F.meaning shelf.old) (F.meaning shelf.new) page.old page.new result }
    ensures making { OnOk result ((F.meaning shelf.new).is_making ≡ true) }
{
    put_covers(page, shelf, legend)?;
    put_floors(page, shelf, legend, table.corner_count())
}

// The header, and all parts but the roots and the nodes, of which there are so many.
pub(crate) fn put_head<F: Shelf>(
    page: &mut FilePage,
    shelf: &mut F,
    scale: u8,
    table: &EdgeTable,
    legend: &Legend,
    nodes: u32,
) -> Result<(), WriteFault>
    requires making { (F.meaning shelf.old).is_making ≡ true }
    requires in_order { IsTable table.now }
    requires sound { IsSound legend.now }
    requires fits { FitsTable table.now legend.now }
    requires short { All (λ (id : List ℕ). length id ≤ most_id_bytes) legend.now.ids }
    requires few_marks { sum_by length table.now.marks ≤ most_pieces }
    ensures put { PutsBytes (head_text scale table.now legend.now nodes) (F.meaning shelf.old) (F.meaning shelf.new) page.old page.new result }
    ensures making { OnOk result ((F.meaning shelf.new).is_making ≡ true) }
{
    let counts = Counts {
        features: legend.features(),
        corners: table.corner_count(),
        edges: table.edge_count(),
        marks: count_marks(table),
        covers: legend.covers(),
        nodes,
    };
    let header = header_row(scale, counts);
    page.put(shelf, header.as_slice())?;
    put_front(page, shelf, table, legend)?;
    put_lists(page, shelf, table, legend)
}

// All parts, with the roots and the nodes of versions.
fn put_parts<F: Shelf>(
    page: &mut FilePage,
    shelf: &mut F,
    scale: u8,
    table: &EdgeTable,
    legend: &Legend,
    versions: &Versions,
) -> Result<(), WriteFault>
    requires making { (F.meaning shelf.old).is_making ≡ true }
    requires in_order { IsTable table.now }
    requires sound { IsSound legend.now }
    requires fits { FitsTable table.now legend.now }
    requires short { All (λ (id : List ℕ). length id ≤ most_id_bytes) legend.now.ids }
    requires few_marks { sum_by length table.now.marks ≤ most_pieces }
    ensures put { (c : Content) → IsContentOf scale table.now legend.now versions.now c
        → PutsBytes (bytes_of 2 c) (F.meaning shelf.old) (F.meaning shelf.new) page.old page.new result }
    ensures making { OnOk result ((F.meaning shelf.new).is_making ≡ true) }
{
    put_head(page, shelf, scale, table, legend, versions.nodes())?;
    put_roots(page, shelf, versions)?;
    put_nodes(page, shelf, versions)
}

// Makes a file of all parts.
fn make_file<F: Shelf>(
    shelf: &mut F,
    name: &str,
    scale: u8,
    table: &EdgeTable,
    legend: &Legend,
    versions: &Versions,
) -> Result<(), WriteFault>
    requires in_order { IsTable table.now }
    requires sound { IsSound legend.now }
    requires fits { FitsTable table.now legend.now }
    requires short { All (λ (id : List ℕ). length id ≤ most_id_bytes) legend.now.ids }
    requires few_marks { sum_by length table.now.marks ≤ most_pieces }
    ensures { (c : Content) → IsContentOf scale table.now legend.now versions.now c
        → WritesFile name.now (bytes_of 2 c) (F.meaning shelf.old) (F.meaning shelf.new) result }
{
    shelf.create(name)?;
    let mut page = FilePage::new();
    put_parts(&mut page, shelf, scale, table, legend, versions)?;
    page.flush(shelf)?;
    shelf.finish()?;
    Ok(())
}

/// Makes the index file, of the second version, of a table, its legend and its versions, of which one is sealed for each corner. A `WriteFault`
/// comes exactly where a call of the shelf failed; the file, where it is told, then holds a front of the bytes, or is as before. No memory is taken.
pub fn write_index<F: Shelf>(
    shelf: &mut F,
    name: &str,
    scale: u8,
    table: &EdgeTable,
    legend: &Legend,
    versions: &Versions,
) -> Result<(), WriteFault>
    requires scale { scale ≤ 15 }
    requires fits { FitsTable table.now legend.now }
    requires short_ids { All (λ (id : List ℕ). length id ≤ most_id_bytes) legend.now.ids }
    requires features { feature_count table.now ≤ length legend.now.ids }
    requires few_edges { length table.now.ends ≤ most_pieces }
    requires few_marks { sum_by length table.now.marks ≤ most_pieces }
    requires as_many_versions { length versions.now.roots ≡ length table.now.corners }
    requires settled { versions.now.is_changed ≡ false }
    requires items { versions.now.past_greatest ≤ length table.now.ends }
    requires few_nodes { length versions.now.rows ≤ 24 * length table.now.ends }
    ensures { (c : Content) × IsContentOf scale table.now legend.now versions.now c × IsFileOf 2 c (bytes_of 2 c)
        × WritesFile name.now (bytes_of 2 c) (F.meaning shelf.old) (F.meaning shelf.new) result }
{
    table.law();
    legend.law();
    corners_on_grid(table);
    nodes_numbered(versions);
    roots_numbered(versions);
    make_file(shelf, name, scale, table, legend, versions)
}
