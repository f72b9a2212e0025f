// The writer of an index file whose roots and nodes are rows of a file.

ghost use Rattle.std.specs.Prelude.{◌≡◌, ◌<◌, ◌≤◌, ◌^◌, ℕ, List, All, OnOk, true, length, sum_by};
ghost use Rattle.loc_spec_plane.specs.Tables.{IsTable};
ghost use Rattle.loc_spec_index.specs.IndexFile.{bytes_of};
ghost use Rattle.loc_cover.specs.Legends.{FitsTable, IsSound};
ghost use Rattle.loc_page.specs.Making.{PutsBytes};
ghost use Rattle.loc_page.specs.Writing.{WritesFile};
ghost use Rattle.loc_write.specs.Written.{content_of};
ghost use Rattle.loc_spec_text.specs.Limits.{most_id_bytes, most_pieces};

use crate::parts::{put_node_rows, put_numbers};
use crate::writer::put_head;
use loc_cover::Legend;
use loc_edges::EdgeTable;
use loc_io::{Shelf, WriteFault};
use loc_page::FilePage;
use loc_spec_index::NodeRow;

// All parts, with these roots and nodes.
fn put_rows<F: Shelf>(
    page: &mut FilePage,
    shelf: &mut F,
    scale: u8,
    table: &EdgeTable,
    legend: &Legend,
    roots: &[u32],
    nodes: &[NodeRow],
) -> Result<(), WriteFault>
    requires making { (F.meaning shelf.old).is_making ≡ true }
    requires in_order { IsTable table.now }
    requires sound { IsSound legend.now }
    requires fits { FitsTable table.now legend.now }
    requires short { All (λ (id : List ℕ). length id ≤ most_id_bytes) legend.now.ids }
    requires few_marks { sum_by length table.now.marks ≤ most_pieces }
    requires few_nodes { length nodes.now < 2 ^ 32 }
    ensures put { PutsBytes (bytes_of 2 (content_of scale table.now legend.now roots.now nodes.now)) (F.meaning shelf.old) (F.meaning shelf.new) page.old page.new result }
    ensures making { OnOk result ((F.meaning shelf.new).is_making ≡ true) }
{
    put_head(page, shelf, scale, table, legend, nodes.len() as u32)?;
    put_numbers(page, shelf, roots)?;
    put_node_rows(page, shelf, nodes)
}

/// Makes a file of the bytes, of the second version, of a table, its legend, and these roots and nodes. That these are within their bounds is for
/// the caller to know. A `WriteFault` comes exactly where a call of the shelf failed; the file, where it is told, then holds a front of the bytes,
/// or is as before. No memory is taken.
pub fn write_rows<F: Shelf>(
    shelf: &mut F,
    name: &str,
    scale: u8,
    table: &EdgeTable,
    legend: &Legend,
    roots: &[u32],
    nodes: &[NodeRow],
) -> Result<(), WriteFault>
    requires fits { FitsTable table.now legend.now }
    requires short_ids { All (λ (id : List ℕ). length id ≤ most_id_bytes) legend.now.ids }
    requires few_marks { sum_by length table.now.marks ≤ most_pieces }
    requires few_nodes { length nodes.now < 2 ^ 32 }
    ensures { WritesFile name.now (bytes_of 2 (content_of scale table.now legend.now roots.now nodes.now)) (F.meaning shelf.old) (F.meaning shelf.new) result }
{
    table.law();
    legend.law();
    shelf.create(name)?;
    let mut page = FilePage::new();
    put_rows(&mut page, shelf, scale, table, legend, roots, nodes)?;
    page.flush(shelf)?;
    shelf.finish()?;
    Ok(())
}
