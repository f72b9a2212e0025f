// The features that touch each corner and each edge, by the marks.

ghost use Rattle.std.specs.Prelude.{◌≡◌, ℕ, ◌<◌, ◌++◌, ◌&&◌, ◌||◌, ◌==◌, [], length, get_or, map, nat_lt, IsTrue, IfOk, OnOk};
ghost use Rattle.std.specs.List.{list_any};
ghost use Rattle.loc_spec_plane.specs.declared.Mark.{Mark as MarkOf};
ghost use Rattle.loc_spec_plane.specs.Lists.{is_in, is_rising, IsRisingListOf};
ghost use Rattle.loc_spec_plane.specs.Tables.{edge_numbers, has, hi_of, lo_of, mark_before};
ghost use Rattle.loc_spec_plane.specs.Covers.{has_at};

use loc_edges::{EdgeTable, Rows};
use loc_spec_plane::Mark;
use std::alloc::{AllocError, Global};

// Puts the features of marks behind others.
fn add_features(row: &mut Vec<u32>, marks: &[Mark]) -> Result<(), AllocError>
    ensures { OnOk result (row.new.items ≡ row.old.items ++ map (λ (m : MarkOf). m.feature) marks.now) }
{
    for mark in marks {
        row.push(mark.feature)?;
    }
    Ok(())
}

// Adds the features that have an edge that begins at a corner.
fn add_beginning(row: &mut Vec<u32>, table: &EdgeTable, corner: u32) -> Result<(), AllocError>
    requires { corner < length table.now.corners }
    ensures { OnOk result ((f : ℕ) → is_in f row.new.items ≡ (is_in f row.old.items || list_any (λ e. (lo_of table.now e == corner) && has table.now f e) (edge_numbers table.now))) }
{
    let (first, past) = table.beginning(corner);
    for edge in first..past {
        add_features(row, table.marks(edge))?;
    }
    Ok(())
}

// Adds the features that have an edge that ends at a corner.
fn add_ending(row: &mut Vec<u32>, table: &EdgeTable, corner: u32) -> Result<(), AllocError>
    requires { corner < length table.now.corners }
    ensures { OnOk result ((f : ℕ) → is_in f row.new.items ≡ (is_in f row.old.items || list_any (λ e. (hi_of table.now e == corner) && has table.now f e) (edge_numbers table.now))) }
{
    for edge in table.ending(corner) {
        add_features(row, table.marks(*edge))?;
    }
    Ok(())
}

// Puts the features that touch a corner into a row, in place of others.
fn put_corner(row: &mut Vec<u32>, table: &EdgeTable, corner: u32) -> Result<(), AllocError>
    requires { corner < length table.now.corners }
    ensures { OnOk result (IsRisingListOf nat_lt (has_at table.now corner) row.new.items) }
{
    row.clear();
    add_beginning(row, table, corner)?;
    add_ending(row, table, corner)?;
    row.sort_unstable();
    row.dedup();
    Ok(())
}

// Puts the features of marks into a row, in place of others.
fn put_features(row: &mut Vec<u32>, marks: &[Mark]) -> Result<(), AllocError>
    requires in_order { IsTrue (is_rising mark_before marks.now) }
    ensures { OnOk result (IsRisingListOf nat_lt (λ f. list_any (λ (m : MarkOf). m.feature == f) marks.now) row.new.items) }
{
    row.clear();
    add_features(row, marks)?;
    Ok(())
}

// The features that touch each corner.
pub(crate) fn touching_corners(alloc: Global, table: &EdgeTable) -> Result<Rows<u32>, AllocError>
    ensures as_many { IfOk result (λ rows. length rows ≡ length table.now.corners) }
    ensures each { IfOk result (λ rows. (c : ℕ) → c < length table.now.corners → IsRisingListOf nat_lt (has_at table.now c) (get_or rows c [])) }
{
    let mut rows = Rows::new(alloc);
    let mut row = Vec::new(alloc);
    for corner in 0..table.corner_count() {
        put_corner(&mut row, table, corner)?;
        rows.push(&row)?;
    }
    Ok(rows)
}

// The features that touch each edge.
pub(crate) fn touching_edges(alloc: Global, table: &EdgeTable) -> Result<Rows<u32>, AllocError>
    ensures as_many { IfOk result (λ rows. length rows ≡ length table.now.ends) }
    ensures each { IfOk result (λ rows. (e : ℕ) → e < length table.now.ends → IsRisingListOf nat_lt (λ f. has table.now f e) (get_or rows e [])) }
{
    let mut rows = Rows::new(alloc);
    let mut row = Vec::new(alloc);
    for edge in 0..table.edge_count() {
        put_features(&mut row, table.marks(edge))?;
        rows.push(&row)?;
    }
    Ok(rows)
}
