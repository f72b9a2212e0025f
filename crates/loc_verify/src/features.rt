// Features that mark an odd number of the edges at a corner odd.

ghost use Rattle.std.specs.Prelude.{ℕ, ◌≡◌, ◌<◌, [], length, IsTrue, IfOk, OnOk};
ghost use Rattle.std.specs.List.Sorted.{IsNonDecreasingBy};
ghost use Rattle.loc_spec_plane.specs.Lists.{exactly_one, is_rising, odd_many};
ghost use Rattle.loc_spec_plane.specs.Tables.{edge_numbers, has_odd, hi_of, lo_of, mark_before};
ghost use Rattle.loc_cover.specs.Exchanges.{is_marked_odd};
ghost use Rattle.loc_verify.specs.Least.{IsLeastOdd, IsLeastUneven, has_odd_from, is_odd_at, is_odd_in};

use loc_edges::EdgeTable;
use loc_spec_plane::Mark;
use std::alloc::{AllocError, Global};

// Puts the features of the odd marks behind others.
fn add_odd(row: &mut Vec<u32>, marks: &[Mark]) -> Result<(), AllocError>
    requires { IsTrue (is_rising mark_before marks.now) }
    ensures { OnOk result ((f : ℕ) → is_odd_in f row.new.items ≡ exactly_one (is_odd_in f row.old.items) (is_marked_odd marks.now f)) }
{
    for mark in marks {
        if mark.odd {
            row.push(mark.feature)?;
        }
    }
    Ok(())
}

// Adds those of the edges that begin at a corner.
fn add_beginning(row: &mut Vec<u32>, table: &EdgeTable, corner: u32) -> Result<(), AllocError>
    requires { corner < length table.now.corners }
    ensures { OnOk result ((f : ℕ) → is_odd_in f row.new.items ≡ exactly_one (is_odd_in f row.old.items) (odd_many (has_odd_from table.now lo_of corner f) (edge_numbers table.now))) }
{
    let (first, past) = table.beginning(corner);
    for edge in first..past {
        add_odd(row, table.marks(edge))?;
    }
    Ok(())
}

// Adds those of the edges that end at a corner.
fn add_ending(row: &mut Vec<u32>, table: &EdgeTable, corner: u32) -> Result<(), AllocError>
    requires { corner < length table.now.corners }
    ensures { OnOk result ((f : ℕ) → is_odd_in f row.new.items ≡ exactly_one (is_odd_in f row.old.items) (odd_many (has_odd_from table.now hi_of corner f) (edge_numbers table.now))) }
{
    for edge in table.ending(corner) {
        add_odd(row, table.marks(*edge))?;
    }
    Ok(())
}

// Puts the features of all odd marks at a corner into a row, in order.
fn put_corner(row: &mut Vec<u32>, table: &EdgeTable, corner: u32) -> Result<(), AllocError>
    requires { corner < length table.now.corners }
    ensures odd { OnOk result ((f : ℕ) → is_odd_in f row.new.items ≡ is_odd_at table.now corner f) }
    ensures in_order { OnOk result (IsNonDecreasingBy (λ f. f) row.new.items) }
{
    table.law();
    row.clear();
    add_beginning(row, table, corner)?;
    add_ending(row, table, corner)?;
    row.sort_unstable();
    Ok(())
}

// The least number that stands an odd number of times in a list in order.
fn least_odd(row: &[u32]) -> Option<u32>
    requires { IsNonDecreasingBy (λ f. f) row.now }
    ensures { IsLeastOdd row.now result }
{
    let mut odd = None;
    for feature in row {
        odd = match odd {
            None => Some(*feature),
            Some(last) if last == *feature => None,
            Some(last) => return Some(last),
        };
    }
    odd
}

// The least corner at which a feature is uneven, and the least feature there.
pub(crate) fn least_uneven(
    alloc: Global,
    table: &EdgeTable,
) -> Result<Option<(u32, u32)>, AllocError>
    ensures { IfOk result (IsLeastUneven table.now) }
{
    let mut row = Vec::new(alloc);
    for corner in 0..table.corner_count() {
        put_corner(&mut row, table, corner)?;
        if let Some(feature) = least_odd(&row) {
            return Ok(Some((corner, feature)));
        }
    }
    Ok(None)
}
