// The edges that the sweep line meets at one corner after another, in a table in which no two edges conflict.

ghost use Rattle.std.specs.Prelude.{◌≡◌, ◌+◌, ◌-◌, ◌<◌, ◌≤◌, ◌^◌, IsTrue, not, length, OnOk};
ghost use Rattle.loc_spec_plane.specs.Lists.{is_in};
ghost use Rattle.loc_spec_plane.specs.Tables.{NoConflict, hi_of, lo_of};
ghost use Rattle.loc_spec_plane.specs.Places.{IsVersion};
ghost use Rattle.loc_status.specs.Lists.{is_chain_at};
ghost use Rattle.loc_status.specs.Meaning.{Inserts, Removes};
ghost use Rattle.loc_sweep.specs.Course.{Comes, IsBefore, Leaves};
ghost use Rattle.loc_sweep.specs.Line.{IsBegun, IsChainOf, IsWith, IsWithout, goes_past};

use loc_edges::EdgeTable;
use loc_status::{InsertFault, Status, VecStatus};
use std::alloc::AllocError;

// Takes an edge out where it ends.
fn leave(table: &EdgeTable, status: &mut VecStatus, edge: u32) -> Result<(), AllocError>
    requires apart { NoConflict table.now }
    requires in_range { edge < length table.now.ends }
    requires chain { IsTrue (is_chain_at table.now (hi_of table.now edge - 1) status.old.list) }
    requires listed { IsTrue (is_in edge status.old.list) }
    requires few { status.old.removed < 2 ^ 26 }
    ensures gone { OnOk result (Removes edge status.old status.new) }
    ensures chain { OnOk result (IsTrue (is_chain_at table.now (hi_of table.now edge - 1) status.new.list)) }
    ensures others { OnOk result (IsWithout edge status.old.list status.new.list) }
{
    status.remove(&table.ranks(), edge)?;
    Ok(())
}

// Takes out the edges that end at a corner.
fn leave_all(table: &EdgeTable, status: &mut VecStatus, corner: u32) -> Result<(), AllocError>
    requires apart { NoConflict table.now }
    requires in_range { corner < length table.now.corners }
    requires before { IsBefore table.now corner status.old }
    ensures { OnOk result (Leaves table.now corner status.old status.new) }
{
    table.law();
    for edge in table.ending(corner) {
        leave(table, status, *edge)?;
    }
    Ok(())
}

// Puts an edge in where it begins.
fn come(table: &EdgeTable, status: &mut VecStatus, edge: u32) -> Result<(), AllocError>
    requires apart { NoConflict table.now }
    requires in_range { edge < length table.now.ends }
    requires chain { IsTrue (is_chain_at table.now (lo_of table.now edge) status.old.list) }
    requires is_new { IsTrue (not (is_in edge status.old.list)) }
    requires few { status.old.inserted < 2 ^ 26 }
    ensures here { OnOk result (Inserts table.now edge status.old status.new) }
    ensures chain { OnOk result (IsTrue (is_chain_at table.now (lo_of table.now edge) status.new.list)) }
    ensures others { OnOk result (IsWith edge status.old.list status.new.list) }
{
    table.law();
    match status.insert(&table.ranks(), edge) {
        Ok(_) => Ok(()),
        Err(InsertFault::Hits { .. }) => unreachable!(),
        Err(InsertFault::NoMemory) => Err(AllocError),
    }
}

// Puts in the edges that begin at a corner.
fn come_all(table: &EdgeTable, status: &mut VecStatus, corner: u32) -> Result<(), AllocError>
    requires apart { NoConflict table.now }
    requires in_range { corner < length table.now.corners }
    requires line { IsChainOf table.now corner (goes_past table.now corner) status.old.list }
    requires begun { IsBegun table.now corner status.old.inserted }
    requires greatest { status.old.past_greatest ≤ length table.now.ends }
    ensures { OnOk result (Comes table.now corner status.old status.new) }
{
    table.law();
    let (first, past) = table.beginning(corner);
    for edge in first..past {
        come(table, status, edge)?;
    }
    Ok(())
}

// Goes on to a corner: the list is then the version there.
pub(crate) fn go_to(
    table: &EdgeTable,
    status: &mut VecStatus,
    corner: u32,
) -> Result<(), AllocError>
    requires apart { NoConflict table.now }
    requires in_range { corner < length table.now.corners }
    requires before { IsBefore table.now corner status.old }
    ensures next { OnOk result (IsBefore table.now (corner + 1) status.new) }
    ensures version { OnOk result (IsVersion table.now corner status.new.list) }
{
    table.law();
    leave_all(table, status, corner)?;
    come_all(table, status, corner)
}
