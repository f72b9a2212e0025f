// The edges that end at a corner.

ghost use Rattle.std.specs.Prelude.{◌-◌, ◌<◌, ◌≤◌, ◌^◌, IsTrue, length, IfOk, IfErr, OnOk};
ghost use Rattle.loc_spec_plane.specs.Lists.{is_in};
ghost use Rattle.loc_spec_plane.specs.Tables.{hi_of};
ghost use Rattle.loc_status.specs.Lists.{is_chain_at, IsBeside};
ghost use Rattle.loc_status.specs.Meaning.{Removes};
ghost use Rattle.loc_sweep.specs.Course.{IsBefore, Leaves, LiesAbove};
ghost use Rattle.loc_sweep.specs.Line.{IsWithout};
ghost use Rattle.loc_sweep.specs.Swept.{IsShown};

use crate::SweepFault;
use crate::neighbours::test_both;
use loc_edges::EdgeTable;
use loc_status::{Beside, Status};

// Takes an edge out where it ends, tests the two between which it stood, and tells them.
fn leave<S: Status>(table: &EdgeTable, status: &mut S, edge: u32) -> Result<Beside, SweepFault>
    requires in_range { edge < length table.now.ends }
    requires chain { IsTrue (is_chain_at table.now (hi_of table.now edge - 1) (S.meaning status.old).list) }
    requires listed { IsTrue (is_in edge (S.meaning status.old).list) }
    requires few { (S.meaning status.old).removed < 2 ^ 26 }
    ensures gone { OnOk result (Removes edge (S.meaning status.old) (S.meaning status.new)) }
    ensures chain { OnOk result (IsTrue (is_chain_at table.now (hi_of table.now edge - 1) (S.meaning status.new).list)) }
    ensures others { OnOk result (IsWithout edge (S.meaning status.old).list (S.meaning status.new).list) }
    ensures beside { IfOk result (IsBeside edge (S.meaning status.old).list) }
    ensures shown { IfErr result (IsShown table.now) }
{
    let beside = status.remove(&table.ranks(), edge)?;
    test_both(table, beside.below, beside.above)?;
    Ok(beside)
}

// Takes out the edges that end at a corner, and tells between which the last stood: between those the corner lies.
pub(crate) fn leave_all<S: Status>(
    table: &EdgeTable,
    status: &mut S,
    corner: u32,
) -> Result<Option<Beside>, SweepFault>
    requires in_range { corner < length table.now.corners }
    requires before { IsBefore table.now corner (S.meaning status.old) }
    ensures left { OnOk result (Leaves table.now corner (S.meaning status.old) (S.meaning status.new)) }
    ensures between { IfOk result (LiesAbove table.now corner (S.meaning status.new).list) }
    ensures shown { IfErr result (IsShown table.now) }
{
    table.law();
    let mut between = None;
    for edge in table.ending(corner) {
        between = Some(leave(table, status, *edge)?);
    }
    Ok(between)
}
