// The edges that begin at a corner.

ghost use Rattle.std.specs.Prelude.{◌≡◌, ◌<◌, ◌≤◌, ◌^◌, not, IsTrue, length, IfOk, IfErr, OnOk};
ghost use Rattle.loc_spec_plane.specs.Lists.{is_in};
ghost use Rattle.loc_spec_plane.specs.Tables.{lo_of};
ghost use Rattle.loc_status.specs.Lists.{is_chain_at, IsBeside};
ghost use Rattle.loc_status.specs.Meaning.{Inserts};
ghost use Rattle.loc_sweep.specs.Course.{AreNextBelow, Comes, LiesAbove};
ghost use Rattle.loc_sweep.specs.Line.{IsBegun, IsChainOf, IsInRange, IsWith, goes_past};
ghost use Rattle.loc_sweep.specs.Swept.{IsShown};

use crate::SweepFault;
use crate::neighbours::{test_both, touching};
use crate::notes::note_above;
use loc_edges::EdgeTable;
use loc_status::{Beside, InsertFault, Status};

// Puts an edge in, tests it against its neighbours, and tells them.
fn come<S: Status>(table: &EdgeTable, status: &mut S, edge: u32) -> Result<Beside, SweepFault>
    requires in_range { edge < length table.now.ends }
    requires chain { IsTrue (is_chain_at table.now (lo_of table.now edge) (S.meaning status.old).list) }
    requires is_new { IsTrue (not (is_in edge (S.meaning status.old).list)) }
    requires few { (S.meaning status.old).inserted < 2 ^ 26 }
    ensures here { OnOk result (Inserts table.now edge (S.meaning status.old) (S.meaning status.new)) }
    ensures chain { OnOk result (IsTrue (is_chain_at table.now (lo_of table.now edge) (S.meaning status.new).list)) }
    ensures others { OnOk result (IsWith edge (S.meaning status.old).list (S.meaning status.new).list) }
    ensures beside { IfOk result (IsBeside edge (S.meaning status.new).list) }
    ensures in_range { IfOk result (λ beside. IsInRange table.now beside.above) }
    ensures shown { IfErr result (IsShown table.now) }
{
    table.law();
    match status.insert(&table.ranks(), edge) {
        Ok(beside) => {
            test_both(table, beside.below, Some(edge))?;
            test_both(table, Some(edge), beside.above)?;
            Ok(beside)
        }
        Err(InsertFault::Hits { edge: hit }) => Err(touching(table, hit, edge)),
        Err(InsertFault::NoMemory) => Err(SweepFault::NoMemory),
    }
}

// Puts in the edges that begin at a corner, and notes the edges just below them. It tells between which edges the corner lies: those
// between which the first of them came to stand, or where none begins there those that were known.
pub(crate) fn come_all<S: Status>(
    table: &EdgeTable,
    status: &mut S,
    corner: u32,
    known: Option<Beside>,
    of_edge: &mut Vec<Option<u32>>,
) -> Result<Option<Beside>, SweepFault>
    requires in_range { corner < length table.now.corners }
    requires line { IsChainOf table.now corner (goes_past table.now corner) (S.meaning status.old).list }
    requires begun { IsBegun table.now corner (S.meaning status.old).inserted }
    requires greatest { (S.meaning status.old).past_greatest ≤ length table.now.ends }
    requires known { LiesAbove table.now corner (S.meaning status.old).list known }
    requires as_many { length of_edge.old.items ≡ length table.now.ends }
    ensures here { OnOk result (Comes table.now corner (S.meaning status.old) (S.meaning status.new)) }
    ensures between { IfOk result (LiesAbove table.now corner (S.meaning status.new).list) }
    ensures below { OnOk result (AreNextBelow table.now corner (S.meaning status.new).list of_edge.old.items of_edge.new.items) }
    ensures shown { IfErr result (IsShown table.now) }
{
    table.law();
    let (first, past) = table.beginning(corner);
    let mut between = known;
    for edge in first..past {
        let beside = come(table, status, edge)?;
        note_above(table, corner, edge, beside.above, of_edge);
        of_edge[edge as usize] = beside.below;
        if edge == first {
            between = Some(beside);
        }
    }
    Ok(between)
}
