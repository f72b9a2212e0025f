// Two edges that come to stand side by side.

ghost use Rattle.std.specs.Prelude.{◌<◌, IsTrue, not, length, Some, IfErr, OnOk};
ghost use Rattle.loc_spec_plane.specs.Points.{conflict as conflict_of, touch};
ghost use Rattle.loc_spec_plane.specs.Tables.{edge as edge_of};
ghost use Rattle.loc_sweep.specs.Line.{AreApart, IsInRange};
ghost use Rattle.loc_sweep.specs.Swept.{IsShown};

use crate::SweepFault;
use loc_edges::EdgeTable;
use loc_geom::{Meeting, conflict};

// Two edges do not conflict, or are shown.
pub(crate) fn test(table: &EdgeTable, first: u32, second: u32) -> Result<(), SweepFault>
    requires first_in_range { first < length table.now.ends }
    requires second_in_range { second < length table.now.ends }
    ensures apart { OnOk result (IsTrue (not (conflict_of (edge_of table.now first) (edge_of table.now second)))) }
    ensures shown { IfErr result (IsShown table.now) }
{
    let a = first.min(second);
    let b = first.max(second);
    match conflict(table.edge(a), table.edge(b)) {
        Meeting::Apart => Ok(()),
        meeting => Err(SweepFault::Conflict { a, b, meeting }),
    }
}

// The same of two neighbours, where there are both.
pub(crate) fn test_both(
    table: &EdgeTable,
    below: Option<u32>,
    above: Option<u32>,
) -> Result<(), SweepFault>
    requires below_in_range { IsInRange table.now below }
    requires above_in_range { IsInRange table.now above }
    ensures apart { OnOk result (AreApart table.now below above) }
    ensures shown { IfErr result (IsShown table.now) }
{
    match (below, above) {
        (Some(first), Some(second)) => test(table, first, second),
        _ => Ok(()),
    }
}

// Two edges that touch.
pub(crate) fn touching(table: &EdgeTable, first: u32, second: u32) -> SweepFault
    requires first_in_range { first < length table.now.ends }
    requires second_in_range { second < length table.now.ends }
    requires touching { IsTrue (touch (edge_of table.now first) (edge_of table.now second)) }
    ensures { IsShown table.now result }
{
    table.law();
    SweepFault::Conflict {
        a: first.min(second),
        b: first.max(second),
        meeting: Meeting::Touch,
    }
}
