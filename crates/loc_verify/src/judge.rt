// The judge.

ghost use Rattle.std.specs.Prelude.{ℕ, ◌≢◌, ◌<◌, [], length, get_or, IfErr, OnOk};
ghost use Rattle.loc_spec_plane.specs.Tables.{AllEnds, AllEven, NoConflict};
ghost use Rattle.loc_edges.specs.Floors.{AreFloors};
ghost use Rattle.loc_spec_index.specs.Content.{table_in};
ghost use Rattle.loc_spec_index.specs.TrueIndex.{IsTrueIndex};
ghost use Rattle.loc_treeidx.specs.Standing.{AreVersionsOf};
ghost use Rattle.loc_verify.specs.Judged.{IsJudged};

use crate::VerifyFault;
use crate::kinds::{
    judge_corners, judge_covers, judge_crossings, judge_edges, judge_floors, judge_lists,
    judge_marks, judge_sources,
};
use crate::versions::judge_versions;
use loc_edges::Floors;
use loc_file::Held;
use loc_treeidx::TreeIndex;
use std::alloc::Global;

// Judges what is left where no two edges conflict, by the tree that swept them and by the floors.
fn judge_swept(
    alloc: Global,
    held: &Held,
    index: &TreeIndex,
    floors: &Floors,
) -> Result<(), VerifyFault>
    requires ended { AllEnds (table_in held.now.content) }
    requires marked { (e : ℕ) → e < length held.now.content.edges → get_or (table_in held.now.content).marks e [] ≢ [] }
    requires even { AllEven (table_in held.now.content) }
    requires apart { NoConflict (table_in held.now.content) }
    requires stands { AreVersionsOf (table_in held.now.content) index.now }
    requires floors { AreFloors (table_in held.now.content) floors.now }
    ensures ok { OnOk result (IsTrueIndex held.now.content) }
    ensures first { IfErr result (IsJudged held.now.content) }
{
    held.law();
    judge_floors(held, floors)?;
    judge_covers(alloc, held, floors)?;
    judge_lists(alloc, held)?;
    judge_sources(held)?;
    judge_versions(alloc, held, index)
}

/// Judges what was read from an index file. It is Ok exactly where that is a true index, want of memory aside; else its first flaw is shown,
/// in the order of the faults: corners without an edge, edges without a mark, uneven features, conflicts, floors, cover lists, spare lists,
/// sources, and then one version after another. Of two edges that conflict any may be shown. Where the nodes are those of the
/// tree that sweeps the table, it takes about the time of that sweep; else the time that all versions take to be read, by their lists.
pub fn verify(alloc: Global, held: &Held) -> Result<(), VerifyFault>
    ensures ok { OnOk result (IsTrueIndex held.now.content) }
    ensures first { IfErr result (IsJudged held.now.content) }
{
    judge_corners(held)?;
    judge_edges(held)?;
    judge_marks(alloc, held)?;
    let (index, floors) = judge_crossings(alloc, held)?;
    let outcome = judge_swept(alloc, held, &index, &floors);
    drop(index);
    drop(floors);
    outcome
}
