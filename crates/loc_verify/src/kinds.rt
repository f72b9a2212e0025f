// The kinds of flaws, each by its least.

ghost use Rattle.std.specs.Prelude.{ℕ, ◌≡◌, ◌≢◌, ◌<◌, [], length, get_or, IsTrue, IfErr, IfOk, OnOk};
ghost use Rattle.loc_spec_plane.specs.Lists.{is_in};
ghost use Rattle.loc_spec_plane.specs.Tables.{AllEnds, AllEven, NoConflict, corner as corner_of, is_on_source};
ghost use Rattle.loc_spec_plane.specs.Places.{IsFloor};
ghost use Rattle.loc_spec_plane.specs.Covers.{cover_above};
ghost use Rattle.loc_edges.specs.Floors.{AreFloors};
ghost use Rattle.loc_cover.specs.Numbered.{IsEven};
ghost use Rattle.loc_spec_index.specs.Content.{cover_numbers, cover_of_edge, floor_of_corner, table_in};
ghost use Rattle.loc_treeidx.specs.Standing.{AreVersionsOf};
ghost use Rattle.loc_verify.specs.Judged.{IsFaultOf};

use crate::VerifyFault;
use crate::covers::least_wrong_cover;
use crate::features::least_uneven;
use crate::lists::{least_other_floor, least_spare};
use crate::marks::{least_bare, least_lone};
use crate::sources::least_off_source;
use loc_edges::Floors;
use loc_file::Held;
use loc_sweep::{SweepFault, sweep};
use loc_treeidx::TreeIndex;
use loc_treeidx::laws::swept_stands;
use std::alloc::Global;

// Every corner is an end of an edge.
pub(crate) fn judge_corners(held: &Held) -> Result<(), VerifyFault>
    ensures ok { OnOk result (AllEnds (table_in held.now.content)) }
    ensures fault { IfErr result (IsFaultOf held.now.content 0) }
{
    match least_lone(held.table()) {
        None => Ok(()),
        Some(corner) => Err(VerifyFault::Lone { corner }),
    }
}

// Every edge has a mark.
pub(crate) fn judge_edges(held: &Held) -> Result<(), VerifyFault>
    ensures ok { OnOk result ((e : ℕ) → e < length held.now.content.edges → get_or (table_in held.now.content).marks e [] ≢ []) }
    ensures fault { IfErr result (IsFaultOf held.now.content 1) }
{
    held.law();
    match least_bare(held.table()) {
        None => Ok(()),
        Some(edge) => Err(VerifyFault::Bare { edge }),
    }
}

// Marks are even at every corner.
pub(crate) fn judge_marks(alloc: Global, held: &Held) -> Result<(), VerifyFault>
    ensures ok { OnOk result (AllEven (table_in held.now.content)) }
    ensures fault { IfErr result (IsFaultOf held.now.content 2) }
{
    match least_uneven(alloc, held.table())? {
        None => Ok(()),
        Some((corner, feature)) => Err(VerifyFault::Uneven { corner, feature }),
    }
}

// No two edges conflict; then the tree that swept them is known, and the floors.
pub(crate) fn judge_crossings(
    alloc: Global,
    held: &Held,
) -> Result<(TreeIndex, Floors), VerifyFault>
    ensures ok { OnOk result (NoConflict (table_in held.now.content)) }
    ensures stands { IfOk result (λ swept. AreVersionsOf (table_in held.now.content) swept.0) }
    ensures floors { IfOk result (λ swept. AreFloors (table_in held.now.content) swept.1) }
    ensures fault { IfErr result (IsFaultOf held.now.content 3) }
{
    held.law();
    match sweep(alloc, held.table(), TreeIndex::new(alloc)) {
        Ok((index, floors)) => {
            swept_stands(held.table(), &index);
            Ok((index, floors))
        }
        Err(SweepFault::Conflict { a, b, meeting }) => Err(VerifyFault::Conflict { a, b, meeting }),
        Err(SweepFault::NoMemory) => Err(VerifyFault::NoMemory),
    }
}

// The stored floors are those of the corners.
pub(crate) fn judge_floors(held: &Held, floors: &Floors) -> Result<(), VerifyFault>
    requires { AreFloors (table_in held.now.content) floors.now }
    ensures ok { OnOk result ((n : ℕ) → n < length held.now.content.corners → IsFloor (table_in held.now.content) (corner_of (table_in held.now.content) n) (floor_of_corner held.now.content n)) }
    ensures fault { IfErr result (IsFaultOf held.now.content 4) }
{
    held.law();
    held.table().law();
    match least_other_floor(held.legend(), floors.of_corner()) {
        None => Ok(()),
        Some(corner) => Err(VerifyFault::WrongFloor { corner }),
    }
}

// The list that each edge names is the one above it.
pub(crate) fn judge_covers(alloc: Global, held: &Held, floors: &Floors) -> Result<(), VerifyFault>
    requires even { IsEven (table_in held.now.content) }
    requires floors { AreFloors (table_in held.now.content) floors.now }
    ensures ok { OnOk result ((e : ℕ) → e < length held.now.content.edges → cover_of_edge held.now.content e ≡ cover_above (table_in held.now.content) e) }
    ensures fault { IfErr result (IsFaultOf held.now.content 5) }
{
    held.law();
    match least_wrong_cover(alloc, held.table(), held.legend(), floors.of_edge())? {
        None => Ok(()),
        Some(edge) => Err(VerifyFault::WrongCover { edge }),
    }
}

// Every list is named.
pub(crate) fn judge_lists(alloc: Global, held: &Held) -> Result<(), VerifyFault>
    ensures ok { OnOk result ((n : ℕ) → n < length held.now.content.covers → IsTrue (is_in n (cover_numbers held.now.content))) }
    ensures fault { IfErr result (IsFaultOf held.now.content 6) }
{
    held.law();
    match least_spare(alloc, held.legend(), held.table().edge_count())? {
        None => Ok(()),
        Some(list) => Err(VerifyFault::SpareCover { list }),
    }
}

// Both ends of every edge lie on the segment of its source.
pub(crate) fn judge_sources(held: &Held) -> Result<(), VerifyFault>
    ensures ok { OnOk result ((e : ℕ) → e < length held.now.content.edges → IsTrue (is_on_source (table_in held.now.content) e)) }
    ensures fault { IfErr result (IsFaultOf held.now.content 7) }
{
    held.law();
    match least_off_source(held.table()) {
        None => Ok(()),
        Some(edge) => Err(VerifyFault::WrongSource { edge }),
    }
}
