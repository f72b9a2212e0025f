// The versions of an index, one after another.

ghost use Rattle.std.specs.Prelude.{ℕ, ◌≡◌, ◌+◌, ◌*◌, ◌<◌, ◌≤◌, ◌^◌, true, length, IfErr, OnOk};
ghost use Rattle.loc_spec_text.specs.Limits.{most_pieces};
ghost use Rattle.loc_spec_plane.specs.Tables.{NoConflict};
ghost use Rattle.loc_spec_plane.specs.Places.{IsVersion};
ghost use Rattle.loc_spec_index.specs.Content.{table_in};
ghost use Rattle.loc_spec_index.specs.TrueIndex.{IsTrueVersion};
ghost use Rattle.loc_persist.specs.ByNumber.{AreRootsByNumber, AreRowsByNumber};
ghost use Rattle.loc_treeidx.specs.Standing.{AreVersionsOf};
ghost use Rattle.loc_verify.specs.Judged.{IsFaultOf, IsVersionFault};

use crate::VerifyFault;
use crate::levels::has_path;
use crate::line::go_to;
use crate::reading::{Followed, follow};
use loc_file::{Held, NodeRow};
use loc_persist::Versions;
use loc_status::VecStatus;
use loc_treeidx::TreeIndex;
use std::alloc::Global;

// How many nodes a path may have where so many edges are alive.
fn most_nodes(alive: usize) -> u32
    requires { alive ≤ most_pieces }
    ensures within { 2 ^ result ≤ (alive + 1) * (alive + 1) }
    ensures past { (alive + 1) * (alive + 1) < 2 ^ (result + 1) }
{
    ((alive + 1) * (alive + 1)).ilog2()
}

// Judges a version by the list at its corner.
fn judge_version(alloc: Global, held: &Held, version: u32, list: &[u32]) -> Result<(), VerifyFault>
    requires in_range { version < length held.now.content.corners }
    requires few { length list.now ≤ most_pieces }
    requires list { IsVersion (table_in held.now.content) version list.now }
    ensures ok { OnOk result (IsTrueVersion held.now.content version) }
    ensures fault { IfErr result (IsVersionFault held.now.content version) }
{
    held.law();
    let room = most_nodes(list.len());
    match follow(held, version, held.root(version), room, list, 0) {
        Followed::Past(read) if read as usize == list.len() => Ok(()),
        Followed::Past(position) => Err(VerifyFault::WrongList { version, position }),
        Followed::TooDeep => Err(VerifyFault::Deep { version }),
        Followed::Differs(position) => {
            if has_path(alloc, held, version, room)? {
                Err(VerifyFault::Deep { version })
            } else {
                Err(VerifyFault::WrongList { version, position })
            }
        }
    }
}

// Whether two rows are the same.
fn is_same(a: NodeRow, b: NodeRow) -> bool
    ensures { result ≡ true → a ≡ b }
{
    a == b
}

// Whether the nodes are those of a tree, row by row.
fn has_nodes(held: &Held, tree: &Versions) -> bool
    ensures { result ≡ true → AreRowsByNumber tree.now.rows held.now.content.nodes }
{
    if held.nodes() != tree.nodes() {
        return false;
    }
    for before in 0..tree.nodes() {
        if !is_same(held.row(before + 1), tree.row(before + 1)) {
            return false;
        }
    }
    true
}

// Whether the roots are those of a tree.
fn has_roots(held: &Held, tree: &Versions) -> bool
    requires as_many { length tree.now.roots ≡ length held.now.content.corners }
    ensures { result ≡ true → AreRootsByNumber tree.now.rows tree.now.roots held.now.content.roots }
{
    for version in 0..tree.sealed() {
        if held.root(version) != tree.root_number(version) {
            return false;
        }
    }
    true
}

// Judges one version after another by the lists at their corners.
fn judge_by_lists(alloc: Global, held: &Held) -> Result<(), VerifyFault>
    requires { NoConflict (table_in held.now.content) }
    ensures ok { OnOk result ((i : ℕ) → i < length held.now.content.corners → IsTrueVersion held.now.content i) }
    ensures fault { IfErr result (IsFaultOf held.now.content 8) }
{
    let table = held.table();
    table.law();
    let mut status = VecStatus::new(alloc);
    for version in 0..table.corner_count() {
        go_to(table, &mut status, version)?;
        judge_version(alloc, held, version, status.list())?;
    }
    Ok(())
}

// Judges the versions. Where the nodes and the roots are those of the tree that swept the table, each version is true.
pub(crate) fn judge_versions(
    alloc: Global,
    held: &Held,
    swept: &TreeIndex,
) -> Result<(), VerifyFault>
    requires apart { NoConflict (table_in held.now.content) }
    requires stands { AreVersionsOf (table_in held.now.content) swept.now }
    ensures ok { OnOk result ((i : ℕ) → i < length held.now.content.corners → IsTrueVersion held.now.content i) }
    ensures fault { IfErr result (IsFaultOf held.now.content 8) }
{
    let tree = swept.versions();
    let _sealed = tree.sealed();
    if has_nodes(held, tree) && has_roots(held, tree) {
        return Ok(());
    }
    judge_by_lists(alloc, held)
}
