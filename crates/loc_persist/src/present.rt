//! The nodes of all versions and the root of the newest one. A pointer of a node that no sealed version has is changed in
//! place. Another goes into the free extra of its node, or the node is copied with its newest pointers and the pointer
//! above it is changed in the same way.
ghost use Rattle.std.specs.Prelude.{◌≡◌, ◌≢◌, ◌≤◌, ◌<◌, ◌+◌, ◌-◌, ◌^◌, [], ◌∷◌, ◌++◌, length, take, IsTrue, not, false, true, Some};
ghost use Rattle.loc_pool.specs.declared.Link.{Link};
ghost use Rattle.loc_pool.specs.Maps.{has};
ghost use Rattle.loc_pool.specs.Rows.{row, same_turn, IsFree};
ghost use Rattle.loc_rb.specs.Trees.{with_child};
ghost use Rattle.loc_rb.specs.Nodes.{CanChange};
ghost use Rattle.loc_rb.specs.Exchanges.{Exchanges};
ghost use Rattle.loc_persist.specs.Keeping.{KeepsBefore};
ghost use Rattle.loc_persist.specs.Present.{row_in, copy_of, nodes_at, IsPresent, IsFreshAfter};
ghost use Rattle.loc_persist.specs.Use.{is_used, in_use};
ghost use Rattle.loc_persist.specs.Written.{HasRoom, IsWritten};

use crate::copied::Copied;
use loc_pool::{Colour, Link, Pool, Turn};
use loc_rb::Path;

/// The nodes of all versions, the root of the newest one, and which nodes were copied.
#[derive(Drop)]
pub(crate) struct Present {
    pub(crate) pool: Pool,
    pub(crate) root: Option<Link>,
    pub(crate) copied: Copied,
}

/// How many versions were sealed, and how many nodes there were at the last seal.
#[derive(Clone, Copy, Drop)]
pub(crate) struct Sealed {
    pub(crate) versions: u32,
    pub(crate) nodes: u32,
}

impl Present {
    /// Makes `to` the child of `at` in the newest version. Answers the link of `at` from then on.
    pub(crate) fn exchange(
        &mut self,
        sealed: Sealed,
        path: &mut Path,
        at: Link,
        turn: Turn,
        to: Option<Link>,
    ) -> Link
        requires room { length path.old.items < self.old.pool.spare }
        requires few { length self.old.pool.rows + length path.old.items + 2 < 2 ^ 32 }
        requires short { length path.old.items ≤ 44 }
        requires present { IsPresent sealed.versions self.old.pool.rows self.old.root self.old.copied.links × IsFreshAfter sealed.nodes self.old.pool.rows }
        requires place { CanChange (nodes_at sealed.versions self.old.pool.rows self.old.root self.old.copied.links) path.old.items at to }
        ensures exchanges { Exchanges (nodes_at sealed.versions self.old.pool.rows self.old.root self.old.copied.links) (nodes_at sealed.versions self.new.pool.rows self.new.root self.new.copied.links) path.old.items path.new.items at result turn to }
        ensures keeps { KeepsBefore sealed.versions (take sealed.nodes self.old.pool.rows) (take sealed.nodes self.new.pool.rows) }
        ensures present { IsPresent sealed.versions self.new.pool.rows self.new.root self.new.copied.links × IsFreshAfter sealed.nodes self.new.pool.rows }
        ensures paid { length self.new.pool.rows + in_use self.new.copied.links self.new.pool.rows ≤ length self.old.pool.rows + in_use self.old.copied.links self.old.pool.rows + 1 }
        ensures more { length self.old.pool.rows ≤ length self.new.pool.rows }
        ensures room { self.old.pool.spare ≤ self.new.pool.spare + length path.old.items + 1 }
        ensures length { length path.new.items ≡ length path.old.items }
    {
        if has_room(&self.pool, sealed, at, turn) {
            write(&mut self.pool, sealed, at, turn, to);
            return at;
        }
        let new = copy(&mut self.pool, sealed.versions, at, turn, to);
        self.copied = self.copied.and(at);
        match path.pop() {
            None => {
                self.root = root_after(&self.pool, self.root, at, new);
                new
            }
            Some((up, side)) => {
                let up = self.exchange(sealed, path, up, side, Some(new));
                push(path, up, side);
                new
            }
        }
    }
}

/// Makes the path one entry longer.
pub(crate) fn push(path: &mut Path, at: Link, turn: Turn)
    requires { length path.old.items < 44 }
    ensures { path.new.items ≡ path.old.items ++ (at, turn) ∷ [] }
{
    path.push((at, turn));
}

/// Whether a pointer on this side can be written into the node: in place, where no sealed version has the node, or as a stamp.
fn has_room(pool: &Pool, sealed: Sealed, at: Link, turn: Turn) -> bool
    requires { IsTrue (has pool.now.rows at) }
    ensures room { IsTrue result → HasRoom sealed.versions sealed.nodes pool.now.rows at turn }
    ensures used { IsTrue (not result) → is_used (row pool.now.rows at).extra ≡ true }
{
    is_fresh(pool, at, sealed.nodes) || is_free(pool, at, turn, sealed.versions)
}

/// Writes the pointer into the node.
fn write(pool: &mut Pool, sealed: Sealed, at: Link, turn: Turn, to: Option<Link>)
    requires row { IsTrue (has pool.old.rows at) }
    requires to { (link : Link) → to ≡ Some link → has pool.old.rows link ≡ true }
    requires fresh { IsFreshAfter sealed.nodes pool.old.rows }
    requires room { HasRoom sealed.versions sealed.nodes pool.old.rows at turn }
    ensures written { IsWritten sealed.versions sealed.nodes pool.old.rows pool.new.rows at turn to }
    ensures spare { pool.new.spare ≡ pool.old.spare }
{
    if is_fresh(pool, at, sealed.nodes) {
        pool.set_plain(at, turn, to);
    } else {
        pool.stamp(at, turn, sealed.versions, to);
    }
}

/// Whether the node was made after this many.
fn is_fresh(pool: &Pool, at: Link, nodes: u32) -> bool
    requires { IsTrue (has pool.now.rows at) }
    ensures fresh { IsTrue result → has (take nodes pool.now.rows) at ≡ false }
    ensures old { IsTrue (not result) → has (take nodes pool.now.rows) at ≡ true }
{
    // tells that no link stands twice
    let _count = pool.len();
    pool.number(at) > nodes
}

/// Whether a stamp on this side in this version goes into the extra of the node.
fn is_free(pool: &Pool, at: Link, turn: Turn, version: u32) -> bool
    requires { IsTrue (has pool.now.rows at) }
    ensures free { IsTrue result → IsFree version turn (row pool.now.rows at) }
    ensures used { IsTrue (not result) → is_used (row pool.now.rows at).extra ≡ true }
{
    match pool.extra(at) {
        None => true,
        Some(extra) => extra.version == version && is_side(extra.turn, turn),
    }
}

/// Whether the two sides are the same.
fn is_side(side: Turn, turn: Turn) -> bool
    ensures { result ≡ same_turn side turn }
{
    match (side, turn) {
        (Turn::Left, Turn::Left) | (Turn::Right, Turn::Right) => true,
        _ => false,
    }
}

/// A new node as the node is in this version, but for the child on that side.
fn copy(pool: &mut Pool, version: u32, at: Link, turn: Turn, to: Option<Link>) -> Link
    requires room { 1 ≤ pool.old.spare }
    requires few { length pool.old.rows < 2 ^ 32 - 1 }
    requires row { IsTrue (has pool.old.rows at) }
    ensures new { has pool.old.rows result ≡ false }
    ensures rows { pool.new.rows ≡ pool.old.rows ++ (result, copy_of version turn to (row pool.old.rows at)) ∷ [] }
    ensures room { pool.new.spare + 1 ≡ pool.old.spare }
{
    let (left, right) = children(pool, version, at, turn, to);
    let item = pool.item(at);
    let colour = pool.colour(at);
    pool.make(item, left, right, colour)
}

/// The children of a node in this version, with one of them exchanged.
fn children(
    pool: &Pool,
    version: u32,
    at: Link,
    turn: Turn,
    to: Option<Link>,
) -> (Option<Link>, Option<Link>)
    requires { IsTrue (has pool.now.rows at) }
    ensures left { result.0 ≡ (with_child turn to (row_in version (row pool.now.rows at))).left }
    ensures right { result.1 ≡ (with_child turn to (row_in version (row pool.now.rows at))).right }
{
    match turn {
        Turn::Left => (to, pool.child(at, Turn::Right, version)),
        Turn::Right => (pool.child(at, Turn::Left, version), to),
    }
}

/// The root, or `new` where the root is the node that was copied.
fn root_after(pool: &Pool, root: Option<Link>, at: Link, new: Link) -> Option<Link>
    requires row { IsTrue (has pool.now.rows at) }
    requires rooted { (link : Link) → root ≡ Some link → has pool.now.rows link ≡ true }
    ensures was { root ≡ Some at → result ≡ Some new }
    ensures not { root ≢ Some at → result ≡ root }
{
    // tells that no link stands twice
    let _count = pool.len();
    match root {
        None => None,
        Some(link) => {
            if pool.number(link) == pool.number(at) {
                Some(new)
            } else {
                root
            }
        }
    }
}
