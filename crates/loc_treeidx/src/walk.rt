// The walk down the present tree to the place of a target, or to the node of an edge.

ghost use Rattle.std.specs.Prelude.{◌≡◌, ◌<◌, ◌++◌, [], ◌∷◌, length, Some, IfSome, IsTrue};
ghost use Rattle.std.specs.List.{All};
ghost use Rattle.loc_pool.specs.Rows.{row};
ghost use Rattle.loc_status.specs.Targets.{IsTarget, is_passed};
ghost use Rattle.loc_treeidx.specs.Gaps.{IsWay};

use loc_edges::Ranks;
use loc_persist::Versions;
use loc_pool::{Link, Turn};
use loc_rb::Path;
use loc_status::{Beside, Target};

// What hangs at the end of a walk, and the edges just below and just above all that hangs there.
#[derive(Drop)]
pub(crate) struct Way {
    pub(crate) next: Option<Link>,
    pub(crate) beside: Beside,
}

// Makes the path one entry longer.
fn push(path: &mut Path, at: Link, turn: Turn)
    requires { length path.old.items < 44 }
    ensures { path.new.items ≡ path.old.items ++ (at, turn) ∷ [] }
{
    path.push((at, turn));
}

// Whether a walk stops at an edge.
fn is_stop(stop: Option<u32>, edge: u32) -> bool
    ensures yes { IsTrue result → stop ≡ Some edge }
    ensures no { stop ≡ Some edge → IsTrue result }
{
    match stop {
        None => false,
        Some(here) => here == edge,
    }
}

// The way down to the missing child where the target stands: to the right of each edge that stands before it, and to the left of the
// others. It ends before that at the node of the edge where it is told to stop. The path, empty at first, is then that of the walk.
pub(crate) fn walk_to(
    versions: &Versions,
    ranks: &Ranks<'_>,
    target: Target,
    stop: Option<u32>,
    path: &mut Path,
) -> Way
    requires in_range { All (λ e. e < length ranks.now.ends) versions.now.list }
    requires target_in_range { IsTarget ranks.now target }
    requires empty { path.old.items ≡ [] }
    ensures way { IsWay (is_passed ranks.now target) stop versions.now path.new.items result }
    ensures stops { IfSome result.next (λ at. stop ≡ Some (row versions.now.rows at).item) }
{
    // tells that the present tree is red-black
    let _sealed = versions.sealed();
    let mut way = Way {
        next: versions.newest_root(),
        beside: Beside {
            below: None,
            above: None,
        },
    };
    'down: while let Some(at) = way.next {
        let edge = versions.item(at);
        if is_stop(stop, edge) {
            return way;
        }
        if target.passes(ranks, edge) {
            way.beside.below = Some(edge);
            way.next = versions.newest_child(at, Turn::Right);
            push(path, at, Turn::Right);
        } else {
            way.beside.above = Some(edge);
            way.next = versions.newest_child(at, Turn::Left);
            push(path, at, Turn::Left);
        }
    }
    way
}
