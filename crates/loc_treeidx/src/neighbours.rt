// The neighbours of an edge of the present tree, from what hangs at its node and what the walk to it passed.

ghost use Rattle.std.specs.Prelude.{Some};
ghost use Rattle.loc_status.specs.Lists.{IsNextBelow, IsNextAbove};
ghost use Rattle.loc_treeidx.specs.Gaps.{HangsBetween};

use loc_persist::Versions;
use loc_pool::{Link, Turn};

// The edge just below an edge: the last of its left tree, or else the last one before that.
pub(crate) fn next_below(
    versions: &Versions,
    edge: u32,
    left: Option<Link>,
    before: Option<u32>,
) -> Option<u32>
    requires { HangsBetween versions.now left before (Some edge) }
    ensures { IsNextBelow edge versions.now.list result }
{
    // tells that the present tree is red-black
    let _sealed = versions.sealed();
    let mut below = before;
    let mut next = left;
    'down: while let Some(at) = next {
        below = Some(versions.item(at));
        next = versions.newest_child(at, Turn::Right);
    }
    below
}

// The edge just above an edge: the first of its right tree, or else the first one behind that.
pub(crate) fn next_above(
    versions: &Versions,
    edge: u32,
    right: Option<Link>,
    behind: Option<u32>,
) -> Option<u32>
    requires { HangsBetween versions.now right (Some edge) behind }
    ensures { IsNextAbove edge versions.now.list result }
{
    // tells that the present tree is red-black
    let _sealed = versions.sealed();
    let mut above = behind;
    let mut next = right;
    'down: while let Some(at) = next {
        above = Some(versions.item(at));
        next = versions.newest_child(at, Turn::Left);
    }
    above
}
