// The node of an edge in the present tree.

ghost use Rattle.std.specs.Prelude.{◌≡◌, ◌-◌, ◌<◌, [], IsTrue, length};
ghost use Rattle.loc_spec_plane.specs.Lists.{is_in};
ghost use Rattle.loc_spec_plane.specs.Tables.{hi_of};
ghost use Rattle.loc_status.specs.Lists.{is_chain_at, IsBeside};
ghost use Rattle.loc_treeidx.specs.Gaps.{IsNode};

use crate::neighbours::{next_above, next_below};
use crate::walk::walk_to;
use loc_edges::Ranks;
use loc_persist::Versions;
use loc_pool::{Link, Turn};
use loc_rb::Path;
use loc_status::{Beside, Target};

// The node of an edge, in a chain at the corner before its upper end, and the edges beside it. The path, empty at first, then leads to it.
pub(crate) fn node_of(
    versions: &Versions,
    ranks: &Ranks<'_>,
    edge: u32,
    path: &mut Path,
) -> (Link, Beside)
    requires in_range { edge < length ranks.now.ends }
    requires chain { IsTrue (is_chain_at ranks.now (hi_of ranks.now edge - 1) versions.now.list) }
    requires listed { IsTrue (is_in edge versions.now.list) }
    requires empty { path.old.items ≡ [] }
    ensures node { IsNode edge versions.now path.new.items result.0 }
    ensures beside { IsBeside edge versions.now.list result.1 }
{
    ranks.law();
    let way = walk_to(versions, ranks, Target::End(edge), Some(edge), path);
    let Some(at) = way.next else { unreachable!() };
    let left = versions.newest_child(at, Turn::Left);
    let below = next_below(versions, edge, left, way.beside.below);
    let right = versions.newest_child(at, Turn::Right);
    let above = next_above(versions, edge, right, way.beside.above);
    (at, Beside { below, above })
}
