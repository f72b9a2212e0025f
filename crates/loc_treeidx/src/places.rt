// Where a new edge goes in the present tree.

ghost use Rattle.std.specs.Prelude.{◌≡◌, ◌<◌, [], IsTrue, not, length, IfOk, IfErr};
ghost use Rattle.loc_spec_plane.specs.Lists.{is_in};
ghost use Rattle.loc_spec_plane.specs.Tables.{lo_of};
ghost use Rattle.loc_status.specs.Lists.{is_chain_at};
ghost use Rattle.loc_status.specs.Meaning.{IsCause};
ghost use Rattle.loc_treeidx.specs.Gaps.{IsPlaceFor};

use crate::walk::walk_to;
use loc_edges::{Placing, Ranks};
use loc_persist::Versions;
use loc_rb::Path;
use loc_status::{Beside, InsertFault, Target};

// The edges beside the place of a new edge in a chain at its lower end, unless it hits an edge there. The path, empty at first, then leads
// to the place.
pub(crate) fn place_for(
    versions: &Versions,
    ranks: &Ranks<'_>,
    edge: u32,
    path: &mut Path,
) -> Result<Beside, InsertFault>
    requires in_range { edge < length ranks.now.ends }
    requires chain { IsTrue (is_chain_at ranks.now (lo_of ranks.now edge) versions.now.list) }
    requires is_new { IsTrue (not (is_in edge versions.now.list)) }
    requires empty { path.old.items ≡ [] }
    ensures ok { IfOk result (IsPlaceFor ranks.now edge versions.now path.new.items) }
    ensures err { IfErr result (IsCause ranks.now edge versions.now.list) }
{
    ranks.law();
    let way = walk_to(versions, ranks, Target::Begin(edge), None, path);
    match way.beside.above {
        None => Ok(way.beside),
        Some(next) => match ranks.placing(next, edge) {
            Placing::Hits => Err(InsertFault::Hits { edge: next }),
            Placing::Below | Placing::Above => Ok(way.beside),
        },
    }
}
