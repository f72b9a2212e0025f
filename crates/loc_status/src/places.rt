// The places of edges in the list of a status.

ghost use Rattle.std.specs.Prelude.{ℕ, ◌≡◌, ◌+◌, ◌-◌, ◌<◌, IsTrue, not, Some, None, length, slice_get, IfOk, IfErr};
ghost use Rattle.loc_spec_plane.specs.Lists.{is_in};
ghost use Rattle.loc_spec_plane.specs.Tables.{lo_of, hi_of};
ghost use Rattle.loc_status.specs.Lists.{is_chain_at, IsBeside, IsPlaceFor};
ghost use Rattle.loc_status.specs.Meaning.{IsCause};

use crate::search::search;
use crate::{Beside, InsertFault, Target};
use loc_edges::{Placing, Ranks};

// Where a new edge goes in a chain at its lower end, unless it hits an edge there.
pub(crate) fn place_for(list: &[u32], ranks: &Ranks<'_>, edge: u32) -> Result<usize, InsertFault>
    requires in_range { edge < length ranks.now.ends }
    requires chain { IsTrue (is_chain_at ranks.now (lo_of ranks.now edge) list.now) }
    requires is_new { IsTrue (not (is_in edge list.now)) }
    ensures ok { IfOk result (IsPlaceFor ranks.now edge list.now) }
    ensures err { IfErr result (IsCause ranks.now edge list.now) }
{
    ranks.law();
    let place = search(list, ranks, Target::Begin(edge));
    if place == list.len() {
        return Ok(place);
    }
    let next = list[place];
    match ranks.placing(next, edge) {
        Placing::Hits => Err(InsertFault::Hits { edge: next }),
        Placing::Below | Placing::Above => Ok(place),
    }
}

// Where an edge stands in a chain at the corner before its upper end.
pub(crate) fn place_of(list: &[u32], ranks: &Ranks<'_>, edge: u32) -> usize
    requires in_range { edge < length ranks.now.ends }
    requires chain { IsTrue (is_chain_at ranks.now (hi_of ranks.now edge - 1) list.now) }
    requires listed { IsTrue (is_in edge list.now) }
    ensures { slice_get list.now result ≡ Some edge }
{
    ranks.law();
    search(list, ranks, Target::End(edge))
}

// The edges beside the one at a place.
pub(crate) fn neighbours_at(list: &[u32], place: usize) -> Beside
    requires { place < length list.now }
    ensures { (edge : ℕ) → slice_get list.now place ≡ Some edge → IsBeside edge list.now result }
{
    Beside {
        below: before(list, place),
        above: behind(list, place),
    }
}

// The edge behind a place, if there is one.
fn behind(list: &[u32], place: usize) -> Option<u32>
    requires { place < length list.now }
    ensures { result ≡ slice_get list.now (place + 1) }
{
    list.get(place + 1).copied()
}

// The edge before a place, if there is one.
pub(crate) fn before(list: &[u32], place: usize) -> Option<u32>
    ensures first { place ≡ 0 → result ≡ None }
    ensures later { 0 < place → result ≡ slice_get list.now (place - 1) }
{
    if place == 0 {
        None
    } else {
        list.get(place - 1).copied()
    }
}
