//! Laws of the index, as calls that do no work: their contracts are the laws.

ghost use Rattle.std.specs.Prelude.{ℕ, ◌+◌, ◌*◌, ◌^◌, ◌≤◌, length};
ghost use Rattle.loc_spec_plane.specs.Tables.{NoConflict};
ghost use Rattle.loc_sweep.specs.Swept.{IsSwept};
ghost use Rattle.loc_treeidx.specs.Meaning.{meaning_of};
ghost use Rattle.loc_treeidx.specs.Standing.{AreVersionsOf};
ghost use Rattle.loc_place.specs.Steps.{most_steps, search_bound};

use crate::TreeIndex;
use loc_edges::EdgeTable;

/// An index that swept a table without conflicts stands for it, and has at least one node and at most 24 for each edge.
pub fn swept_stands(table: &EdgeTable, index: &TreeIndex)
    requires apart { NoConflict table.now }
    requires swept { IsSwept table.now (meaning_of index.now) }
    ensures stands { AreVersionsOf table.now index.now }
    ensures many { length table.now.ends ≤ length index.now.rows }
    ensures few { length index.now.rows ≤ 24 * length table.now.ends }
{
    table.law();
    let _sealed = index.versions().sealed();
}

/// The most steps of a search in a table are the greatest number of which the power of two is at most the bound.
pub fn most_is_greatest(table: &EdgeTable)
    ensures most { 2 ^ most_steps table.now ≤ search_bound (length table.now.corners) (length table.now.ends) }
    ensures greatest { (number : ℕ) → 2 ^ number ≤ search_bound (length table.now.corners) (length table.now.ends) → number ≤ most_steps table.now }
{
    let _corners = table.corner_count();
}
