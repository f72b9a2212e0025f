// What lies just below.

ghost use Rattle.std.specs.Prelude.{ℕ, ◌≡◌, ◌≢◌, ◌<◌, ◌++◌, ◌∷◌, [], length, get_or, Some, None, IsTrue, OnOk};
ghost use Rattle.loc_spec_plane.specs.Points.{is_above};
ghost use Rattle.loc_spec_plane.specs.Tables.{corner as corner_of, edge as edge_of, lo_of};
ghost use Rattle.loc_laws_order.specs.Laws.{last_that};
ghost use Rattle.loc_status.specs.Lists.{is_chain_at};
ghost use Rattle.loc_sweep.specs.Course.{LiesAbove};
ghost use Rattle.loc_sweep.specs.Line.{IsInRange};

use loc_edges::EdgeTable;
use loc_status::{Beside, Status};
use std::alloc::AllocError;

// Notes the floor of a corner: the lower one of the edges between which it lies, where they are known.
pub(crate) fn note_floor<S: Status>(
    table: &EdgeTable,
    status: &S,
    corner: u32,
    between: Option<Beside>,
    of_corner: &mut Vec<Option<u32>>,
) -> Result<(), AllocError>
    requires in_range { corner < length table.now.corners }
    requires chain { IsTrue (is_chain_at table.now corner (S.meaning status.now).list) }
    requires between { LiesAbove table.now corner (S.meaning status.now).list between }
    ensures { OnOk result (of_corner.new.items ≡ of_corner.old.items ++ last_that (λ e. is_above (edge_of table.now e) (corner_of table.now corner)) (S.meaning status.now).list ∷ []) }
{
    let floor = match between {
        Some(beside) => beside.below,
        None => status.floor(&table.ranks(), corner),
    };
    of_corner.push(floor)?;
    Ok(())
}

// Notes a new edge as the one just below the edge above it, where that begins at the same corner.
pub(crate) fn note_above(
    table: &EdgeTable,
    corner: u32,
    edge: u32,
    above: Option<u32>,
    of_edge: &mut Vec<Option<u32>>,
)
    requires in_range { IsInRange table.now above }
    requires as_many { length of_edge.old.items ≡ length table.now.ends }
    ensures as_many { length of_edge.new.items ≡ length of_edge.old.items }
    ensures above { (a : ℕ) → above ≡ Some a → lo_of table.now a ≡ corner → get_or of_edge.new.items a None ≡ Some edge }
    ensures others { (e : ℕ) → above ≢ Some e → get_or of_edge.new.items e None ≡ get_or of_edge.old.items e None }
    ensures elsewhere { (e : ℕ) → lo_of table.now e ≢ corner → get_or of_edge.new.items e None ≡ get_or of_edge.old.items e None }
{
    let Some(above) = above else { return };
    if table.ends(above).0 == corner {
        of_edge[above as usize] = Some(edge);
    }
}
