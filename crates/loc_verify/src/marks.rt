// Corners without an edge, and edges without a mark.

ghost use Rattle.std.specs.Prelude.{◌≡◌, ◌≢◌, ◌<◌, [], length, get_or, IsTrue};
ghost use Rattle.std.specs.List.{list_any};
ghost use Rattle.loc_spec_plane.specs.Tables.{edge_numbers, ends_at};
ghost use Rattle.loc_verify.specs.Least.{IsLeastFailing};

use loc_edges::EdgeTable;

// Whether some edge has the corner as an end.
fn is_end(table: &EdgeTable, corner: u32) -> bool
    requires { corner < length table.now.corners }
    ensures { result ≡ list_any (ends_at table.now corner) (edge_numbers table.now) }
{
    let (first, past) = table.beginning(corner);
    first < past || !table.ending(corner).is_empty()
}

// The least corner that is the end of no edge.
pub(crate) fn least_lone(table: &EdgeTable) -> Option<u32>
    ensures { IsLeastFailing (length table.now.corners) (λ n. IsTrue (list_any (ends_at table.now n) (edge_numbers table.now))) result }
{
    for corner in 0..table.corner_count() {
        if !is_end(table, corner) {
            return Some(corner);
        }
    }
    None
}

// The least edge without a mark.
pub(crate) fn least_bare(table: &EdgeTable) -> Option<u32>
    ensures { IsLeastFailing (length table.now.ends) (λ e. get_or table.now.marks e [] ≢ []) result }
{
    for edge in 0..table.edge_count() {
        if table.marks(edge).is_empty() {
            return Some(edge);
        }
    }
    None
}
