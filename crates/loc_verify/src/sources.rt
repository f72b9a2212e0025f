// Edges that are off the segments of their sources.

ghost use Rattle.std.specs.Prelude.{◌≡◌, ◌<◌, length, IsTrue};
ghost use Rattle.loc_spec_plane.specs.Tables.{is_on_source};
ghost use Rattle.loc_verify.specs.Least.{IsLeastFailing};

use loc_edges::EdgeTable;
use loc_geom::{Edge, on};

// Whether both ends of the edge lie on the segment of its source.
fn is_on_source(table: &EdgeTable, edge: u32) -> bool
    requires { edge < length table.now.ends }
    ensures { result ≡ is_on_source table.now edge }
{
    table.law();
    let (lower, upper) = table.source(edge);
    match Edge::new(table.corner(lower), table.corner(upper)) {
        None => false,
        Some(source) => on(source, table.edge(edge).lo()) && on(source, table.edge(edge).hi()),
    }
}

// The least edge that has an end off the segment of its source.
pub(crate) fn least_off_source(table: &EdgeTable) -> Option<u32>
    ensures { IsLeastFailing (length table.now.ends) (λ e. IsTrue (is_on_source table.now e)) result }
{
    for edge in 0..table.edge_count() {
        if !is_on_source(table, edge) {
            return Some(edge);
        }
    }
    None
}
