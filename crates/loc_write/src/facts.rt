// What holds of all rows, as it is told row by row. The rows are looked at before a file is made, so that its content is known even where
// a write fails.

ghost use Rattle.std.specs.Prelude.{◌≡◌, ◌≤◌, ℕ, List, All, length};
ghost use Rattle.loc_spec_plane.specs.Points.{IsGridPoint};
ghost use Rattle.loc_spec_index.specs.declared.NodeRow.{NodeRow as RowOf};
ghost use Rattle.loc_persist.specs.ByNumber.{AreRowsByNumber, AreRootsByNumber};
ghost use Rattle.loc_persist.specs.Numbered.{IsWithin};

use loc_edges::EdgeTable;
use loc_persist::Versions;

// The corners are points of the grid.
pub(crate) fn corners_on_grid(table: &EdgeTable)
    ensures { All IsGridPoint table.now.corners }
{
    for number in 0..table.corner_count() {
        let corner = table.corner(number);
        let _x = corner.x();
        let _y = corner.y();
    }
}

// The nodes have rows by number.
pub(crate) fn nodes_numbered(versions: &Versions)
    ensures { (rows : List RowOf) × AreRowsByNumber versions.now.rows rows
        × All (IsWithin versions.now.past_greatest (length versions.now.roots) (length versions.now.rows) versions.now.is_changed) rows }
{
    for before in 0..versions.nodes() {
        let _row = versions.row(before + 1);
    }
}

// The roots of the sealed versions have numbers.
pub(crate) fn roots_numbered(versions: &Versions)
    ensures { (roots : List ℕ) × AreRootsByNumber versions.now.rows versions.now.roots roots
        × (length roots ≡ length versions.now.roots) × All (λ n. n ≤ length versions.now.rows) roots }
{
    for version in 0..versions.sealed() {
        let _root = versions.root_number(version);
    }
}
