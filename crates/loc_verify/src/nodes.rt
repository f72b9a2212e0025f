// The children of a node in a version.

ghost use Rattle.std.specs.Prelude.{◌≡◌};
ghost use Rattle.loc_spec_index.specs.Nodes.{Left, Right, child};

use loc_file::NodeRow;

// The left child of a node in a version, or 0.
pub(crate) fn left_of(row: NodeRow, version: u32) -> u32
    ensures { result ≡ child row Left version }
{
    if row.side == 1 && row.stamp <= version {
        row.extra
    } else {
        row.left
    }
}

// The right child of a node in a version, or 0.
pub(crate) fn right_of(row: NodeRow, version: u32) -> u32
    ensures { result ≡ child row Right version }
{
    if row.side == 2 && row.stamp <= version {
        row.extra
    } else {
        row.right
    }
}
