// The parts of a layer, and what is left.

use loc_cover::Legend;
use loc_edges::EdgeTable;
use loc_spans::Boxed;
use loc_treeidx::TreeIndex;

/// The plane of features that are accepted together: their table, the tree of a sweep over it, and the legend of its places. The floors that
/// the sweep left are let go: the legend has what is asked of them.
#[derive(Drop)]
pub struct PartPlane {
    pub table: EdgeTable,
    pub tree: TreeIndex,
    pub legend: Legend,
}

/// Features of a layer that are accepted together: their numbers, which rise, and their plane.
#[derive(Drop)]
pub struct Part {
    pub numbers: Vec<u32>,
    pub plane: PartPlane,
}

/// Features of a layer that are in no part: their numbers, which rise, and boxes about them.
#[derive(Drop)]
pub struct Left {
    pub numbers: Vec<u32>,
    pub boxed: Boxed,
}

/// The parts of a layer, and what is left.
#[derive(Drop)]
pub struct Parted {
    pub parts: Vec<Part>,
    pub left: Vec<Left>,
}
