//! Statuses of a sweep that can be made anew.

ghost use Rattle.loc_status.specs.Meaning.{IsFresh};

use loc_status::{Status, VecStatus};
use loc_treeidx::TreeIndex;
use std::alloc::Global;

/// A status that can be made anew, for each sweep of a layer.
pub trait FreshStatus: Status {
    /// A status to which nothing was done.
    fn fresh(alloc: Global) -> Self
        ensures { IsFresh (Self.meaning result) };
}

impl FreshStatus for VecStatus {
    fn fresh(alloc: Global) -> VecStatus {
        VecStatus::new(alloc)
    }
}

impl FreshStatus for TreeIndex {
    fn fresh(alloc: Global) -> TreeIndex {
        TreeIndex::new(alloc)
    }
}
