//! Laws of the vertical order of edges, of the sweep, and of the lists at a point. The calls do nothing: their contracts are the laws.
#![tactic(auto)]

ghost use Rattle.loc_laws_order.specs.Laws.{SweepLaw, ListIsChain, ChainIsList, OneList, OneNext, FloorOfList};

/// Where each corner has a chain of exactly the edges alive there, no two edges conflict.

pub fn sweep_law()
    ensures { SweepLaw }
{}

/// Where no two edges conflict, the list at a point is the one chain of the edges alive there, and the floor of the point is its
/// last edge that has the point above.
pub fn list_law()
    ensures is_chain { ListIsChain }
    ensures from_chain { ChainIsList }
    ensures one { OneList }
    ensures floor { FloorOfList }
{}

/// A half-edge has at most one next.
pub fn next_law()
    ensures { OneNext }
{}
