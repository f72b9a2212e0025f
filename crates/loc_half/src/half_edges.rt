// The half-edges of a table, for callers.

ghost use Rattle.std.specs.Prelude.{◌≡◌, ◌<◌, length, get_or, IfOk};
ghost use Rattle.loc_spec_plane.specs.Tables.{NoConflict};
ghost use Rattle.loc_half.specs.HalfEdgeLists.{AreHalfEdges};

use crate::leaders::leader_of_each;
use crate::nexts::{next_of_each, origin_of_each};
use loc_edges::EdgeTable;
use std::alloc::{AllocError, Global};
use std::marker::Model;

/// The half-edges of a table in which no two edges conflict. Half-edge 2e goes from the lower to the upper end of edge e, and 2e + 1 back.
#[derive(Drop)]
pub struct HalfEdges {
    nexts: Vec<u32>,
    leaders: Vec<u32>,
    origins: Vec<u32>,
}

impl Model for HalfEdges {
    ghost use Rattle.loc_half.specs.HalfEdgeLists.{HalfEdgeLists};

    ghost Value = { HalfEdgeLists };

    ghost view = { λ h. record { nexts = h.nexts.items; leaders = h.leaders.items; origins = h.origins.items } };
}

impl HalfEdges {
    /// The half-edges of a table. The edges at each corner are sorted once; what is left takes time in the order of the edges.
    pub fn make(alloc: Global, table: &EdgeTable) -> Result<HalfEdges, AllocError>
        requires no_conflict { NoConflict table.now }
        ensures { IfOk result (AreHalfEdges table.now) }
    {
        table.law();
        let nexts = next_of_each(alloc, table)?;
        let leaders = leader_of_each(alloc, &nexts)?;
        let origins = origin_of_each(alloc, table)?;
        Ok(HalfEdges {
            nexts,
            leaders,
            origins,
        })
    }

    /// The half-edge behind another on its cycle.
    pub fn next(&self, h: u32) -> u32
        requires { h < length self.now.nexts }
        ensures { result ≡ get_or self.now.nexts h 0 }
    {
        self.nexts[h as usize]
    }

    /// The least half-edge of the cycle of a half-edge.
    pub fn leader(&self, h: u32) -> u32
        requires { h < length self.now.leaders }
        ensures { result ≡ get_or self.now.leaders h 0 }
    {
        self.leaders[h as usize]
    }

    /// The corner that a half-edge leaves.
    pub fn origin(&self, h: u32) -> u32
        requires { h < length self.now.origins }
        ensures { result ≡ get_or self.now.origins h 0 }
    {
        self.origins[h as usize]
    }
}
