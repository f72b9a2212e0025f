// The walk along a new edge, from one trapezoid that it cuts to the next. It only reads.

ghost use Rattle.std.specs.Prelude.{◌≡◌, ◌<◌, ◌-◌, true, false, length, IfOk, OnOk, [], ◌∷◌, ◌++◌, None};
ghost use Rattle.loc_spec_plane.specs.Points.{is_above};
ghost use Rattle.loc_spec_plane.specs.Tables.{corner as corner_of, edge as edge_of};
ghost use Rattle.loc_laws_traps.specs.Sets.{IsCalmSet, with_edge, begins_in};
ghost use Rattle.loc_traps.specs.Meaning.{IsMapOf, row_of, live_of, among};
ghost use Rattle.loc_traps.specs.Walks.{IsPassed, IsWalk};

use crate::map::Traps;
use crate::names::name_at;
use loc_edges::Ranks;
use loc_geom::Side;
use loc_spec_plane::Trap;
use std::alloc::{AllocError, Global};

// Where a piece over the new edge begins, and its top; or a piece under it, and its bottom. The last one is the end of the last piece.
#[derive(Clone, Copy)]
pub(crate) struct Start {
    pub(crate) bound: Option<u32>,
    pub(crate) left: u32,
}

// A row that the new edge cuts, and the places of its pieces among those over the edge and those under it.
#[derive(Clone, Copy)]
pub(crate) struct Cut {
    pub(crate) row: usize,
    pub(crate) over: usize,
    pub(crate) under: usize,
}

// What a walk collects: the starts of the pieces, the cut rows, and the last of them.
#[derive(Drop)]
pub(crate) struct Walk {
    pub(crate) overs: Vec<Start>,
    pub(crate) unders: Vec<Start>,
    pub(crate) cuts: Vec<Cut>,
    pub(crate) last: usize,
}

// The right of a trapezoid, where the edge goes on past it.
fn passed(right: Option<u32>, hi: u32) -> Option<u32>
    ensures { IsPassed right hi result }
{
    right.filter(|r| *r < hi)
}

// Whether a corner is above the line through an edge.
fn has_above(ranks: &Ranks<'_>, edge: u32, corner: u32) -> bool
    requires edge_in_range { edge < length ranks.now.ends }
    requires corner_in_range { corner < length ranks.now.corners }
    ensures { result ≡ is_above (edge_of ranks.now edge) (corner_of ranks.now corner) }
{
    match ranks.side(edge, corner) {
        Side::Below | Side::On => false,
        Side::Above => true,
    }
}

impl Walk {
    // A walk in a row that has collected nothing yet.
    fn new(alloc: Global, row: usize) -> Walk
        ensures overs { result.overs.items ≡ [] }
        ensures unders { result.unders.items ≡ [] }
        ensures cuts { result.cuts.items ≡ [] }
        ensures row { result.last ≡ row }
    {
        Walk {
            overs: Vec::new(alloc),
            unders: Vec::new(alloc),
            cuts: Vec::new(alloc),
            last: row,
        }
    }

    // Goes into a row in which a piece over the edge starts.
    fn go_over(&mut self, row: usize, start: Start) -> Result<(), AllocError>
        ensures overs { OnOk result (self.new.overs.items ≡ self.old.overs.items ++ start ∷ []) }
        ensures unders { OnOk result (self.new.unders.items ≡ self.old.unders.items) }
        ensures cuts { OnOk result (self.new.cuts.items ≡ self.old.cuts.items) }
        ensures row { OnOk result (self.new.last ≡ row) }
    {
        self.overs.push(start)?;
        self.last = row;
        Ok(())
    }

    // Goes into a row in which a piece under the edge starts.
    fn go_under(&mut self, row: usize, start: Start) -> Result<(), AllocError>
        ensures overs { OnOk result (self.new.overs.items ≡ self.old.overs.items) }
        ensures unders { OnOk result (self.new.unders.items ≡ self.old.unders.items ++ start ∷ []) }
        ensures cuts { OnOk result (self.new.cuts.items ≡ self.old.cuts.items) }
        ensures row { OnOk result (self.new.last ≡ row) }
    {
        self.unders.push(start)?;
        self.last = row;
        Ok(())
    }

    // Puts the row that it is in behind the cut rows, with its pieces, which are the last on either side.
    fn cut(&mut self) -> Result<(), AllocError>
        requires over { 0 < length self.old.overs.items }
        requires under { 0 < length self.old.unders.items }
        ensures overs { OnOk result (self.new.overs.items ≡ self.old.overs.items) }
        ensures unders { OnOk result (self.new.unders.items ≡ self.old.unders.items) }
        ensures cuts { OnOk result (self.new.cuts.items ≡ self.old.cuts.items ++ record { row = self.old.last; over = length self.old.overs.items - 1; under = length self.old.unders.items - 1 } ∷ []) }
        ensures row { OnOk result (self.new.last ≡ self.old.last) }
    {
        let cut = Cut {
            row: self.last,
            over: self.overs.len() - 1,
            under: self.unders.len() - 1,
        };
        self.cuts.push(cut)?;
        Ok(())
    }

    // Ends at a corner, where the last piece on either side ends.
    fn end(&mut self, corner: u32) -> Result<(), AllocError>
        ensures overs { OnOk result (self.new.overs.items ≡ self.old.overs.items ++ record { bound = None; left = corner } ∷ []) }
        ensures unders { OnOk result (self.new.unders.items ≡ self.old.unders.items ++ record { bound = None; left = corner } ∷ []) }
        ensures cuts { OnOk result (self.new.cuts.items ≡ self.old.cuts.items) }
        ensures row { OnOk result (self.new.last ≡ self.old.last) }
    {
        let end = Start {
            bound: None,
            left: corner,
        };
        self.overs.push(end)?;
        self.unders.push(end)?;
        Ok(())
    }

    // Starts at a corner in the row that it is in, with a piece on either side.
    fn start(&mut self, trap: Trap, corner: u32) -> Result<(), AllocError>
        ensures overs { OnOk result (self.new.overs.items ≡ self.old.overs.items ++ record { bound = trap.top; left = corner } ∷ []) }
        ensures unders { OnOk result (self.new.unders.items ≡ self.old.unders.items ++ record { bound = trap.bottom; left = corner } ∷ []) }
        ensures cuts { OnOk result (self.new.cuts.items ≡ self.old.cuts.items) }
        ensures row { OnOk result (self.new.last ≡ self.old.last) }
    {
        self.overs.push(Start {
            bound: trap.top,
            left: corner,
        })?;
        self.unders.push(Start {
            bound: trap.bottom,
            left: corner,
        })?;
        Ok(())
    }

    // Goes along a new edge, from the row in which it begins, which this walk is in.
    fn follow(&mut self, traps: &Traps, ranks: &Ranks<'_>, edge: u32) -> Result<(), AllocError>
        requires no_overs { self.old.overs.items ≡ [] }
        requires no_unders { self.old.unders.items ≡ [] }
        requires no_cuts { self.old.cuts.items ≡ [] }
        requires in_range { edge < length ranks.now.ends }
        requires is_map { IsMapOf ranks.now traps.now }
        requires calm { IsCalmSet ranks.now (with_edge (among traps.now.added) edge) }
        requires is_new { among traps.now.added edge ≡ false }
        requires row { self.old.last < length traps.now.rows }
        requires is_live { live_of traps.now.is_live self.old.last ≡ true }
        requires begins { begins_in ranks.now edge (row_of traps.now.rows self.old.last) ≡ true }
        ensures { OnOk result (IsWalk ranks.now traps.now.added traps.now.rows traps.now.is_live edge self.old.last self.new.last self.new.overs.items self.new.unders.items self.new.cuts.items) }
    {
        let (lo, hi) = ranks.ends(edge);
        let first = traps.trap(self.last);
        self.start(first, lo)?;
        'along: while let Some(left) = passed(traps.trap(self.last).right, hi) {
            self.cut()?;
            if has_above(ranks, edge, left) {
                let row = traps.lowest_at(left);
                let bound = traps.trap(row).top;
                self.go_over(row, Start { bound, left })?;
            } else {
                let row = traps.highest_at(left);
                let bound = traps.trap(row).bottom;
                self.go_under(row, Start { bound, left })?;
            }
        }
        self.cut()?;
        self.end(hi)
    }
}

// The walk of a new edge from the row in which it begins.
pub(crate) fn walk_along(
    alloc: Global,
    traps: &Traps,
    ranks: &Ranks<'_>,
    edge: u32,
    from: usize,
) -> Result<Walk, AllocError>
    requires in_range { edge < length ranks.now.ends }
    requires is_map { IsMapOf ranks.now traps.now }
    requires calm { IsCalmSet ranks.now (with_edge (among traps.now.added) edge) }
    requires is_new { among traps.now.added edge ≡ false }
    requires row { from < length traps.now.rows }
    requires is_live { live_of traps.now.is_live from ≡ true }
    requires begins { begins_in ranks.now edge (row_of traps.now.rows from) ≡ true }
    ensures { IfOk result (λ walk. IsWalk ranks.now traps.now.added traps.now.rows traps.now.is_live edge from walk.last walk.overs.items walk.unders.items walk.cuts.items) }
{
    let mut walk = Walk::new(alloc, from);
    walk.follow(traps, ranks, edge)?;
    Ok(walk)
}
