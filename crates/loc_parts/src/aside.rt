// Which features of a layer go aside so that the others do not conflict: a sweep that goes on behind a conflict.

ghost use Rattle.std.specs.Prelude.{◌≡◌, ◌<◌, ◌≤◌, IfOk, length};
ghost use Rattle.loc_spec_text.specs.Limits.{most_features};

use crate::line::Line;
use crate::related::Related;
use loc_edges::EdgeTable;
use loc_geom::{Meeting, conflict};
use loc_node::{NodeFault, node};
use loc_rings::Layer;
use loc_spec_plane::Mark;
use std::alloc::{AllocError, Global};

/// What becomes of a feature in a pass: it is kept, it waits for a later pass, or it is in no part, as where it conflicts with itself.
#[derive(Clone, Copy, PartialEq, Eq)]
pub(crate) enum Fate {
    Kept,
    Later,
    Crossed,
}

// What a pass knows of the edges: how many kept features each has, which stand in the line, and which neighbours are to be tested.
#[derive(Drop)]
struct Pass {
    holders: Vec<usize>,
    present: Vec<bool>,
    line: Line,
    pairs: Vec<(u32, u32)>,
}

// What becomes of a feature.
fn fate_of(fates: &[Fate], feature: u32) -> Fate {
    fates.get(feature as usize).copied().unwrap_or(Fate::Later)
}

// Whether two edges conflict.
fn are_in_conflict(table: &EdgeTable, first: u32, second: u32) -> bool
    requires first { first < length table.now.ends }
    requires second { second < length table.now.ends }
{
    !matches!(
        conflict(table.edge(first), table.edge(second)),
        Meeting::Apart
    )
}

// Whether marks, which rise by their features, name a feature.
fn names(marks: &[Mark], feature: u32) -> bool {
    let mut low = 0;
    let mut high = marks.len();
    for _turn in 0..marks.len() {
        if low >= high {
            break;
        }
        let middle = low + (high - low) / 2;
        match marks.get(middle) {
            Some(mark) if mark.feature < feature => low = middle + 1,
            _ => high = middle,
        }
    }
    marks.get(low).is_some_and(|mark| mark.feature == feature)
}

// The rank of an edge: of its kept features the one whose map, and which itself, is the least.
fn rank(related: &Related, fates: &[Fate], marks: &[Mark]) -> (u32, u32) {
    let mut least = (u32::MAX, u32::MAX);
    for mark in marks {
        let own = (related.map(mark.feature), mark.feature);
        if fate_of(fates, mark.feature) == Fate::Kept && own < least {
            least = own;
        }
    }
    least
}

impl Pass {
    // Before the first corner no edge stands in the line.
    fn new(alloc: Global, table: &EdgeTable) -> Result<Pass, AllocError> {
        let mut holders = Vec::with_capacity(alloc, table.edge_count() as usize)?;
        for edge in 0..table.edge_count() {
            holders.push(table.marks(edge).len())?;
        }
        Ok(Pass {
            holders,
            present: vec![in alloc; false; table.edge_count() as usize]?,
            line: Line::new(alloc),
            pairs: Vec::new(alloc),
        })
    }

    // Whether an edge stands in the line.
    fn is_present(&self, edge: u32) -> bool {
        self.present.get(edge as usize).copied().unwrap_or(false)
    }

    // Notes two neighbours, where there are both.
    fn note(&mut self, below: Option<u32>, above: Option<u32>) -> Result<(), AllocError> {
        if let (Some(first), Some(second)) = (below, above) {
            self.pairs.push((first, second))?;
        }
        Ok(())
    }

    // Takes an edge out of the line, where it stands there, and notes the two between which it stood.
    fn take(&mut self, table: &EdgeTable, edge: u32) -> Result<(), AllocError> {
        if !self.is_present(edge) {
            return Ok(());
        }
        if let Some(here) = self.present.get_mut(edge as usize) {
            *here = false;
        }
        match self.line.remove(table, edge) {
            Some(beside) => self.note(beside.below, beside.above),
            None => Ok(()),
        }
    }

    // An edge has one kept feature less. Without any it leaves the line.
    fn release(&mut self, table: &EdgeTable, edge: u32) -> Result<(), AllocError> {
        let Some(count) = self.holders.get_mut(edge as usize) else {
            return Ok(());
        };
        *count = count.saturating_sub(1);
        if *count > 0 {
            return Ok(());
        }
        self.take(table, edge)
    }

    // A kept feature goes aside, and with it all its edges that have no other kept feature.
    fn put_aside(
        &mut self,
        table: &EdgeTable,
        related: &Related,
        fates: &mut [Fate],
        feature: u32,
        fate: Fate,
    ) -> Result<(), AllocError> {
        if fate_of(fates, feature) != Fate::Kept {
            return Ok(());
        }
        if let Some(slot) = fates.get_mut(feature as usize) {
            *slot = fate;
        }
        let Some(edges) = related.edges(feature) else {
            return Ok(());
        };
        for edge in edges {
            self.release(table, *edge)?;
        }
        Ok(())
    }

    // Each feature that has both of two edges that conflict is crossed.
    fn cross_shared(
        &mut self,
        table: &EdgeTable,
        related: &Related,
        fates: &mut [Fate],
        first: u32,
        second: u32,
    ) -> Result<(), AllocError>
        requires first { first < length table.now.ends }
        requires second { second < length table.now.ends }
    {
        for mark in table.marks(first) {
            if names(table.marks(second), mark.feature) {
                self.put_aside(table, related, fates, mark.feature, Fate::Crossed)?;
            }
        }
        Ok(())
    }

    // All features of an edge wait.
    fn put_off(
        &mut self,
        table: &EdgeTable,
        related: &Related,
        fates: &mut [Fate],
        edge: u32,
    ) -> Result<(), AllocError>
        requires { edge < length table.now.ends }
    {
        for mark in table.marks(edge) {
            self.put_aside(table, related, fates, mark.feature, Fate::Later)?;
        }
        Ok(())
    }

    // Two neighbours are tested. Where they conflict and no feature has both, the one of the higher rank loses.
    fn meet(
        &mut self,
        table: &EdgeTable,
        related: &Related,
        fates: &mut [Fate],
        first: u32,
        second: u32,
    ) -> Result<(), AllocError> {
        if !self.is_present(first) || !self.is_present(second) {
            return Ok(());
        }
        let count = table.edge_count();
        if first >= count || second >= count || !are_in_conflict(table, first, second) {
            return Ok(());
        }
        self.cross_shared(table, related, fates, first, second)?;
        if !self.is_present(first) || !self.is_present(second) {
            return Ok(());
        }
        let first_rank = rank(related, fates, table.marks(first));
        let second_rank = rank(related, fates, table.marks(second));
        let loser = if first_rank < second_rank {
            second
        } else {
            first
        };
        self.put_off(table, related, fates, loser)
    }

    // All noted neighbours are tested.
    fn settle(
        &mut self,
        table: &EdgeTable,
        related: &Related,
        fates: &mut [Fate],
    ) -> Result<(), AllocError> {
        for _turn in 0..u32::MAX {
            let Some((first, second)) = self.pairs.pop() else {
                break;
            };
            self.meet(table, related, fates, first, second)?;
        }
        Ok(())
    }

    // The edges that end at a corner leave the line.
    fn leave(
        &mut self,
        table: &EdgeTable,
        related: &Related,
        fates: &mut [Fate],
        corner: u32,
    ) -> Result<(), AllocError>
        requires { corner < length table.now.corners }
    {
        for edge in table.ending(corner) {
            self.take(table, *edge)?;
        }
        self.settle(table, related, fates)
    }

    // An edge that has a kept feature comes into the line.
    fn come(&mut self, alloc: Global, table: &EdgeTable, edge: u32) -> Result<(), AllocError> {
        if self.holders.get(edge as usize).copied().unwrap_or(0) == 0 {
            return Ok(());
        }
        if let Some(here) = self.present.get_mut(edge as usize) {
            *here = true;
        }
        let beside = self.line.insert(alloc, table, edge)?;
        self.note(beside.below, Some(edge))?;
        self.note(Some(edge), beside.above)
    }

    // The edges that begin at a corner come into the line, each tested at once.
    fn come_all(
        &mut self,
        alloc: Global,
        table: &EdgeTable,
        related: &Related,
        fates: &mut [Fate],
        corner: u32,
    ) -> Result<(), AllocError>
        requires { corner < length table.now.corners }
    {
        let (first, past) = table.beginning(corner);
        for edge in first..past {
            self.come(alloc, table, edge)?;
            self.settle(table, related, fates)?;
        }
        Ok(())
    }
}

// The sweep over the corners of a table.
fn swept_aside(
    alloc: Global,
    table: &EdgeTable,
    related: &Related,
    fates: &mut [Fate],
) -> Result<(), AllocError> {
    let mut pass = Pass::new(alloc, table)?;
    for corner in 0..table.corner_count() {
        pass.leave(table, related, fates, corner)?;
        pass.come_all(alloc, table, related, fates, corner)?;
    }
    Ok(())
}

// What becomes of so many features, by their noded table.
fn fates_by(alloc: Global, table: &EdgeTable, count: usize) -> Result<Vec<Fate>, AllocError>
    requires { count ≤ most_features }
    ensures { IfOk result (λ fates. length fates.items ≡ count) }
{
    let mut fates = vec![in alloc; Fate::Kept; count]?;
    let related = Related::make(alloc, table, count as u32)?;
    swept_aside(alloc, table, &related, &mut fates)?;
    Ok(fates)
}

/// What becomes of each feature of a layer, whose noded table may be made already. No more is said than that each has a fate: what is kept is
/// judged.
pub(crate) fn aside(
    alloc: Global,
    layer: &Layer,
    noded: Option<EdgeTable>,
) -> Result<Vec<Fate>, AllocError>
    ensures { IfOk result (λ fates. length fates.items ≡ length layer.now) }
{
    let count = layer.features().len();
    if let Some(table) = noded {
        let fates = fates_by(alloc, &table, count);
        drop(table);
        return fates;
    }
    match node(alloc, layer) {
        Ok(table) => {
            let fates = fates_by(alloc, &table, count);
            drop(table);
            fates
        }
        Err(NodeFault::ManyPieces) => vec![in alloc; Fate::Crossed; count],
        Err(NodeFault::NoMemory) => Err(AllocError),
    }
}
