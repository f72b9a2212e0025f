// The edges that the line of a pass meets.

use loc_edges::EdgeTable;
use loc_status::Beside;
use std::alloc::{AllocError, Global};

// How many edges a row may have.
const MOST_IN_ROW: usize = 512;

/// The edges that the line of a pass meets, from the lowest to the highest, in rows, so that one more moves a few of them only. Where the order
/// broke an edge may stand in a wrong place, or not be found again.
#[derive(Drop)]
pub(crate) struct Line {
    rows: Vec<Vec<u32>>,
}

// Whether an edge is lower than another.
fn is_under(table: &EdgeTable, edge: u32, other: u32) -> bool {
    let count = table.edge_count();
    edge < count && other < count && table.ranks().lower(edge, other)
}

// The place behind the edges that are lower than an edge.
fn place_for(table: &EdgeTable, row: &[u32], edge: u32) -> usize {
    let mut low = 0;
    let mut high = row.len();
    for _turn in 0..row.len() {
        if low >= high {
            break;
        }
        let middle = low + (high - low) / 2;
        match row.get(middle) {
            Some(other) if is_under(table, *other, edge) => low = middle + 1,
            _ => high = middle,
        }
    }
    low
}

impl Line {
    /// No edges.
    pub(crate) fn new(alloc: Global) -> Line {
        Line {
            rows: Vec::new(alloc),
        }
    }

    // The edge at a place of a row.
    fn at(&self, row: usize, place: usize) -> Option<u32> {
        self.rows.get(row)?.get(place).copied()
    }

    // The last row that begins with an edge lower than this one, or the first row.
    fn row_for(&self, table: &EdgeTable, edge: u32) -> usize {
        let mut low = 0;
        let mut high = self.rows.len();
        for _turn in 0..self.rows.len() {
            if low >= high {
                break;
            }
            let middle = low + (high - low) / 2;
            match self.at(middle, 0) {
                Some(other) if is_under(table, other, edge) => low = middle + 1,
                _ => high = middle,
            }
        }
        low.saturating_sub(1)
    }

    // The edges before and behind a place of a row.
    fn beside(&self, row: usize, place: usize) -> Beside {
        let below = if place > 0 {
            self.at(row, place - 1)
        } else if row > 0 {
            self.rows.get(row - 1).and_then(|list| list.last().copied())
        } else {
            None
        };
        let above = match self.at(row, place.saturating_add(1)) {
            Some(edge) => Some(edge),
            None => self.at(row.saturating_add(1), 0),
        };
        Beside { below, above }
    }

    // Cuts a row that is too long into two.
    fn cut(&mut self, row: usize) -> Result<(), AllocError> {
        let Some(list) = self.rows.get_mut(row) else {
            return Ok(());
        };
        if list.len() <= MOST_IN_ROW {
            return Ok(());
        }
        let tail = list.split_off(MOST_IN_ROW / 2)?;
        let next = row.saturating_add(1).min(self.rows.len());
        self.rows.insert(next, tail)?;
        Ok(())
    }

    /// Puts an edge in, and tells its neighbours.
    pub(crate) fn insert(
        &mut self,
        alloc: Global,
        table: &EdgeTable,
        edge: u32,
    ) -> Result<Beside, AllocError> {
        let row = self.row_for(table, edge);
        let Some(list) = self.rows.get_mut(row) else {
            self.rows.push(Vec::from_slice(alloc, &[edge])?)?;
            return Ok(self.beside(row, 0));
        };
        let place = place_for(table, list, edge).min(list.len());
        list.insert(place, edge)?;
        let beside = self.beside(row, place);
        self.cut(row)?;
        Ok(beside)
    }

    // Where an edge stands in a row.
    fn place_in(&self, row: usize, edge: u32) -> Option<usize> {
        self.rows.get(row)?.iter().position(|other| *other == edge)
    }

    // Where an edge stands: where it should, or else in its row or one of the rows beside that.
    fn find(&self, table: &EdgeTable, edge: u32) -> Option<(usize, usize)> {
        let row = self.row_for(table, edge);
        let list = self.rows.get(row)?;
        let place = place_for(table, list, edge);
        if self.at(row, place) == Some(edge) {
            return Some((row, place));
        }
        for near in [row.saturating_add(1), row, row.saturating_sub(1)] {
            if let Some(place) = self.place_in(near, edge) {
                return Some((near, place));
            }
        }
        None
    }

    /// Takes an edge out, and tells between which it stood, where it is found.
    pub(crate) fn remove(&mut self, table: &EdgeTable, edge: u32) -> Option<Beside> {
        let (row, place) = self.find(table, edge)?;
        let beside = self.beside(row, place);
        let list = self.rows.get_mut(row)?;
        if place < list.len() {
            list.remove(place);
        }
        if list.is_empty() && row < self.rows.len() {
            self.rows.remove(row);
        }
        Some(beside)
    }
}
