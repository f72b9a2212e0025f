// The features of a table: the edges of each, and which belong to one map.

use loc_edges::EdgeTable;
use loc_spec_plane::Mark;
use std::alloc::{AllocError, Global};

/// For each feature of a table its edges, and the least feature of its map. Features that share an edge are of one map.
#[derive(Drop)]
pub(crate) struct Related {
    edges: Vec<Vec<u32>>,
    maps: Vec<u32>,
}

// What a feature leads to: the least feature of its map so far. The way there is halved.
fn root(leads: &mut Vec<u32>, feature: u32) -> u32 {
    let mut at = feature;
    for _turn in 0..leads.len() {
        let up = leads.get(at as usize).copied().unwrap_or(at);
        if up == at {
            break;
        }
        let over = leads.get(up as usize).copied().unwrap_or(up);
        if let Some(slot) = leads.get_mut(at as usize) {
            *slot = over;
        }
        at = over;
    }
    at
}

// The features of an edge are of one map.
fn join(leads: &mut Vec<u32>, marks: &[Mark]) {
    let Some(first) = marks.first() else { return };
    let mut least = root(leads, first.feature);
    for mark in marks {
        let other = root(leads, mark.feature);
        let greater = least.max(other);
        least = least.min(other);
        if let Some(slot) = leads.get_mut(greater as usize) {
            *slot = least;
        }
    }
}

// Notes an edge at each of its features.
fn note(edges: &mut Vec<Vec<u32>>, marks: &[Mark], edge: u32) -> Result<(), AllocError> {
    for mark in marks {
        if let Some(own) = edges.get_mut(mark.feature as usize) {
            own.push(edge)?;
        }
    }
    Ok(())
}

// So many features, each of which leads to itself and has no edges.
fn unrelated(alloc: Global, count: u32) -> Result<(Vec<u32>, Vec<Vec<u32>>), AllocError> {
    let mut leads = Vec::with_capacity(alloc, count as usize)?;
    let mut edges = Vec::with_capacity(alloc, count as usize)?;
    for feature in 0..count {
        leads.push(feature)?;
        edges.push(Vec::new(alloc))?;
    }
    Ok((leads, edges))
}

// What each feature leads to: the least feature of its map.
fn maps_of(alloc: Global, leads: &mut Vec<u32>, count: u32) -> Result<Vec<u32>, AllocError> {
    let mut maps = Vec::with_capacity(alloc, count as usize)?;
    for feature in 0..count {
        maps.push(root(leads, feature))?;
    }
    Ok(maps)
}

impl Related {
    /// The features of a table, of which there are so many.
    pub(crate) fn make(
        alloc: Global,
        table: &EdgeTable,
        count: u32,
    ) -> Result<Related, AllocError> {
        let (mut leads, mut edges) = unrelated(alloc, count)?;
        for edge in 0..table.edge_count() {
            join(&mut leads, table.marks(edge));
            note(&mut edges, table.marks(edge), edge)?;
        }
        let maps = maps_of(alloc, &mut leads, count)?;
        Ok(Related { edges, maps })
    }

    /// The edges of a feature.
    pub(crate) fn edges(&self, feature: u32) -> Option<&[u32]> {
        Some(self.edges.get(feature as usize)?.as_slice())
    }

    /// The least feature of the map of a feature.
    pub(crate) fn map(&self, feature: u32) -> u32 {
        self.maps.get(feature as usize).copied().unwrap_or(feature)
    }
}
