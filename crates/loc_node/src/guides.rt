// Edges along whose ways the corners are put in order: where many long edges go one way, the corners on them are found faster along it. No proof
// asks which they are.

use crate::pieces::is_again;
use loc_geom::{Edge, Point, side_number};
use std::alloc::{AllocError, Global};

// How many ways are noted: each takes 32 bytes a corner where it is used.
const MOST_WAYS: usize = 4;

// From how many boxes on a search is dear.
const MANY_BOXES: usize = 16;

// How many bits half as long a number has: the number, so often halved, is about its square root.
fn half_bits(n: usize) -> u32 {
    let mut half = 0;
    for bit in 0..32_u32 {
        if n >> (2 * bit) > 0 {
            half = bit;
        }
    }
    half
}

// The place of a corner.
fn place(corners: &[Point], p: Point) -> usize {
    match corners.binary_search(&p) {
        Ok(n) => n,
        Err(n) => n,
    }
}

// About how many boxes a search for the corners on the edge meets: the more corners stand between its ends, the more.
fn boxes(corners: &[Point], edge: Edge) -> usize {
    let span = place(corners, edge.hi()).saturating_sub(place(corners, edge.lo()));
    let half = half_bits(corners.len().saturating_mul(8));
    if half < 64 { span >> half } else { 0 }
}

// Counts a dear edge to the way that it goes, if that is noted or there is room for it.
fn note(noted: &mut Vec<(Edge, usize)>, edge: Edge, dear: usize) -> Result<(), AllocError> {
    for n in 0..noted.len() {
        let guide = noted[n].0;
        if side_number(guide, edge.hi()) == side_number(guide, edge.lo()) {
            noted[n].1 = noted[n].1.saturating_add(dear);
            return Ok(());
        }
    }
    if noted.len() < MOST_WAYS {
        noted.push((edge, dear))?;
    }
    Ok(())
}

// The ways of the dear edges, with the boxes that they ask for together.
fn noted_ways(
    alloc: Global,
    corners: &[Point],
    tagged: &[(Edge, usize)],
) -> Result<Vec<(Edge, usize)>, AllocError> {
    let mut noted = Vec::new(alloc);
    for n in 0..tagged.len() {
        if !is_again(tagged, n) {
            let edge = tagged[n].0;
            let dear = boxes(corners, edge);
            if dear >= MANY_BOXES {
                note(&mut noted, edge, dear)?;
            }
        }
    }
    Ok(noted)
}

/// Edges on whose ways dear edges ask for more than twice as many boxes as there are corners.
pub(crate) fn guides(
    alloc: Global,
    corners: &[Point],
    tagged: &[(Edge, usize)],
) -> Result<Vec<Edge>, AllocError> {
    let noted = noted_ways(alloc, corners, tagged)?;
    let mut guides = Vec::new(alloc);
    for pair in &noted {
        if pair.1 / 2 > corners.len() {
            guides.push(pair.0)?;
        }
    }
    Ok(guides)
}
