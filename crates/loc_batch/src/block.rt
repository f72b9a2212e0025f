// A block of lines: the points that they read as, and what is found for each. The points are sought in the order of the plane, so that
// searches that follow each other walk the same nodes.

ghost use Rattle.std.specs.Prelude.{◌≡◌, ◌+◌, ◌*◌, ◌<◌, ◌≤◌, List, None, Option, false, true, get_or, length, map, option_map, IfOk};
ghost use Rattle.std.specs.List.{All};
ghost use Rattle.loc_spec_plane.specs.Points.{Point as PointValue};
ghost use Rattle.loc_batch.specs.Blocks.{AreKnown, Holds, no_lines, placed, with_line};

use crate::answerer::Answerer;
use loc_geom::{Point, Steps};
use std::alloc::{AllocError, Global};
use std::marker::Model;
use std::sync::ledger::Ledger;

/// How many lines a block has room for.
const MOST_LINES: usize = 131_072;

/// A point that is sought, and the line of the block that reads as it.
#[derive(Clone, Copy, PartialEq, Eq, PartialOrd, Ord, Drop)]
pub(crate) struct Query {
    point: Point,
    line: usize,
}

/// The lines of a block. It has all its memory from `make` on.
#[derive(Drop)]
pub(crate) struct Block<F: Copy + Drop> {
    queries: Vec<Query>,
    found: Vec<Option<F>>,
}

impl<F: Copy + Drop> Model for Block<F> {
    ghost use Rattle.std.specs.Prelude.{◌≤◌, vec_len, vec_capacity};
    ghost use Rattle.loc_batch.specs.Blocks.{BlockState};

    ghost Value = { BlockState F };

    ghost view = { λ b. record { queries = b.queries.items; found = b.found.items } };

    ghost invariant = { λ b. (vec_len b.queries ≤ vec_len b.found) × (vec_len b.found ≤ 131072) × (131072 ≤ vec_capacity b.queries) × (131072 ≤ vec_capacity b.found) };
}

// What is found for each query stands in its line.
fn seek<F: Copy + Drop, D: Answerer<F>, L: Ledger>(
    queries: &[Query],
    found: &mut [Option<F>],
    by: &D,
    steps: &mut Steps<L>,
)
    requires fits { D.fits by.now }
    requires lines { All (λ q. q.line < length found.old) queries.now }
    requires known { AreKnown (D.knows by.now) found.old }
    ensures placed { found.new ≡ placed (D.finds by.now) queries.now found.old }
    ensures known { AreKnown (D.knows by.now) found.new }
    ensures counted { steps.old ≤ steps.new }
    ensures within { steps.new ≤ steps.old + length queries.now * D.most_found by.now }
{
    for query in queries {
        found[query.line] = Some(by.find(query.point, steps));
    }
}

impl<F: Copy + Drop> Block<F> {
    // A block without lines.
    pub(crate) fn make(alloc: Global) -> Result<Block<F>, AllocError>
        ensures { IfOk result (λ b. b ≡ no_lines) }
    {
        Ok(Block {
            queries: Vec::with_capacity(alloc, MOST_LINES)?,
            found: Vec::with_capacity(alloc, MOST_LINES)?,
        })
    }

    // Lets go all lines.
    pub(crate) fn clear(&mut self)
        ensures { self.new ≡ no_lines }
    {
        self.queries.clear();
        self.found.clear();
    }

    // The number of lines.
    pub(crate) fn len(&self) -> usize
        ensures count { result ≡ length self.now.found }
        ensures few { result ≤ 131072 }
    {
        self.found.len()
    }

    // Whether no further line has room.
    pub(crate) fn is_full(&self) -> bool
        ensures room { result ≡ false → length self.now.found < 131072 }
        ensures full { result ≡ true → 131072 ≤ length self.now.found }
    {
        self.found.len() >= MOST_LINES
    }

    // One line more, by the point that it reads as.
    pub(crate) fn note(&mut self, point: Option<Point>)
        requires { length self.old.found < 131072 }
        ensures { self.new ≡ with_line self.old point }
    {
        let line = self.found.len();
        let _ = self.found.push(None);
        if let Some(point) = point {
            let _ = self.queries.push(Query { point, line });
        }
    }

    // Seeks the points of all lines, in the order of the plane.
    pub(crate) fn search<D: Answerer<F>, L: Ledger>(&mut self, by: &D, steps: &mut Steps<L>)
        requires fits { D.fits by.now }
        requires held { (points : List (Option PointValue)) × Holds points self.old }
        ensures found { (points : List (Option PointValue)) → Holds points self.old → self.new.found ≡ map (option_map (D.finds by.now)) points }
        ensures known { AreKnown (D.knows by.now) self.new.found }
        ensures counted { steps.old ≤ steps.new }
        ensures within { steps.new ≤ steps.old + length self.old.queries * D.most_found by.now }
    {
        self.queries.sort_unstable();
        seek(&self.queries, &mut self.found, by, steps);
    }

    // What was found for a line.
    pub(crate) fn found(&self, line: usize) -> Option<F>
        requires { line < length self.now.found }
        ensures { result ≡ get_or self.now.found line None }
    {
        self.found[line]
    }
}
