// The pieces of tagged segments, and the first segment of each.

ghost use Rattle.std.specs.Prelude.{◌≡◌, ℕ, ◌<◌, ◌≤◌, ◌+◌, ◌-◌, ◌++◌, List, false, length, map, slice_index_or, All, IsTrue, IfOk, IfErr, OnOk};
ghost use Rattle.std.specs.List.Sorted.{IsPermutation, IsSortedBy};
ghost use Rattle.loc_spec_plane.specs.Points.{Edge as EdgeOf, before, edge_before, same_edge};
ghost use Rattle.loc_spec_plane.specs.Lists.{is_rising, sorted_set};
ghost use Rattle.loc_spec_plane.specs.Tables.{cut_at};
ghost use Rattle.loc_edges.specs.Tagged.{segments_in, tagged_by};
ghost use Rattle.loc_laws_repeats.specs.Repeats.{IsFirstTwice};
ghost use Rattle.loc_node.specs.Pieces.{IsRefused, cut_tagged, first_with, piece_before, placed_from, with_feature};
ghost use Rattle.loc_spec_text.specs.Limits.{most_pieces};

use crate::fault::NodeFault;
use crate::finder::Finder;
use crate::guides::guides;
use loc_geom::{Edge, Point};
use loc_spec_text::MOST_PIECES;
use std::alloc::{AllocError, Global};

// Puts the pieces of a segment of a feature behind the others.
fn put_pieces(
    all: &mut Vec<(Edge, usize)>,
    pieces: &[Edge],
    feature: usize,
) -> Result<(), AllocError>
    ensures { OnOk result (all.new.items ≡ all.old.items ++ tagged_by feature pieces.now) }
{
    for piece in pieces {
        all.push((*piece, feature))?;
    }
    Ok(())
}

// Puts them there unless all are too many then.
fn add_pieces(
    all: &mut Vec<(Edge, usize)>,
    pieces: &[Edge],
    feature: usize,
) -> Result<(), NodeFault>
    requires few { length all.old.items ≤ most_pieces }
    ensures ok { OnOk result (all.new.items ≡ all.old.items ++ tagged_by feature pieces.now) }
    ensures few { OnOk result (length all.new.items ≤ most_pieces) }
    ensures refused { IfErr result (IsRefused (length all.old.items + length pieces.now)) }
{
    if pieces.len() > MOST_PIECES - all.len() {
        return Err(NodeFault::ManyPieces);
    }
    Ok(put_pieces(all, pieces, feature)?)
}

// Whether the segment at place n is the edge that the one before it is.
pub(crate) fn is_again(tagged: &[(Edge, usize)], n: usize) -> bool
    requires in_range { n < length tagged.now }
    ensures first { n ≡ 0 → result ≡ false }
    ensures later { 0 < n → (d : EdgeOf × ℕ) → result ≡ same_edge (slice_index_or tagged.now n d).0 (slice_index_or tagged.now (n - 1) d).0 }
{
    n > 0 && tagged[n].0 == tagged[n - 1].0
}

// Puts the pieces of the segment at place n in the place of those of the one before it, unless the two are one edge.
fn cut_next(
    finder: &Finder,
    pieces: &mut Vec<Edge>,
    found: &mut Vec<Point>,
    tagged: &[(Edge, usize)],
    n: usize,
) -> Result<(), AllocError>
    requires in_range { n < length tagged.now }
    requires last { 0 < n → (d : EdgeOf × ℕ) → pieces.old.items ≡ cut_at finder.now (slice_index_or tagged.now (n - 1) d).0 }
    ensures { OnOk result ((d : EdgeOf × ℕ) → pieces.new.items ≡ cut_at finder.now (slice_index_or tagged.now n d).0) }
{
    if is_again(tagged, n) {
        return Ok(());
    }
    finder.cut(pieces, found, tagged[n].0)
}

// The pieces of all segments, each with the place of its segment. They are refused where they are too many.
fn cut_all(
    alloc: Global,
    finder: &Finder,
    tagged: &[(Edge, usize)],
) -> Result<Vec<(Edge, usize)>, NodeFault>
    ensures ok { IfOk result (λ all. all.items ≡ cut_tagged (cut_at finder.now) (placed_from 0 tagged.now)) }
    ensures few { IfOk result (λ all. length all.items ≤ most_pieces) }
    ensures refused { IfErr result (IsRefused (length (cut_tagged (cut_at finder.now) tagged.now))) }
{
    let mut all = Vec::new(alloc);
    let mut pieces = Vec::new(alloc);
    let mut found = Vec::new(alloc);
    for n in 0..tagged.len() {
        cut_next(finder, &mut pieces, &mut found, tagged, n)?;
        add_pieces(&mut all, &pieces, n)?;
    }
    Ok(all)
}

/// The pieces of all segments, cut at the corners on them, in order, those of an edge in the order of their segments. Each has the place of its
/// segment. They are refused where they are too many.
pub(crate) fn placed_pieces(
    alloc: Global,
    corners: &[Point],
    tagged: &[(Edge, usize)],
) -> Result<Vec<(Edge, usize)>, NodeFault>
    requires rise { IsTrue (is_rising before corners.now) }
    ensures moved { IfOk result (λ pieces. IsPermutation (cut_tagged (cut_at corners.now) (placed_from 0 tagged.now)) pieces.items) }
    ensures in_order { IfOk result (λ pieces. IsSortedBy piece_before pieces.items) }
    ensures few { IfOk result (λ pieces. length pieces.items ≤ most_pieces) }
    ensures refused { IfErr result (IsRefused (length (cut_tagged (cut_at corners.now) tagged.now))) }
{
    let guides = guides(alloc, corners, tagged)?;
    let finder = Finder::make(alloc, corners, &guides)?;
    let mut pieces = cut_all(alloc, &finder, tagged)?;
    pieces.sort_unstable();
    Ok(pieces)
}

/// The first of pieces in order that stands there more than once.
pub(crate) fn first_twice(pieces: &[(Edge, usize)]) -> Option<Edge>
    requires in_order { IsSortedBy edge_before (segments_in pieces.now) }
    ensures { IsFirstTwice (segments_in pieces.now) result }
{
    for n in 1..pieces.len() {
        if is_again(pieces, n) {
            return Some(pieces[n].0);
        }
    }
    None
}

/// The source of each edge of the pieces, in order: the first of the segments that have it as a piece.
pub(crate) fn sources(
    alloc: Global,
    tagged: &[(Edge, usize)],
    pieces: &[(Edge, usize)],
) -> Result<Vec<Edge>, AllocError>
    requires in_range { All (λ (p : EdgeOf × ℕ). p.1 < length tagged.now) pieces.now }
    requires in_order { IsSortedBy piece_before pieces.now }
    ensures { IfOk result (λ sources. (cut : EdgeOf → List EdgeOf) → IsPermutation (cut_tagged cut (placed_from 0 tagged.now)) pieces.now → sources.items ≡ map (first_with cut (segments_in tagged.now)) (sorted_set edge_before (segments_in pieces.now))) }
{
    let mut sources = Vec::new(alloc);
    for n in 0..pieces.len() {
        if !is_again(pieces, n) {
            sources.push(tagged[pieces[n].1].0)?;
        }
    }
    sources.shrink_to_fit();
    Ok(sources)
}

// Puts the features of the segments in the place of their places.
fn put_features(pieces: &mut [(Edge, usize)], tagged: &[(Edge, usize)])
    requires in_range { All (λ (p : EdgeOf × ℕ). p.1 < length tagged.now) pieces.old }
    ensures { pieces.new ≡ map (with_feature tagged.now) pieces.old }
{
    for n in 0..pieces.len() {
        pieces[n].1 = tagged[pieces[n].1].1;
    }
}

/// The pieces with the features of their segments in place of their places, in order, those of an edge in the order of their features.
pub(crate) fn featured_pieces(
    mut pieces: Vec<(Edge, usize)>,
    tagged: &[(Edge, usize)],
) -> Vec<(Edge, usize)>
    requires in_range { All (λ (p : EdgeOf × ℕ). p.1 < length tagged.now) pieces.items }
    ensures moved { IsPermutation (map (with_feature tagged.now) pieces.items) result.items }
    ensures in_order { IsSortedBy piece_before result.items }
{
    put_features(&mut pieces, tagged);
    pieces.sort_unstable();
    pieces
}
