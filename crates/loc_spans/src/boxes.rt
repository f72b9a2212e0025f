// The features of a layer, each with a box.

ghost use Rattle.std.specs.Prelude.{◌≡◌, ◌+◌, ◌<◌, ◌≤◌, [], true, List, ℕ, IfOk, IfSome, OnOk, ◌&&◌, int_le, get_or, length, map, slice_index_or};
ghost use Rattle.loc_spec_text.specs.Limits.{most_features};
ghost use Rattle.loc_spec_plane.specs.Rings.{Rings as RingsOf, segments};
ghost use Rattle.loc_rings.specs.Values.{rings_of};
ghost use Rattle.loc_spans.specs.Boxes.{AreBoxes, AreKept, IsBoxed, IsNear, Kept, feature_of, holds_point};
ghost use Rattle.loc_spans.specs.Parity.{IsAnswer};

use crate::extents::box_about;
use crate::segments::segments_of;
use crate::spans::Spans;
use loc_geom::{Edge, Point, Steps};
use loc_rings::{Feature, Layer};
use std::alloc::{AllocError, Global};
use std::marker::Model;
use std::sync::ledger::Ledger;

/// A lowest and a highest point of a box, and the number of the feature that it is about.
#[derive(Clone, Copy, Drop)]
pub struct Extent {
    low: Point,
    high: Point,
    feature: u32,
}

/// The features of a layer: the segments of each, and boxes about them in the order in which they begin.
#[derive(Drop)]
pub struct Boxed {
    boxes: Vec<(Edge, Extent)>,
    moments: Spans,
    segments: Vec<Spans>,
}

impl Model for Boxed {
    ghost use Rattle.std.specs.Prelude.{◌≡◌, map};
    ghost use Rattle.loc_spans.specs.Boxes.{BoxedState, Kept};

    ghost Value = { BoxedState };

    ghost view = { λ b. record { boxes = b.boxes.items; segments = b.segments.items } };

    ghost invariant = { λ b. b.moments ≡ map (λ (box : Kept). box.0) b.boxes.items };
}

// The box of one feature more, where it has segments.
fn add_box(boxes: &mut Vec<(Edge, Extent)>, rows: &[Edge], number: u32) -> Result<(), AllocError>
    ensures { (layer : List RingsOf) → segments (get_or layer number []) ≡ rows.now → number < length layer → AreBoxes layer boxes.old.items number → OnOk result (AreBoxes layer boxes.new.items (number + 1)) }
{
    match box_about(rows) {
        Some(around) => {
            let extent = Extent {
                low: around.low,
                high: around.high,
                feature: number,
            };
            boxes.push((around.span, extent))?;
        }
        None => {}
    }
    Ok(())
}

// One feature more: its segments, and its box.
fn add_feature(
    alloc: Global,
    boxes: &mut Vec<(Edge, Extent)>,
    kept: &mut Vec<Spans>,
    feature: &Feature,
    number: u32,
) -> Result<(), AllocError>
    ensures boxes { (layer : List RingsOf) → get_or layer number [] ≡ rings_of feature.now → number < length layer → AreBoxes layer boxes.old.items number → OnOk result (AreBoxes layer boxes.new.items (number + 1)) }
    ensures kept { (layer : List RingsOf) → get_or layer number [] ≡ rings_of feature.now → AreKept layer kept.old.items number → OnOk result (AreKept layer kept.new.items (number + 1)) }
{
    let rows = segments_of(alloc, feature.rings())?;
    add_box(boxes, &rows, number)?;
    kept.push(Spans::make(alloc, rows)?)?;
    Ok(())
}

// The moments of boxes.
fn moments_of(alloc: Global, boxes: &[(Edge, Extent)]) -> Result<Vec<Edge>, AllocError>
    ensures { IfOk result (λ moments. moments.items ≡ map (λ (box : Kept). box.0) boxes.now) }
{
    let mut moments = Vec::new(alloc);
    for kept in boxes {
        moments.push(kept.0)?;
    }
    Ok(moments)
}

// Boxes in the order in which they begin, and their spans.
fn in_order(
    alloc: Global,
    mut boxes: Vec<(Edge, Extent)>,
    kept: Vec<Spans>,
) -> Result<Boxed, AllocError>
    ensures { (layer : List RingsOf) → length layer ≤ most_features → AreKept layer kept.items (length layer) → AreBoxes layer boxes.items (length layer) → IfOk result (IsBoxed layer) }
{
    boxes.sort_by_key(|kept| kept.0)?;
    let moments = Spans::of_sorted(alloc, moments_of(alloc, &boxes)?)?;
    Ok(Boxed {
        boxes,
        moments,
        segments: kept,
    })
}

// Whether a point is within the heights of a box.
fn is_between(extent: Extent, p: Point) -> bool
    ensures { result ≡ (int_le extent.low.y p.y && int_le p.y extent.high.y) }
{
    extent.low.y() <= p.y() && p.y() <= extent.high.y()
}

impl Boxed {
    /// The features of a layer.
    pub fn make(alloc: Global, layer: &Layer) -> Result<Boxed, AllocError>
        ensures { IfOk result (IsBoxed (map rings_of layer.now)) }
    {
        let features = layer.features();
        let mut boxes = Vec::new(alloc);
        let mut kept = Vec::new(alloc);
        for number in 0..features.len() {
            add_feature(
                alloc,
                &mut boxes,
                &mut kept,
                &features[number],
                number as u32,
            )?;
        }
        in_order(alloc, boxes, kept)
    }

    /// A box from a place on that holds the point. The features of the boxes that are passed over, or of all from that place on if there is
    /// none, neither touch nor cover it.
    pub fn near(&self, from: usize, p: Point) -> Option<usize>
        ensures near { (layer : List RingsOf) → IsBoxed layer self.now → IsNear layer self.now.boxes p from result }
        ensures in_range { IfSome result (λ k. k < length self.now.boxes) }
        ensures holds { IfSome result (λ k. (d : Kept) → holds_point (slice_index_or self.now.boxes k d) p ≡ true) }
    {
        let mut at = from;
        while let Some(k) = self.moments.next(at, p) {
            if is_between(self.boxes[k].1, p) {
                return Some(k);
            }
            at = k + 1;
        }
        None
    }

    /// The feature of a box.
    pub fn feature(&self, k: usize) -> u32
        requires { k < length self.now.boxes }
        ensures { (d : Kept) → result ≡ feature_of (slice_index_or self.now.boxes k d) }
    {
        self.boxes[k].1.feature
    }

    /// For a feature: None where it touches p, else whether it covers p. It takes at most a step for each segment of the feature.
    pub fn parity<L: Ledger>(&self, f: u32, p: Point, steps: &mut Steps<L>) -> Option<bool>
        requires in_range { f < length self.now.segments }
        ensures answer { (layer : List RingsOf) → IsBoxed layer self.now → IsAnswer (get_or layer f []) p result }
        ensures counted { steps.old ≤ steps.new }
        ensures within { steps.new ≤ steps.old + length (get_or self.now.segments f []) }
    {
        self.segments[f as usize].parity(p, steps)
    }
}
