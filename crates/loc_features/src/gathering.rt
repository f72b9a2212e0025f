// The features of what is left that touch a point and those that cover it.

ghost use Rattle.std.specs.Prelude.{◌≡◌, ◌+◌, ◌<◌, ◌≤◌, ◌++◌, ◌∷◌, [], ℕ, List, length, sum_by};
ghost use Rattle.loc_rings.specs.Values.{Feature};
ghost use Rattle.loc_edges.specs.Layers.{layer_rings};
ghost use Rattle.loc_laws_any.specs.Unions.{part_of};
ghost use Rattle.loc_parts.specs.Parts.{IsLeftOf};
ghost use Rattle.loc_features.specs.Gathered.{Names, NamesAll, noted, segment_count, segments_at};

use loc_batch::Lists;
use loc_geom::{Point, Steps};
use loc_parts::{Left, left_law};
use std::sync::ledger::Ledger;

// A feature more, by whether it touches the point or covers it.
fn note(lists: &mut Lists, feature: u32, parity: Option<bool>)
    requires touching { length lists.old.touching < 262144 }
    requires covering { length lists.old.covering < 262144 }
    ensures { lists.new ≡ noted lists.old feature parity }
{
    match parity {
        None => lists.touch(feature),
        Some(true) => lists.cover(feature),
        Some(false) => {}
    }
}

// The same in the order of their boxes. Each segment of a feature is at most one step.
fn gather<L: Ledger>(left: &Left, p: Point, lists: &mut Lists, steps: &mut Steps<L>)
    requires left { (layer : List Feature) × IsLeftOf layer left.now }
    requires touching { length lists.old.touching + length left.now.numbers.items ≤ 262144 }
    requires covering { length lists.old.covering + length left.now.numbers.items ≤ 262144 }
    ensures names { (layer : List Feature) → IsLeftOf layer left.now
        → NamesAll (part_of left.now.numbers.items (layer_rings layer)) left.now.boxed left.now.numbers.items p
        (length left.now.boxed.boxes) lists.old lists.new }
    ensures counted { steps.old ≤ steps.new }
    ensures within { steps.new ≤ steps.old + sum_by (segment_count left.now.boxed) left.now.boxed.boxes }
{
    left_law(left);
    let boxed = &left.boxed;
    let mut from = 0;
    while let Some(k) = boxed.near(from, p) {
        let feature = boxed.feature(k);
        let parity = boxed.parity(feature, p, steps);
        note(lists, left.numbers[feature as usize], parity);
        from = k + 1;
    }
}

/// Names the features of what is left that touch a point and those that cover it, behind those that are named. Each segment of a feature is at
/// most one step.
pub(crate) fn name_left<L: Ledger>(left: &Left, p: Point, lists: &mut Lists, steps: &mut Steps<L>)
    requires left { (layer : List Feature) × IsLeftOf layer left.now }
    requires touching { length lists.old.touching + length left.now.numbers.items ≤ 262144 }
    requires covering { length lists.old.covering + length left.now.numbers.items ≤ 262144 }
    ensures names { (layer : List Feature) (named : List (List ℕ)) → IsLeftOf layer left.now
        → Names (layer_rings layer) p named lists.old
        → Names (layer_rings layer) p (named ++ left.now.numbers.items ∷ []) lists.new }
    ensures counted { steps.old ≤ steps.new }
    ensures within { (layer : List Feature) → IsLeftOf layer left.now
        → steps.new ≤ steps.old + sum_by (segments_at (layer_rings layer)) left.now.numbers.items }
{
    left_law(left);
    gather(left, p, lists, steps);
}
