// The features of a layer that touch a point and those that cover it, by the parts of the layer.

ghost use Rattle.std.specs.Prelude.{◌≡◌, ◌+◌, ◌≤◌, List, length};
ghost use Rattle.loc_spec_plane.specs.Rings.{covers, touches};
ghost use Rattle.loc_spec_plane.specs.Tables.{layer_segments};
ghost use Rattle.loc_laws_any.specs.Unions.{passing};
ghost use Rattle.loc_rings.specs.Values.{Feature};
ghost use Rattle.loc_edges.specs.Layers.{layer_rings};
ghost use Rattle.loc_parts.specs.Parts.{IsParted, numbers_in, part_numbers};
ghost use Rattle.loc_features.specs.Gathered.{Names};
ghost use Rattle.loc_features.specs.Places.{AreAt};

use crate::gathering::name_left;
use crate::placing::{Found, name_parts};
use loc_batch::Lists;
use loc_geom::{Point, Steps};
use loc_parts::Parted;
use std::sync::ledger::Ledger;

// Names those of all that is left, behind those of the parts.
fn name_rest<L: Ledger>(parted: &Parted, p: Point, lists: &mut Lists, steps: &mut Steps<L>)
    requires parted { (layer : List Feature) × IsParted layer parted.now
        × Names (layer_rings layer) p (part_numbers parted.now.parts.items) lists.old }
    ensures names { (layer : List Feature) → IsParted layer parted.now
        → Names (layer_rings layer) p (part_numbers parted.now.parts.items) lists.old
        → Names (layer_rings layer) p (numbers_in parted.now.parts.items parted.now.left.items) lists.new }
    ensures counted { steps.old ≤ steps.new }
    ensures within { (layer : List Feature) → IsParted layer parted.now
        → steps.new ≤ steps.old + length (layer_segments (layer_rings layer)) }
{
    for left in &parted.left {
        name_left(left, p, lists, steps);
    }
}

/// The features of the layer that touch a point and those that cover it, in the order of the layer, by its places in the parts.
pub(crate) fn name_at<const N: usize, L: Ledger>(
    parted: &Parted,
    found: &Found<N>,
    lists: &mut Lists,
    steps: &mut Steps<L>,
)
    requires few { length parted.now.parts.items ≤ N }
    requires parted { (layer : List Feature) × IsParted layer parted.now }
    requires known { AreAt parted.now.parts.items found.now }
    ensures touching { (layer : List Feature) → IsParted layer parted.now
        → lists.new.touching ≡ passing (λ rings. touches rings found.now.point) (layer_rings layer) }
    ensures covering { (layer : List Feature) → IsParted layer parted.now
        → lists.new.covering ≡ passing (λ rings. covers rings found.now.point) (layer_rings layer) }
    ensures counted { steps.old ≤ steps.new }
    ensures within { (layer : List Feature) → IsParted layer parted.now
        → steps.new ≤ steps.old + length (layer_segments (layer_rings layer)) }
{
    lists.clear();
    name_parts(parted, found, lists);
    name_rest(parted, found.point, lists, steps);
    lists.sort();
}
