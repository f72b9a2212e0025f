//! What the rows of a part name, as a call that does no work: its contract is the law.

ghost use Rattle.std.specs.Prelude.{◌≡◌, [], List, filter, get_or};
ghost use Rattle.loc_spec_plane.specs.Places.{IsPlace};
ghost use Rattle.loc_spec_plane.specs.Rings.{covers, touches};
ghost use Rattle.loc_laws_any.specs.Unions.{by_place, part_of};
ghost use Rattle.loc_rings.specs.Values.{Feature};
ghost use Rattle.loc_edges.specs.Layers.{layer_rings};
ghost use Rattle.loc_spans.specs.Boxes.{IsBoxed};
ghost use Rattle.loc_cover.specs.Legends.{covering as covering_at, touching as touching_at};
ghost use Rattle.loc_parts.specs.Parts.{IsLeftOf, IsPartOf};

use crate::parts::{Left, Part};
use loc_geom::Point;
use loc_spec_plane::Place;

/// At the place of a point the rows of a part name, by the numbers of the layer, the features of the part that touch the point and those that
/// cover it.
pub fn part_law(part: &Part, p: Point, place: Place)
    requires { IsPlace part.now.plane.table p place }
    ensures touching { (layer : List Feature) → IsPartOf layer part.now
        → by_place part.now.numbers.items (touching_at part.now.plane.legend place)
        ≡ filter (λ n. touches (get_or (layer_rings layer) n []) p) part.now.numbers.items }
    ensures covering { (layer : List Feature) → IsPartOf layer part.now
        → by_place part.now.numbers.items (covering_at part.now.plane.legend place)
        ≡ filter (λ n. covers (get_or (layer_rings layer) n []) p) part.now.numbers.items }
{
    part.plane.legend.law();
}

/// The boxes of what is left are about the features of the layer with these numbers.
pub fn left_law(left: &Left)
    ensures { (layer : List Feature) → IsLeftOf layer left.now
        → IsBoxed (part_of left.now.numbers.items (layer_rings layer)) left.now.boxed }
{}
