// The ring table of a feature.

ghost use Rattle.std.specs.Prelude.{◌≡◌, ◌<◌, ◌≤◌, [], ◌∷◌, find, length, map, option_map, IfOk, IfErr};
ghost use Rattle.loc_spec_plane.specs.Covers.{feature_count};
ghost use Rattle.loc_spec_plane.specs.Tables.{AllEnds, AllEven, edge as edge_of, edge_numbers, piece_count};
ghost use Rattle.loc_spec_valid.specs.Breaches.{feature_rings, is_twice, ring_table};
ghost use Rattle.loc_spec_text.specs.Limits.{most_pieces, most_points};
ghost use Rattle.loc_rings.specs.Layers.{point_count};
ghost use Rattle.loc_valid.specs.Judged.{IsRefusedNode};

use crate::fault::ValidFault;
use loc_edges::EdgeTable;
use loc_geom::Edge;
use loc_node::{NodeFault, node_and_repeat};
use loc_rings::{Feature, Layer};
use std::alloc::Global;

// The layer of the rings of a feature, the noded table whose features are these rings, and the least edge that is twice.
pub(crate) fn table_of_rings(
    alloc: Global,
    feature: &Feature,
) -> Result<(Layer, EdgeTable, Option<Edge>), ValidFault>
    requires few { point_count feature.now ≤ most_points }
    ensures table { IfOk result (λ made. made.1 ≡ ring_table feature.now.polygons) }
    ensures all_ends { IfOk result (λ made. AllEnds made.1) }
    ensures all_even { IfOk result (λ made. AllEven made.1) }
    ensures features { IfOk result (λ made. feature_count made.1 ≤ length made.0) }
    ensures as_many { IfOk result (λ made. length made.0 ≡ length (feature_rings feature.now.polygons)) }
    ensures twice { IfOk result (λ made. option_map (edge_of made.1) (find (is_twice feature.now.polygons made.1) (edge_numbers made.1)) ≡ made.2) }
    ensures few { IfOk result (λ _. piece_count (map (λ ring. ring ∷ []) (feature_rings feature.now.polygons)) ≤ most_pieces) }
    ensures refused { IfErr result (IsRefusedNode (piece_count (map (λ ring. ring ∷ []) (feature_rings feature.now.polygons)))) }
{
    let layer = Layer::of_rings(alloc, feature)?;
    match node_and_repeat(alloc, &layer) {
        Ok((table, twice)) => Ok((layer, table, twice)),
        Err(NodeFault::ManyPieces) => Err(ValidFault::ManyPieces),
        Err(NodeFault::NoMemory) => Err(ValidFault::NoMemory),
    }
}
