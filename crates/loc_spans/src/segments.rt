// The segments of the rings of a feature.

ghost use Rattle.std.specs.Prelude.{◌≡◌, ◌++◌, OnOk, IfOk};
ghost use Rattle.loc_spec_plane.specs.Rings.{ring_segments, segments};
ghost use Rattle.loc_spec_text.specs.Reading.{all_rings};
ghost use Rattle.loc_laws_any.specs.Moments.{AreClosed};

use loc_geom::{Edge, Point};
use loc_rings::Rings;
use std::alloc::{AllocError, Global};

// Puts the segments of a ring behind the others.
fn add_ring(edges: &mut Vec<Edge>, ring: &[Point]) -> Result<(), AllocError>
    ensures { OnOk result (edges.new.items ≡ edges.old.items ++ ring_segments ring.now) }
{
    for pair in ring.windows(2) {
        if let Some(edge) = Edge::new(pair[0], pair[1]) {
            edges.push(edge)?;
        }
    }
    Ok(())
}

// The segments of rings, each as often as it stands there.
pub(crate) fn segments_of(alloc: Global, rings: &Rings) -> Result<Vec<Edge>, AllocError>
    ensures value { IfOk result (λ edges. edges.items ≡ segments (all_rings rings.now)) }
    ensures closed { IfOk result (λ _. AreClosed (all_rings rings.now)) }
{
    let mut edges = Vec::new(alloc);
    for n in 0..rings.len() {
        add_ring(&mut edges, rings.ring(n))?;
    }
    Ok(edges)
}
