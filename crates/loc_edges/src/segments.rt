// The segments of the rings of features, each with the number of its feature.

ghost use Rattle.std.specs.Prelude.{◌≡◌, ◌++◌, All, OnOk, IfOk};
ghost use Rattle.loc_spec_plane.specs.Rings.{ring_segments, segments};
ghost use Rattle.loc_spec_text.specs.Reading.{all_rings};
ghost use Rattle.loc_rings.specs.Values.{IsRing};
ghost use Rattle.loc_edges.specs.Layers.{layer_rings};
ghost use Rattle.loc_edges.specs.Tagged.{tagged_by, tagged_from};

use loc_geom::{Edge, Point};
use loc_rings::{Feature, Rings};
use std::alloc::{AllocError, Global};

// Puts the segments of a ring of a feature behind the others.
fn add_ring(
    tagged: &mut Vec<(Edge, usize)>,
    ring: &[Point],
    feature: usize,
) -> Result<(), AllocError>
    ensures { OnOk result (tagged.new.items ≡ tagged.old.items ++ tagged_by feature (ring_segments ring.now)) }
{
    for n in 1..ring.len() {
        if let Some(edge) = Edge::new(ring[n - 1], ring[n]) {
            tagged.push((edge, feature))?;
        }
    }
    Ok(())
}

// Puts the segments of all rings of a feature behind the others.
fn add_rings(
    tagged: &mut Vec<(Edge, usize)>,
    rings: &Rings,
    feature: usize,
) -> Result<(), AllocError>
    ensures added { OnOk result (tagged.new.items ≡ tagged.old.items ++ tagged_by feature (segments (all_rings rings.now))) }
    ensures closed { OnOk result (All IsRing (all_rings rings.now)) }
{
    for n in 0..rings.len() {
        add_ring(tagged, rings.ring(n), feature)?;
    }
    Ok(())
}

// The segments of all features, each as often as it stands there, with the number of its feature.
pub(crate) fn tagged_segments(
    alloc: Global,
    features: &[Feature],
) -> Result<Vec<(Edge, usize)>, AllocError>
    ensures value { IfOk result (λ tagged. tagged.items ≡ tagged_from 0 (layer_rings features.now)) }
    ensures closed { IfOk result (λ _. All (All IsRing) (layer_rings features.now)) }
{
    let mut tagged = Vec::new(alloc);
    for (n, feature) in features.iter().enumerate() {
        add_rings(&mut tagged, feature.rings(), n)?;
    }
    Ok(tagged)
}
