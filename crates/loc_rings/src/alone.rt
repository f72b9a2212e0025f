// The rings of a feature as layers: each ring as a feature, and one polygon as the only feature.

ghost use Rattle.std.specs.Prelude.{◌≡◌, ◌^◌, ◌+◌, ◌-◌, ◌<◌, ◌≤◌, [], ◌∷◌, length, map, slice_index_or, slice_range, IfOk, OnOk};
ghost use Rattle.loc_spec_text.specs.Limits.{most_points};
ghost use Rattle.loc_spec_text.specs.Reading.{all_rings};
ghost use Rattle.loc_rings.specs.Layers.{point_count};
ghost use Rattle.loc_rings.specs.Values.{IsRing, rings_of, unnamed, with_ring};

use crate::features::Feature;
use crate::layers::Layer;
use crate::rings::Rings;
use loc_geom::Point;
use std::alloc::{AllocError, Global};

// Appends a copy of a ring to the last polygon.
fn add_copy(made: &mut Rings, alloc: Global, ring: &[Point]) -> Result<(), AllocError>
    requires closed { IsRing ring.now }
    requires room { length (all_rings made.old) < 2 ^ 28 }
    requires started { 0 < length made.old }
    ensures { OnOk result (made.new ≡ with_ring made.old ring.now) }
{
    made.add(Vec::from_slice(alloc, ring)?)
}

// Copies of the rings from the first on and before the last, as one polygon of a feature without an id.
fn copied(alloc: Global, rings: &Rings, first: usize, past: usize) -> Result<Feature, AllocError>
    requires in_order { first ≤ past }
    requires in_range { past ≤ length (all_rings rings.now) }
    requires few { past ≤ 2 ^ 28 }
    ensures { IfOk result (λ feature. feature ≡ unnamed (slice_range (all_rings rings.now) first past)) }
{
    let mut made = Rings::new(alloc);
    made.start_polygon()?;
    for n in first..past {
        add_copy(&mut made, alloc, rings.ring(n))?;
    }
    Ok(Feature::new(Vec::new(alloc), made))
}

// A copy of a ring, as a feature without an id.
fn lone(alloc: Global, ring: &[Point]) -> Result<Feature, AllocError>
    requires closed { IsRing ring.now }
    ensures { IfOk result (λ feature. feature ≡ unnamed (ring.now ∷ [])) }
{
    let mut made = Rings::new(alloc);
    made.start_polygon()?;
    add_copy(&mut made, alloc, ring)?;
    Ok(Feature::new(Vec::new(alloc), made))
}

impl Layer {
    /// The layer whose features are the rings of a feature, in order. Their ids are empty.
    pub fn of_rings(alloc: Global, feature: &Feature) -> Result<Layer, AllocError>
        requires few { point_count feature.now ≤ most_points }
        ensures { IfOk result (λ layer. layer ≡ map (λ ring. unnamed (ring ∷ [])) (rings_of feature.now)) }
    {
        let rings = feature.rings();
        let mut layer = Layer::new(alloc);
        for n in 0..rings.len() {
            layer.add(lone(alloc, rings.ring(n))?)?;
        }
        Ok(layer)
    }

    /// The layer whose one feature is polygon n of a feature. Its id is empty.
    pub fn of_polygon(alloc: Global, feature: &Feature, n: u32) -> Result<Layer, AllocError>
        requires few { point_count feature.now ≤ most_points }
        requires in_range { n < length feature.now.polygons }
        ensures { IfOk result (λ layer. layer ≡ unnamed (slice_index_or feature.now.polygons n []) ∷ []) }
    {
        let rings = feature.rings();
        let (first, past) = rings.polygon(n);
        let mut layer = Layer::new(alloc);
        layer.add(copied(alloc, rings, first as usize, past as usize)?)?;
        Ok(layer)
    }
}
