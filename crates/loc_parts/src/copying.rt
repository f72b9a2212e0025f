// A copy of a layer.

ghost use Rattle.std.specs.Prelude.{◌≡◌, ◌+◌, ◌<◌, ◌++◌, ◌∷◌, [], IfOk, OnOk, length, take};

use loc_rings::{Feature, Layer, Rings};
use std::alloc::{AllocError, Global};

// The rings of a polygon come behind those of the polygons before it, where it has begun.
fn copy_polygon(alloc: Global, rings: &Rings, n: u32, copy: &mut Rings) -> Result<(), AllocError>
    requires in_range { n < length rings.now }
    requires begun { copy.old ≡ take n rings.now ++ [] ∷ [] }
    ensures { OnOk result (copy.new ≡ take (n + 1) rings.now) }
{
    let (first, past) = rings.polygon(n);
    for k in first..past {
        copy.add(Vec::from_slice(alloc, rings.ring(k as usize))?)?;
    }
    Ok(())
}

// The rings of a feature.
fn copy_rings(alloc: Global, rings: &Rings) -> Result<Rings, AllocError>
    ensures { IfOk result (λ copy. copy ≡ rings.now) }
{
    let mut copy = Rings::new(alloc);
    for n in 0..rings.polygons() {
        copy.start_polygon()?;
        copy_polygon(alloc, rings, n, &mut copy)?;
    }
    Ok(copy)
}

// A feature: its id and its rings.
fn copy_feature(alloc: Global, feature: &Feature) -> Result<Feature, AllocError>
    ensures { IfOk result (λ copy. copy ≡ feature.now) }
{
    let id = Vec::from_slice(alloc, feature.id())?;
    let rings = copy_rings(alloc, feature.rings())?;
    Ok(Feature::new(id, rings))
}

/// The same features once more, in order.
pub(crate) fn copy_layer(alloc: Global, layer: &Layer) -> Result<Layer, AllocError>
    ensures { IfOk result (λ copy. copy ≡ layer.now) }
{
    let mut copy = Layer::new(alloc);
    for feature in layer.features() {
        copy.add(copy_feature(alloc, feature)?)?;
    }
    Ok(copy)
}
