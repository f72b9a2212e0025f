// Direct containment: a point against every segment of a feature, in one pass. A ray goes from the point to the right, and each segment
// that it crosses flips a bool.

ghost use Rattle.std.specs.Prelude.{◌≡◌, [], ◌∷◌, ◌&&◌, int_le, int_lt};
ghost use Rattle.loc_spec_plane.specs.Lists.{exactly_one};
ghost use Rattle.loc_spec_plane.specs.Rays.{crosses_right};
ghost use Rattle.loc_spec_plane.specs.Rings.{ring_segments, segments, touches as touches_of, covers as covers_of};
ghost use Rattle.loc_rings.specs.Parity.{IsParity};
ghost use Rattle.loc_rings.specs.Values.{rings_of};
ghost use Rattle.loc_spec_text.specs.Reading.{all_rings};

use crate::features::Feature;
use crate::rings::Rings;
use loc_geom::{Edge, Point, Side, on, side};

// Whether the way from a up to b, b left out, passes the height of p.
fn climbs_past(a: Point, b: Point, p: Point) -> bool
    ensures { result ≡ (int_le a.y p.y && int_lt p.y b.y) }
{
    a.y() <= p.y() && p.y() < b.y()
}

// Whether the ray from p to the right crosses the segment. Most segments are told by heights alone, without a product.
fn crosses(segment: Edge, p: Point) -> bool
    ensures { result ≡ crosses_right segment p }
{
    let rises = climbs_past(segment.lo(), segment.hi(), p);
    let falls = climbs_past(segment.hi(), segment.lo(), p);
    if !rises && !falls {
        return false;
    }
    match side(segment, p) {
        Side::Above => rises,
        Side::Below => falls,
        Side::On => false,
    }
}

// Whether the ray crosses the segment between two successive points of a ring, which are none where they are equal: None where p lies on it.
fn segment_parity(a: Point, b: Point, p: Point) -> Option<bool>
    ensures { IsParity (ring_segments (a ∷ b ∷ [])) p result }
{
    let Some(segment) = Edge::new(a, b) else {
        return Some(false);
    };
    if on(segment, p) {
        return None;
    }
    Some(crosses(segment, p))
}

// The parity after one more part.
fn flipped(odd: bool, crossed: bool) -> bool
    ensures { result ≡ exactly_one odd crossed }
{
    odd != crossed
}

// Whether the ray crosses an odd number of the segments of a ring: None where p lies on one.
fn ring_parity(ring: &[Point], p: Point) -> Option<bool>
    ensures { IsParity (ring_segments ring.now) p result }
{
    let mut odd = false;
    for i in 1..ring.len() {
        odd = flipped(odd, segment_parity(ring[i - 1], ring[i], p)?);
    }
    Some(odd)
}

// Whether the ray crosses an odd number of the segments of all rings: None where p lies on one.
fn parity(rings: &Rings, p: Point) -> Option<bool>
    ensures { IsParity (segments (all_rings rings.now)) p result }
{
    let mut odd = false;
    for n in 0..rings.len() {
        odd = flipped(odd, ring_parity(rings.ring(n), p)?);
    }
    Some(odd)
}

/// Whether p lies on a segment of the feature.
pub fn touches(feature: &Feature, p: Point) -> bool
    ensures { result ≡ touches_of (rings_of feature.now) p }
{
    parity(feature.rings(), p).is_none()
}

/// Whether the feature has p in its inside, by the even-odd rule: p lies on no segment, and the ray from p to the right crosses an odd
/// number of segments. A segment counts as often as it stands in the rings, and an end that is level with p counts as below the ray.
pub fn covers(feature: &Feature, p: Point) -> bool
    ensures { result ≡ covers_of (rings_of feature.now) p }
{
    parity(feature.rings(), p).unwrap_or(false)
}
