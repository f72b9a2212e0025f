// Rings that are points.

ghost use Rattle.std.specs.Prelude.{◌≡◌, ◌==◌, length};
ghost use Rattle.loc_spec_plane.specs.Rings.{ring_segments};
ghost use Rattle.loc_spec_valid.specs.Breaches.{first_point_ring};

use loc_geom::Point;
use loc_rings::Rings;

// Whether the ring has no segment: each point is the one before it.
fn is_point(ring: &[Point]) -> bool
    ensures { result ≡ (length (ring_segments ring.now) == 0) }
{
    for i in 1..ring.len() {
        if ring[i - 1] != ring[i] {
            return false;
        }
    }
    true
}

/// The first ring that is a point.
pub(crate) fn first_point(rings: &Rings) -> Option<u32>
    ensures { result ≡ first_point_ring rings.now }
{
    for n in 0..rings.len() {
        if is_point(rings.ring(n)) {
            return Some(n as u32);
        }
    }
    None
}
