// The points that are asked of generated layers.

ghost use Rattle.std.specs.Prelude.{◌≡◌, ◌<◌, ◌≤◌, ◌^◌, pos};
ghost use Rattle.loc_spec_plane.specs.Points.{point_at};
ghost use Rattle.loc_gen.specs.Layers.{point_number};

use loc_geom::Point;

// The point with these coordinates, which are far within the grid.
fn small_point(x: u64, y: u64) -> Point
    requires x { x < 2 ^ 32 }
    requires y { y < 2 ^ 32 }
    ensures { result ≡ point_at (pos x) (pos y) }
{
    match Point::new(x as i64, y as i64) {
        Some(p) => p,
        None => unreachable!(),
    }
}

/// The point with number t of the n points that are asked of a layer of size n.
pub fn gen_point(n: u64, shift: u64, t: u64) -> Point
    requires member { t < n }
    requires within { n ≤ 131072 }
    ensures { result ≡ point_number n shift t }
{
    let x = shift % 65536 + (t * 40503) % (4 * n);
    let y = (t * 25173) % (2 * n);
    small_point(x, y)
}
