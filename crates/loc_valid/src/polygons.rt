// The first polygon that is not one part.

ghost use Rattle.std.specs.Prelude.{◌≡◌, ℕ, ◌<◌, ◌≤◌, ◌∷◌, [], find, get_or, length, option_map, IfOk, IfErr};
ghost use Rattle.loc_spec_plane.specs.Tables.{NoConflict, piece_count};
ghost use Rattle.loc_spec_valid.specs.Breaches.{is_parted, part_count, polygon_numbers, polygon_table};
ghost use Rattle.loc_spec_text.specs.Limits.{most_pieces, most_points};
ghost use Rattle.loc_rings.specs.Layers.{point_count};
ghost use Rattle.loc_faces.specs.Subdivision.{face_at, next_at};
ghost use Rattle.loc_valid.specs.Judged.{IsNoMemory, parts_at};

use crate::fault::ValidFault;
use crate::parts::parts_of;
use loc_rings::Feature;
use std::alloc::Global;

/// The first polygon that has rings and is not one part, and how many parts it has, where no two edges conflict in the table of a polygon.
pub(crate) fn first_parted(
    alloc: Global,
    feature: &Feature,
) -> Result<Option<(u32, u32)>, ValidFault>
    requires few { point_count feature.now ≤ most_points }
    requires few_pieces { (n : ℕ) → n < length feature.now.polygons → piece_count (get_or feature.now.polygons n [] ∷ []) ≤ most_pieces }
    requires apart { (n : ℕ) → n < length feature.now.polygons → NoConflict (polygon_table feature.now.polygons n) }
    ensures found { IfOk result (λ found. found ≡ option_map (λ n. (n, parts_at feature.now.polygons n)) (find (is_parted next_at face_at feature.now.polygons) (polygon_numbers feature.now.polygons))) }
    ensures refused { IfErr result IsNoMemory }
{
    let rings = feature.rings();
    for n in 0..rings.polygons() {
        let (first, past) = rings.polygon(n);
        if first < past {
            let parts = parts_of(alloc, feature, n)?;
            if parts != 1 {
                return Ok(Some((n, parts)));
            }
        }
    }
    Ok(None)
}
