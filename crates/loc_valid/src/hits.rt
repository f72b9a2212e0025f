// What the list above an edge says of the ring of the edge.

ghost use Rattle.std.specs.Prelude.{◌≡◌, ◌<◌, IsTrue, length, nat_lt};
ghost use Rattle.loc_spec_plane.specs.Lists.{is_rising};
ghost use Rattle.loc_valid.specs.Hits.{AreHomes, IsLeast, misplaced_in};

use crate::lists::{first_from, is_among};
use loc_rings::Rings;

/// How a hole is misplaced.
#[derive(Clone, Copy, Drop)]
pub(crate) enum Fault {
    /// It is outside the exterior of its polygon.
    Outside,
    /// It is in another hole of its polygon.
    Nested,
}

/// The ring, where it is a hole that is misplaced so, and the least ring against which it is: the exterior, or another hole.
pub(crate) fn misplaced(
    fault: Fault,
    rings: &Rings,
    homes: &[u32],
    list: &[u32],
    ring: u32,
) -> Option<(u32, u32)>
    requires homes { AreHomes rings.now homes.now }
    requires in_range { ring < length homes.now }
    requires rises { IsTrue (is_rising nat_lt list.now) }
    ensures { IsLeast (misplaced_in fault rings.now ring list.now) result }
{
    let (exterior, past) = rings.polygon(homes[ring as usize]);
    if ring == exterior {
        return None;
    }
    match fault {
        Fault::Outside => {
            if is_among(list, exterior) {
                return None;
            }
            Some((ring, exterior))
        }
        Fault::Nested => {
            for at in first_from(list, exterior + 1)..list.len() {
                let hole = list[at];
                if hole >= past {
                    return None;
                }
                if hole != ring {
                    return Some((ring, hole));
                }
            }
            None
        }
    }
}
