// The polygon of each ring of a feature.

ghost use Rattle.std.specs.Prelude.{◌≡◌, ◌++◌, map, IfOk, OnOk};
ghost use Rattle.loc_spec_plane.specs.Lists.{numbers};
ghost use Rattle.loc_valid.specs.Hits.{AreHomes};

use loc_rings::Rings;
use std::alloc::{AllocError, Global};

// Puts the polygon behind the others, once for each of its rings.
fn put_home(homes: &mut Vec<u32>, polygon: u32, rings: u32) -> Result<(), AllocError>
    ensures { OnOk result (homes.new.items ≡ homes.old.items ++ map (λ _. polygon) (numbers rings)) }
{
    for _ring in 0..rings {
        homes.push(polygon)?;
    }
    Ok(())
}

/// The polygon of each ring.
pub(crate) fn homes_of(alloc: Global, rings: &Rings) -> Result<Vec<u32>, AllocError>
    ensures { IfOk result (λ homes. AreHomes rings.now homes.items) }
{
    let mut homes = Vec::new(alloc);
    for n in 0..rings.polygons() {
        let (first, past) = rings.polygon(n);
        put_home(&mut homes, n, past - first)?;
    }
    Ok(homes)
}
