// Floors that are not those of the sweep, and cover lists that no edge names.

ghost use Rattle.std.specs.Prelude.{ℕ, ◌≡◌, ◌<◌, ◌^◌, None, false, length, get_or, IsTrue, IfOk};
ghost use Rattle.loc_spec_plane.specs.Lists.{is_in};
ghost use Rattle.loc_verify.specs.Least.{IsLeastFailing};

use loc_cover::Legend;
use std::alloc::{AllocError, Global};

// The least corner whose stored floor is another than this one.
pub(crate) fn least_other_floor(legend: &Legend, floors: &[Option<u32>]) -> Option<u32>
    requires few { length floors.now < 2 ^ 32 }
    requires as_many { length floors.now ≡ length legend.now.floors }
    ensures { IsLeastFailing (length floors.now) (λ n. get_or legend.now.floors n None ≡ get_or floors.now n None) result }
{
    for corner in 0..floors.len() as u32 {
        if legend.floor(corner) != floors[corner as usize] {
            return Some(corner);
        }
    }
    None
}

// Which lists are named by one of so many edges.
fn named_lists(alloc: Global, legend: &Legend, edges: u32) -> Result<Vec<bool>, AllocError>
    requires { edges ≡ length legend.now.above }
    ensures as_many { IfOk result (λ named. length named.items ≡ length legend.now.lists) }
    ensures exact { IfOk result (λ named. (n : ℕ) → n < length legend.now.lists → get_or named.items n false ≡ is_in n legend.now.above) }
{
    let mut named = vec![in alloc; false; legend.covers() as usize]?;
    for edge in 0..edges {
        named[legend.cover_of(edge) as usize] = true;
    }
    Ok(named)
}

// The least list that no edge names.
pub(crate) fn least_spare(
    alloc: Global,
    legend: &Legend,
    edges: u32,
) -> Result<Option<u32>, AllocError>
    requires { edges ≡ length legend.now.above }
    ensures { IfOk result (IsLeastFailing (length legend.now.lists) (λ n. IsTrue (is_in n legend.now.above))) }
{
    let named = named_lists(alloc, legend, edges)?;
    for list in 0..legend.covers() {
        if !named[list as usize] {
            return Ok(Some(list));
        }
    }
    Ok(None)
}
