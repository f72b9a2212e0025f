// Which edges begin and which end at a corner.

ghost use Rattle.std.specs.Prelude.{◌≡◌, ℕ, ◌<◌, ◌≤◌, IsTrue, length, map, All, IfOk, slice_index_or};
ghost use Rattle.std.specs.List.Sorted.{IsNonDecreasingBy};
ghost use Rattle.loc_spec_text.specs.Limits.{most_pieces};
ghost use Rattle.loc_spec_plane.specs.Lists.{is_rising, numbers};
ghost use Rattle.loc_spec_plane.specs.Tables.{pair_before};
ghost use Rattle.loc_edges.specs.Ending.{AreFirsts, ending_among, row_of};

use crate::rows::Rows;
use std::alloc::{AllocError, Global};

// For each corner how many edges begin before it, and then how many there are.
pub(crate) fn first_edges(
    alloc: Global,
    ends: &[(u32, u32)],
    corners: u32,
) -> Result<Vec<u32>, AllocError>
    requires in_order { IsTrue (is_rising pair_before ends.now) }
    requires in_range { (e : ℕ) → e < length ends.now → (slice_index_or ends.now e (0, 0)).0 < corners }
    requires few { length ends.now ≤ most_pieces }
    ensures { IfOk result (λ firsts. AreFirsts ends.now corners firsts.items) }
{
    let mut firsts = Vec::with_capacity(alloc, corners as usize + 1)?;
    for (n, pair) in ends.iter().enumerate() {
        firsts.resize(pair.0 as usize + 1, n as u32)?;
    }
    firsts.resize(corners as usize + 1, ends.len() as u32)?;
    Ok(firsts)
}

// The edges, each behind the number of its upper end, sorted by that.
fn by_upper_end(alloc: Global, ends: &[(u32, u32)]) -> Result<Vec<(u32, u32)>, AllocError>
    requires few { length ends.now ≤ most_pieces }
    ensures sorted { IfOk result (λ keyed. IsNonDecreasingBy (λ pair. pair.0) keyed.items) }
    ensures rows { IfOk result (λ keyed. (c : ℕ) → row_of keyed.items c ≡ ending_among ends.now (length ends.now) c) }
    ensures in_range { IfOk result (λ keyed. (corners : ℕ) → ((e : ℕ) → e < length ends.now → (slice_index_or ends.now e (0, 0)).1 < corners) → All (λ pair. pair.0 < corners) keyed.items) }
{
    let mut keyed = Vec::new(alloc);
    for (n, pair) in ends.iter().enumerate() {
        keyed.push((pair.1, n as u32))?;
    }
    keyed.sort_by_key(|pair| pair.0)?;
    Ok(keyed)
}

// The edges that end at each corner, in order.
pub(crate) fn ending_rows(
    alloc: Global,
    ends: &[(u32, u32)],
    corners: u32,
) -> Result<Rows<u32>, AllocError>
    requires in_range { (e : ℕ) → e < length ends.now → (slice_index_or ends.now e (0, 0)).1 < corners }
    requires few { length ends.now ≤ most_pieces }
    ensures { IfOk result (λ rows. rows ≡ map (ending_among ends.now (length ends.now)) (numbers corners)) }
{
    let keyed = by_upper_end(alloc, ends)?;
    Rows::by_key(alloc, &keyed, corners as usize)
}
