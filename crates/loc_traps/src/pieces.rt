// The pieces of the trapezoids that a new edge cuts, as rows, and the splits that tell them.

ghost use Rattle.std.specs.Prelude.{◌≡◌, ℕ, ◌+◌, ◌-◌, ◌<◌, ◌^◌, length, IfOk, if◌then◌else◌};
ghost use Rattle.loc_laws_traps.specs.Sets.{behind_left as behind_left_of, before_right as before_right_of};
ghost use Rattle.loc_traps.specs.Walks.{cut_of, over_rows, under_rows, fresh_rows, IsNumbered};

use crate::map::{Split, Splits};
use crate::walk::{Cut, Start, Walk};
use loc_spec_plane::Trap;
use std::alloc::{AllocError, Global};

// Whether a corner comes behind the left of a trapezoid.
fn behind_left(left: Option<u32>, corner: u32) -> bool
    ensures { result ≡ behind_left_of left corner }
{
    match left {
        None => true,
        Some(left) => left < corner,
    }
}

// Whether a corner comes before the right of a trapezoid.
fn before_right(right: Option<u32>, corner: u32) -> bool
    ensures { result ≡ before_right_of right corner }
{
    match right {
        None => true,
        Some(right) => corner < right,
    }
}

// How many parts there are, of one.
fn count(is_there: bool) -> usize
    ensures { result ≡ (if is_there then 1 else 0) }
{
    if is_there { 1 } else { 0 }
}

// The pieces over the edge.
fn over_pieces(alloc: Global, edge: u32, starts: &[Start]) -> Result<Vec<Trap>, AllocError>
    requires { 0 < length starts.now }
    ensures { IfOk result (λ rows. rows.items ≡ over_rows edge starts.now) }
{
    let mut rows = Vec::new(alloc);
    for i in 0..starts.len() - 1 {
        rows.push(Trap {
            bottom: Some(edge),
            top: starts[i].bound,
            left: Some(starts[i].left),
            right: Some(starts[i + 1].left),
        })?;
    }
    Ok(rows)
}

// The pieces under the edge.
fn under_pieces(alloc: Global, edge: u32, starts: &[Start]) -> Result<Vec<Trap>, AllocError>
    requires { 0 < length starts.now }
    ensures { IfOk result (λ rows. rows.items ≡ under_rows edge starts.now) }
{
    let mut rows = Vec::new(alloc);
    for i in 0..starts.len() - 1 {
        rows.push(Trap {
            bottom: starts[i].bound,
            top: Some(edge),
            left: Some(starts[i].left),
            right: Some(starts[i + 1].left),
        })?;
    }
    Ok(rows)
}

// All pieces: over the edge, under it, before it and behind it.
pub(crate) fn fresh_pieces(
    alloc: Global,
    edge: u32,
    ends: (u32, u32),
    walk: &Walk,
    first: Trap,
    last: Trap,
) -> Result<Vec<Trap>, AllocError>
    requires over { 0 < length walk.now.overs.items }
    requires under { 0 < length walk.now.unders.items }
    ensures { IfOk result (λ rows. rows.items ≡ fresh_rows edge ends.0 ends.1 walk.now.overs.items walk.now.unders.items first last) }
{
    let mut rows = over_pieces(alloc, edge, &walk.overs)?;
    let unders = under_pieces(alloc, edge, &walk.unders)?;
    rows.extend_from_slice(&unders)?;
    if behind_left(first.left, ends.0) {
        rows.push(Trap {
            right: Some(ends.0),
            ..first
        })?;
    }
    if before_right(last.right, ends.1) {
        rows.push(Trap {
            left: Some(ends.1),
            ..last
        })?;
    }
    Ok(rows)
}

// The splits of the cut rows, where the pieces are rows from a number on.
pub(crate) fn splits(
    alloc: Global,
    rows: &[Trap],
    ends: (u32, u32),
    walk: &Walk,
    first: Trap,
) -> Result<Splits, AllocError>
    requires over { 0 < length walk.now.overs.items }
    requires under { 0 < length walk.now.unders.items }
    requires room { length rows.now + (length walk.now.overs.items - 1) + (length walk.now.unders.items - 1) < 2 ^ 63 }
    requires real { (j : ℕ) → j < length walk.now.cuts.items → (cut_of walk.now.cuts.items j).row < length rows.now }
    requires over_places { (j : ℕ) → j < length walk.now.cuts.items → (cut_of walk.now.cuts.items j).over < length walk.now.overs.items }
    requires under_places { (j : ℕ) → j < length walk.now.cuts.items → (cut_of walk.now.cuts.items j).under < length walk.now.unders.items }
    ensures { IfOk result (λ splits. IsNumbered rows.now ends.0 ends.1 (length walk.now.overs.items - 1) (length walk.now.unders.items - 1) (behind_left_of first.left ends.0) walk.now.cuts.items splits.items) }
{
    let above = rows.len();
    let below = above + (walk.overs.len() - 1);
    let before = below + (walk.unders.len() - 1);
    let behind = before + count(behind_left(first.left, ends.0));
    let mut splits = Vec::new(alloc);
    for cut in &walk.cuts {
        let row = rows[cut.row];
        splits.push(Split {
            cut: cut.row,
            before: behind_left(row.left, ends.0).then_some(before),
            above: above + cut.over,
            below: below + cut.under,
            behind: before_right(row.right, ends.1).then_some(behind),
        })?;
    }
    Ok(splits)
}
