// The leader of each half-edge: the least one of its cycle.

ghost use Rattle.std.specs.Prelude.{◌≡◌, ◌<◌, ◌≤◌, ◌+◌, ◌^◌, ℕ, length, get_or, IfOk};
ghost use Rattle.loc_half.specs.Rounds.{AreMarked, IsPermuting, leader_among, next_of};

use std::alloc::{AllocError, Global};

// Goes round from a half-edge and marks each with the first, where that has no mark yet. The number of half-edges stands where there is
// no mark.
fn mark_cycle(marks: &mut [u32], nexts: &[u32], first: u32)
    requires permuting { IsPermuting nexts.now }
    requires in_range { first < length nexts.now }
    requires marked { AreMarked nexts.now marks.old first }
    ensures { AreMarked nexts.now marks.new (first + 1) }
{
    let mut h = first;
    'round: while marks[h as usize] as usize == nexts.len() {
        marks[h as usize] = first;
        h = nexts[h as usize];
    }
}

// The leader of each half-edge, from the nexts. Each cycle is gone round once, from its least half-edge.
pub(crate) fn leader_of_each(alloc: Global, nexts: &[u32]) -> Result<Vec<u32>, AllocError>
    requires few { length nexts.now ≤ 2 ^ 22 }
    requires permuting { IsPermuting nexts.now }
    ensures as_many { IfOk result (λ leaders. length leaders.items ≡ length nexts.now) }
    ensures each { IfOk result (λ leaders. (h : ℕ) → h < length nexts.now → get_or leaders.items h 0 ≡ leader_among (length nexts.now) (next_of nexts.now) h) }
{
    let count = nexts.len() as u32;
    let mut leaders = Vec::new(alloc);
    leaders.resize(nexts.len(), count)?;
    for h in 0..count {
        mark_cycle(&mut leaders, nexts, h);
    }
    Ok(leaders)
}
