// The nodes of a version, level by level from its root.

ghost use Rattle.std.specs.Prelude.{◌≡◌, ◌+◌, ◌<◌, length, IsTrue, IfOk, ◌↔◌};
ghost use Rattle.loc_spec_index.specs.Content.{root_of};
ghost use Rattle.loc_verify.specs.Readings.{HasLongPath, HasNode, IsNextLevel};

use crate::nodes::{left_of, right_of};
use loc_file::Held;
use std::alloc::{AllocError, Global};

// The nodes one turn further, each once.
fn next_level(
    alloc: Global,
    held: &Held,
    version: u32,
    level: &[bool],
) -> Result<Vec<bool>, AllocError>
    requires { length level.now ≡ length held.now.content.nodes + 1 }
    ensures { IfOk result (λ next. IsNextLevel held.now.content.nodes version level.now next.items) }
{
    let mut next = vec![in alloc; false; level.len()]?;
    for before in 0..held.nodes() {
        if level[before as usize + 1] {
            let row = held.row(before + 1);
            next[left_of(row, version) as usize] = true;
            next[right_of(row, version) as usize] = true;
        }
    }
    Ok(next)
}

// Whether some node is there.
fn is_some_node(level: &[bool]) -> bool
    ensures { IsTrue result ↔ HasNode level.now }
{
    for node in 1..level.len() {
        if level[node] {
            return true;
        }
    }
    false
}

// Whether a path from the root has so many turns. Each node is looked at once a level, however many paths lead to it.
pub(crate) fn has_path(
    alloc: Global,
    held: &Held,
    version: u32,
    turns: u32,
) -> Result<bool, AllocError>
    requires { version < length held.now.content.corners }
    ensures { IfOk result (λ found. IsTrue found ↔ HasLongPath held.now.content.nodes version (root_of held.now.content version) turns) }
{
    let mut level = vec![in alloc; false; held.nodes() as usize + 1]?;
    level[held.root(version) as usize] = true;
    for _turn in 0..turns {
        level = next_level(alloc, held, version, &level)?;
    }
    Ok(is_some_node(&level))
}
