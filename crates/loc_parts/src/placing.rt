//! Features of a layer are put into parts, or left.

ghost use Rattle.std.specs.Prelude.{◌≡◌, ◌+◌, ◌≤◌, ◌∷◌, ℕ, List, OnOk, length};
ghost use Rattle.loc_rings.specs.Values.{Feature};
ghost use Rattle.loc_parts.specs.Parts.{IsPartedBut, IsRestOf};

use crate::fault::PlaneFault;
use crate::judging::judged_layer;
use crate::parts::{Left, Part};
use crate::rest::Rest;
use loc_spans::Boxed;
use std::alloc::{AllocError, Global};

/// Leaves features in no part.
pub(crate) fn leave(alloc: Global, left: &mut Vec<Left>, rest: Rest) -> Result<(), AllocError>
    ensures { (layer : List Feature) (rests : List (List ℕ)) (parts : List Part)
        → IsRestOf layer rest.numbers.items rest.features
        → IsPartedBut layer (rest.numbers.items ∷ rests) parts left.old.items
        → OnOk result (IsPartedBut layer rests parts left.new.items) }
{
    if rest.numbers.is_empty() {
        return Ok(());
    }
    let boxed = Boxed::make(alloc, &rest.features)?;
    left.push(Left {
        numbers: rest.numbers,
        boxed,
    })?;
    Ok(())
}

/// Makes features a part where they are accepted together, else leaves them.
pub(crate) fn settle(
    alloc: Global,
    parts: &mut Vec<Part>,
    left: &mut Vec<Left>,
    rest: Rest,
) -> Result<(), AllocError>
    ensures few { OnOk result (length parts.new.items ≤ length parts.old.items + 1) }
    ensures settled { (layer : List Feature) (rests : List (List ℕ)) → IsRestOf layer rest.numbers.items rest.features
        → IsPartedBut layer (rest.numbers.items ∷ rests) parts.old.items left.old.items
        → OnOk result (IsPartedBut layer rests parts.new.items left.new.items) }
{
    if rest.numbers.is_empty() {
        return Ok(());
    }
    match judged_layer(alloc, &rest.features) {
        Ok(plane) => {
            parts.push(Part {
                numbers: rest.numbers,
                plane,
            })?;
            Ok(())
        }
        Err(fault) => {
            let was_memory = matches!(&fault, PlaneFault::NoMemory);
            drop(fault);
            if was_memory {
                Err(AllocError)
            } else {
                leave(alloc, left, rest)
            }
        }
    }
}
