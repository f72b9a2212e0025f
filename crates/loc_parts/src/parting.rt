//! The parts of a layer.

ghost use Rattle.std.specs.Prelude.{◌≡◌, ◌+◌, ◌≤◌, ◌∷◌, [], ℕ, IfOk, List, length};
ghost use Rattle.loc_spec_text.specs.Limits.{most_features};
ghost use Rattle.loc_spec_plane.specs.Lists.{numbers};
ghost use Rattle.loc_sweep.specs.Swept.{IsSwept};
ghost use Rattle.loc_treeidx.specs.Meaning.{meaning_of};
ghost use Rattle.loc_rings.specs.Values.{Feature};
ghost use Rattle.loc_maps.specs.Maps.{IsMapOf};
ghost use Rattle.loc_parts.specs.Parts.{IsParted, IsPartedBut, IsRestOf};

use crate::aside::{Fate, aside};
use crate::copying::copy_layer;
use crate::fault::PlaneFault;
use crate::judging::judged_layer;
use crate::parts::{Left, Part, PartPlane, Parted};
use crate::placing::{leave, settle};
use crate::rest::{Rest, parted_by};
use loc_edges::EdgeTable;
use loc_rings::Layer;
use std::alloc::{AllocError, Global};

// How many parts a layer may have.
const MOST_PARTS: usize = 16;

// A pass that keeps less than this part of the features is the last.
const LEAST_KEPT: usize = 32;

// The numbers below a count.
fn numbers_below(alloc: Global, count: usize) -> Result<Vec<u32>, AllocError>
    requires { count ≤ most_features }
    ensures { IfOk result (λ made. made.items ≡ numbers count) }
{
    let mut made = Vec::with_capacity(alloc, count)?;
    for n in 0..count {
        made.push(n as u32)?;
    }
    Ok(made)
}

// A layer that is accepted, as one part.
fn one_part(alloc: Global, layer: &Layer, plane: PartPlane) -> Result<Parted, AllocError>
    requires map { IsMapOf layer.now plane.table plane.legend }
    requires swept { IsSwept plane.table (meaning_of plane.tree) }
    ensures { IfOk result (IsParted layer.now) }
{
    let numbers = match numbers_below(alloc, layer.features().len()) {
        Ok(numbers) => numbers,
        Err(fault) => {
            drop(plane);
            return Err(fault);
        }
    };
    let mut parts = Vec::new(alloc);
    parts.push(Part { numbers, plane })?;
    Ok(Parted {
        parts,
        left: Vec::new(alloc),
    })
}

// Whether each feature has this fate.
fn with_fate(alloc: Global, fates: &[Fate], fate: Fate) -> Result<Vec<bool>, AllocError>
    ensures { IfOk result (λ flags. length flags.items ≡ length fates.now) }
{
    let mut flags = Vec::with_capacity(alloc, fates.len())?;
    for one in fates {
        flags.push(*one == fate)?;
    }
    Ok(flags)
}

// One pass over features that are in no part yet: those that are kept become a part, those that are crossed are left, and the others wait. It
// tells how many were kept. Their noded table may be made already.
fn pass(
    alloc: Global,
    parts: &mut Vec<Part>,
    left: &mut Vec<Left>,
    rest: Rest,
    noded: Option<EdgeTable>,
) -> Result<(Rest, usize), AllocError>
    requires { length rest.numbers.items ≡ length rest.features }
    ensures few { IfOk result (λ _. length parts.new.items ≤ length parts.old.items + 1) }
    ensures rest { (layer : List Feature) → IsRestOf layer rest.numbers.items rest.features
        → IfOk result (λ later. IsRestOf layer later.0.numbers.items later.0.features) }
    ensures parted { (layer : List Feature) (rests : List (List ℕ)) → IsRestOf layer rest.numbers.items rest.features
        → IsPartedBut layer (rest.numbers.items ∷ rests) parts.old.items left.old.items
        → IfOk result (λ later. IsPartedBut layer (later.0.numbers.items ∷ rests) parts.new.items left.new.items) }
{
    let fates = aside(alloc, &rest.features, noded)?;
    let keep = with_fate(alloc, &fates, Fate::Kept)?;
    let (kept, others) = rest.parted(alloc, &keep)?;
    let (_, fates) = parted_by(alloc, &fates, &keep)?;
    let crossed = with_fate(alloc, &fates, Fate::Crossed)?;
    let (crossed, later) = others.parted(alloc, &crossed)?;
    let count = kept.numbers.len();
    settle(alloc, parts, left, kept)?;
    leave(alloc, left, crossed)?;
    Ok((later, count))
}

// A layer in parts by at most sixteen passes over a copy of it. The first pass takes the noded table out, where it is there.
fn in_passes(
    alloc: Global,
    layer: &Layer,
    noded: &mut Option<EdgeTable>,
) -> Result<Parted, AllocError>
    ensures parted { IfOk result (IsParted layer.now) }
{
    let mut parts = Vec::new(alloc);
    let mut left = Vec::new(alloc);
    let mut rest = Rest {
        numbers: numbers_below(alloc, layer.features().len())?,
        features: copy_layer(alloc, layer)?,
    };
    for _turn in 0..MOST_PARTS {
        let (later, kept) = pass(alloc, &mut parts, &mut left, rest, noded.take())?;
        rest = later;
        if kept < rest.numbers.len() / LEAST_KEPT || rest.numbers.is_empty() {
            break;
        }
    }
    leave(alloc, &mut left, rest)?;
    Ok(Parted { parts, left })
}

// A layer in parts. Its noded table may be made already.
fn in_parts(
    alloc: Global,
    layer: &Layer,
    mut noded: Option<EdgeTable>,
) -> Result<Parted, AllocError>
    ensures { IfOk result (IsParted layer.now) }
{
    let parted = in_passes(alloc, layer, &mut noded);
    drop(noded);
    parted
}

impl Parted {
    /// The parts of a layer: at most sixteen, each accepted for itself, and what is left. Every feature of the layer is in a part or left, and
    /// these have no others. The layer stays. It is copied only where it is not accepted as a whole.
    pub fn make(alloc: Global, layer: &Layer) -> Result<Parted, AllocError>
        ensures { IfOk result (IsParted layer.now) }
    {
        match judged_layer(alloc, layer) {
            Ok(plane) => one_part(alloc, layer, plane),
            Err(PlaneFault::NoMemory) => Err(AllocError),
            Err(PlaneFault::Conflict(table)) => in_parts(alloc, layer, Some(table)),
            Err(PlaneFault::Covers(table)) => in_parts(alloc, layer, Some(table)),
            Err(PlaneFault::Pieces) => in_parts(alloc, layer, None),
        }
    }
}
