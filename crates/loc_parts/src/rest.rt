// What of a layer is in no part yet.

ghost use Rattle.std.specs.Prelude.{◌≡◌, ◌+◌, ◌||◌, ℕ, IfOk, List, length, sum_by};
ghost use Rattle.loc_spec_plane.specs.Lists.{is_in};
ghost use Rattle.loc_rings.specs.Flags.{flagged, unflagged};
ghost use Rattle.loc_rings.specs.Values.{Feature};
ghost use Rattle.loc_parts.specs.Parts.{IsRestOf};

use loc_rings::Layer;
use std::alloc::{AllocError, Global};

/// Features of a layer that are in no part yet: their numbers, which rise, and they themselves.
#[derive(Drop)]
pub(crate) struct Rest {
    pub(crate) numbers: Vec<u32>,
    pub(crate) features: Layer,
}

/// The members whose flag is true, and the others, each in order.
pub(crate) fn parted_by<T: Copy>(
    alloc: Global,
    members: &[T],
    keep: &[bool],
) -> Result<(Vec<T>, Vec<T>), AllocError>
    requires { length keep.now ≡ length members.now }
    ensures kept { IfOk result (λ both. both.0.items ≡ flagged keep.now members.now) }
    ensures others { IfOk result (λ both. both.1.items ≡ unflagged keep.now members.now) }
{
    let mut kept = Vec::new(alloc);
    let mut others = Vec::new(alloc);
    for (k, member) in members.iter().enumerate() {
        if keep[k] {
            kept.push(*member)?;
        } else {
            others.push(*member)?;
        }
    }
    Ok((kept, others))
}

impl Rest {
    /// The features whose flag is true, and the others, with their numbers.
    pub(crate) fn parted(self, alloc: Global, keep: &[bool]) -> Result<(Rest, Rest), AllocError>
        requires as_many { length keep.now ≡ length self.features }
        requires numbered { length self.numbers.items ≡ length self.features }
        ensures kept { (layer : List Feature) → IsRestOf layer self.numbers.items self.features
            → IfOk result (λ both. IsRestOf layer both.0.numbers.items both.0.features) }
        ensures others { (layer : List Feature) → IsRestOf layer self.numbers.items self.features
            → IfOk result (λ both. IsRestOf layer both.1.numbers.items both.1.features) }
        ensures numbers { IfOk result (λ both. both.1.numbers.items ≡ unflagged keep.now self.numbers.items) }
        ensures others_numbered { IfOk result (λ both. length both.1.numbers.items ≡ length both.1.features) }
        ensures once { IfOk result (λ both. (f : ℕ → ℕ)
            → sum_by f both.0.numbers.items + sum_by f both.1.numbers.items ≡ sum_by f self.numbers.items) }
        ensures all { IfOk result (λ both. (n : ℕ) → (is_in n both.0.numbers.items || is_in n both.1.numbers.items)
            ≡ is_in n self.numbers.items) }
    {
        let (kept_numbers, other_numbers) = parted_by(alloc, &self.numbers, keep)?;
        let (kept, others) = self.features.parted(alloc, keep)?;
        let kept = Rest {
            numbers: kept_numbers,
            features: kept,
        };
        let others = Rest {
            numbers: other_numbers,
            features: others,
        };
        Ok((kept, others))
    }
}
