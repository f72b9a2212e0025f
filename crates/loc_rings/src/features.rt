// A feature: an id and its rings.

ghost use Rattle.std.specs.Prelude.{◌≡◌, ◌≤◌, length, vec_len};
ghost use Rattle.loc_spec_text.specs.Limits.{most_id_bytes};

use crate::rings::Rings;
use std::marker::Model;

/// An id of at most 200 bytes, and the rings that bound an area.
#[derive(Drop)]
pub struct Feature {
    id: Vec<u8>,
    rings: Rings,
}

const _: () = prove!(size_of::<Feature>() <= 56);

impl Model for Feature {
    ghost use Rattle.std.specs.Prelude.{◌≤◌, vec_len};
    ghost use Rattle.loc_rings.specs.Values.{Feature as FeatureValue};
    ghost use Rattle.loc_spec_text.specs.Limits.{most_id_bytes};

    ghost Value = { FeatureValue };

    ghost view = { λ f. record { id = f.id.items; polygons = f.rings } };

    ghost invariant = { λ f. vec_len f.id ≤ most_id_bytes };
}

impl Feature {
    /// The feature with this id and these rings.
    pub fn new(id: Vec<u8>, rings: Rings) -> Feature
        requires { vec_len id ≤ most_id_bytes }
        ensures id { result.id ≡ id.items }
        ensures polygons { result.polygons ≡ rings }
    {
        Feature { id, rings }
    }

    /// The bytes of the id.
    pub fn id(&self) -> &[u8]
        ensures value { result.now ≡ self.now.id }
        ensures short { length result.now ≤ most_id_bytes }
    {
        self.id.as_slice()
    }

    /// The rings, which know which polygon each belongs to.
    pub fn rings(&self) -> &Rings
        ensures { result.now ≡ self.now.polygons }
    {
        &self.rings
    }

    /// The id alone. The rings are let go.
    pub fn into_id(self) -> Vec<u8>
        ensures { result.items ≡ self.id }
    {
        let Feature { id, rings: _ } = self;
        id
    }
}
