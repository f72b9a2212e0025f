// The floors of the corners and of the edges of a table.

ghost use Rattle.std.specs.Prelude.{◌≡◌};

use std::marker::Model;

/// The floor of each corner, and the edge just below each edge at its lower end.
#[derive(Drop)]
pub struct Floors {
    of_corner: Vec<Option<u32>>,
    of_edge: Vec<Option<u32>>,
}

impl Model for Floors {
    ghost use Rattle.loc_edges.specs.Floors.{FloorLists};

    ghost Value = { FloorLists };

    ghost view = { λ f. record { of_corner = f.of_corner.items; of_edge = f.of_edge.items } };
}

impl Floors {
    /// The floors that these two lists are.
    pub fn of(of_corner: Vec<Option<u32>>, of_edge: Vec<Option<u32>>) -> Floors
        ensures corners { result.of_corner ≡ of_corner.items }
        ensures edges { result.of_edge ≡ of_edge.items }
    {
        Floors { of_corner, of_edge }
    }

    /// The floor of each corner.
    pub fn of_corner(&self) -> &[Option<u32>]
        ensures { result.now ≡ self.now.of_corner }
    {
        self.of_corner.as_slice()
    }

    /// The edge just below each edge at its lower end.
    pub fn of_edge(&self) -> &[Option<u32>]
        ensures { result.now ≡ self.now.of_edge }
    {
        self.of_edge.as_slice()
    }
}
