//! The scale of a layer: how many decimals its coordinates hold.

ghost use Rattle.std.specs.Prelude.{◌≡◌, ◌≤◌};
ghost use Rattle.loc_spec_text.specs.Limits.{most_scale};

use std::marker::Model;

/// A scale of 0 to 15, seen as a number.
#[derive(Clone, Copy, Drop)]
pub struct Scale {
    decimals: u8,
}

impl Model for Scale {
    ghost use Rattle.std.specs.Prelude.{ℕ, ◌≤◌};
    ghost use Rattle.loc_spec_text.specs.Limits.{most_scale};

    ghost Value = { ℕ };

    ghost view = { λ s. s.decimals };

    ghost invariant = { λ s. s.decimals ≤ most_scale };

    ghost inverse = { λ v. record { decimals = v } };
}

impl Scale {
    /// The scale of so many decimals.
    pub fn new(decimals: u8) -> Scale
        requires { decimals ≤ most_scale }
        ensures { result ≡ decimals }
    {
        Scale { decimals }
    }

    /// How many decimals a coordinate has.
    pub fn decimals(self) -> u8
        ensures value { result ≡ self }
        ensures within { result ≤ most_scale }
    {
        self.decimals
    }
}
