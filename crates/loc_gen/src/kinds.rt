// The kinds of generated layers, and how large they may be.

/// A kind of generated layer.
#[derive(Clone, Copy, Drop)]
pub enum Kind {
    /// Unit squares side by side, in columns of as many.
    Grid,
    /// Squares, each within the one before it.
    Nest,
    /// Flat rectangles of one width, one above the other.
    Strips,
}

impl Kind {
    ghost use Rattle.std.specs.Prelude.{◌≡◌, ◌≤◌};
    ghost use Rattle.loc_gen.specs.Layers.{feature_count as feature_count_of, limit_of};

    // The greatest size of this kind.
    pub(crate) fn limit(self) -> u64
        ensures { result ≡ limit_of self }
    {
        match self {
            Kind::Grid => 256,
            Kind::Nest => 4096,
            Kind::Strips => 131_072,
        }
    }

    // How many features a layer of this size has.
    pub(crate) fn feature_count(self, n: u64) -> u64
        requires { n ≤ limit_of self }
        ensures { result ≡ feature_count_of self n }
    {
        match self {
            Kind::Grid => n * n,
            Kind::Nest => n,
            Kind::Strips => n,
        }
    }
}
