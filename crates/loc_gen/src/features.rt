// The features of generated layers, by their numbers.

ghost use Rattle.std.specs.Prelude.{◌≡◌, ◌<◌, ◌≤◌, ◌^◌, slice_index_or};
ghost use Rattle.loc_gen.specs.Layers.{feature_count, features, limit_of, nested as nested_of, square as square_of, strip as strip_of};

use crate::Kind;

/// A rectangle by its lower left and its upper right corner.
#[derive(Clone, Copy, Drop)]
pub struct Rectangle {
    pub left: u64,
    pub low: u64,
    pub right: u64,
    pub high: u64,
}

// The unit square from this corner.
fn square(left: u64, low: u64) -> Rectangle
    requires left { left < 2 ^ 32 }
    requires low { low < 2 ^ 32 }
    ensures { result ≡ square_of left low }
{
    Rectangle {
        left,
        low,
        right: left + 1,
        high: low + 1,
    }
}

// The square with this number, from the outside in.
fn nested(n: u64, start: u64, number: u64) -> Rectangle
    requires member { number < n }
    requires size { n < 2 ^ 32 }
    requires start { start < 2 ^ 32 }
    ensures { result ≡ nested_of n start number }
{
    Rectangle {
        left: start + number,
        low: number,
        right: start + 4 * n - number,
        high: 4 * n - number,
    }
}

// The strip with this number, from below.
fn strip(start: u64, number: u64) -> Rectangle
    requires number { number < 2 ^ 32 }
    requires start { start < 2 ^ 32 }
    ensures { result ≡ strip_of start number }
{
    let left = (start + number * 40503) % 65536;
    Rectangle {
        left,
        low: 2 * number,
        right: left + 200_000,
        high: 2 * number + 1,
    }
}

// The feature with this number.
pub(crate) fn feature(kind: Kind, n: u64, start: u64, number: u64) -> Rectangle
    requires within { n ≤ limit_of kind }
    requires start { start < 65536 }
    requires member { number < feature_count kind n }
    ensures { slice_index_or (features kind n start) number result ≡ result }
{
    match kind {
        Kind::Grid => square(start + number / n, number % n),
        Kind::Nest => nested(n, start, number),
        Kind::Strips => strip(start, number),
    }
}
