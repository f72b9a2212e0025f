//! The limits of the product, each under the name of its definition.

/// The most bytes of a layer, of points, of spans and of an order text.
pub const MOST_TEXT: usize = 1 << 28;

/// The most bytes of a line of points or of spans.
pub const MOST_LINE: usize = 4096;

/// The most bytes of an index file.
pub const MOST_INDEX: usize = 1 << 31;

/// The most features of a layer.
pub const MOST_FEATURES: usize = 1 << 18;

/// The most ring points of a layer, and so the most corners of its rings.
pub const MOST_POINTS: usize = 1 << 20;

/// The most bytes of the id of a feature.
pub const MOST_ID_BYTES: usize = 200;

/// The most pieces into which the segments of a layer are cut, and so the most edges.
pub const MOST_PIECES: usize = 1 << 21;

/// The most members of the distinct cover lists together.
pub const MOST_MEMBERS: usize = 1 << 24;

/// The most decimals of a coordinate.
pub const MOST_SCALE: u8 = 15;
