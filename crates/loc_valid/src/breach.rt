// The ways in which a feature breaks the rules.

use loc_geom::{Edge, Point};

/// The first breach of a feature. Rings and polygons count from 1 through the feature.
#[derive(Clone, Copy, Drop)]
pub enum Breach {
    /// The ring has no segment.
    PointRing { ring: u32 },
    /// The two edges cross.
    Cross { a: Edge, b: Edge },
    /// More than one segment has the edge as a piece.
    Twice { edge: Edge },
    /// More than two edges of the ring end at the point.
    Pinch { ring: u32, at: Point },
    /// The hole has an edge that does not lie inside its exterior.
    Outside { ring: u32 },
    /// The hole has an edge inside another hole of its polygon.
    Nested { ring: u32, inside: u32 },
    /// The inside of the polygon is not one part.
    Parts { polygon: u32, parts: u32 },
    /// An edge of the polygon lies inside another polygon.
    Overlap { polygon: u32, other: u32 },
}
