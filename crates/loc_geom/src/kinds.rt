// Answers of the predicates.

/// Where a point stands against the line through an edge.
#[derive(Clone, Copy, Drop)]
pub enum Side {
    Below,
    On,
    Above,
}

/// How two edges meet. They conflict where they touch or cross.
#[derive(Clone, Copy, Drop)]
pub enum Meeting {
    Apart,
    Touch,
    Cross,
}
