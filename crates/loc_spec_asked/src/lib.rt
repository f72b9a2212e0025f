// The plain types of what a command asks for.
#![tactic(auto)]

/// By which index the places of points are found: by a look at every corner and edge, by the tree of versions, or by the map of trapezoids.
#[derive(Clone, Copy)]
pub enum Index {
    Scan,
    Tree,
    Trap,
}

/// In which order the edges of a layer are added to a map of trapezoids: that of the file of this name, or one that is shuffled from a number.
#[derive(Clone, Copy)]
pub enum EdgeOrder<'a> {
    File(&'a str),
    Shuffled(u64),
}
