//! A node as it lies in memory, and the slab of nodes that is one block.
ghost use Rattle.std.specs.Prelude.{◌≡◌, ◌<◌, Some, length, slice_get, slice_set};
ghost use Rattle.loc_pool.specs.declared.Link.{Link};
ghost use Rattle.loc_pool.specs.Rows.{no_link, new_row, plain_child, with_child, child_at, stamped};
ghost use Rattle.loc_pool.specs.Cells.{if_there, row_of, mark_of};

use crate::{Colour, Extra, Link, Turn};

/// What there is of an extra: none, or one on a side that ends there or leads to a node.
#[derive(Clone, Copy, Drop)]
pub enum Mark {
    Free,
    LeftEnd,
    LeftTo,
    RightEnd,
    RightTo,
}

/// A row in 24 bytes. An `Option` of a link would take 8 bytes, so whether a link is there is told apart from it.
#[derive(Clone, Copy, Drop)]
pub struct Node {
    left: Link,
    right: Link,
    /// Where the extra leads.
    to: Link,
    item: u32,
    /// The version of the extra.
    version: u32,
    has_left: bool,
    has_right: bool,
    mark: Mark,
    colour: Colour,
}

const _: () = prove!(size_of::<Node>() <= 24);

/// How many nodes lie in a slab.
pub(crate) const SLAB: usize = 1024;

/// Nodes that share one block of memory.
#[derive(Drop)]
pub struct Slab {
    nodes: [Node; SLAB],
}

// A link where it is there.
fn if_present(there: bool, at: Link) -> Option<Link>
    ensures { result ≡ if_there there at }
{
    if there { Some(at) } else { None }
}

// What there is of an extra on a side.
fn extra_mark(turn: Turn, leads: bool) -> Mark
    ensures { result ≡ mark_of turn leads }
{
    match (turn, leads) {
        (Turn::Left, false) => Mark::LeftEnd,
        (Turn::Left, true) => Mark::LeftTo,
        (Turn::Right, false) => Mark::RightEnd,
        (Turn::Right, true) => Mark::RightTo,
    }
}

impl Node {
    /// A node with no extra.
    pub fn new(item: u32, left: Option<Link>, right: Option<Link>, colour: Colour) -> Node
        ensures { row_of result ≡ new_row item left right colour }
    {
        Node {
            left: left.unwrap_or_default(),
            right: right.unwrap_or_default(),
            to: Link::default(),
            item,
            version: 0,
            has_left: left.is_some(),
            has_right: right.is_some(),
            mark: Mark::Free,
            colour,
        }
    }

    /// The item.
    pub fn item(&self) -> u32
        ensures { result ≡ (row_of self.now).item }
    {
        self.item
    }

    /// The colour.
    pub fn colour(&self) -> Colour
        ensures { result ≡ (row_of self.now).colour }
    {
        self.colour
    }

    /// The extra of its parts.
    pub fn extra(&self) -> Option<Extra>
        ensures { result ≡ (row_of self.now).extra }
    {
        let (turn, to) = match self.mark {
            Mark::Free => return None,
            Mark::LeftEnd => (Turn::Left, None),
            Mark::LeftTo => (Turn::Left, Some(self.to)),
            Mark::RightEnd => (Turn::Right, None),
            Mark::RightTo => (Turn::Right, Some(self.to)),
        };
        Some(Extra {
            turn,
            version: self.version,
            to,
        })
    }

    /// The plain child on a side.
    pub fn plain(&self, turn: Turn) -> Option<Link>
        ensures { result ≡ plain_child turn (row_of self.now) }
    {
        match turn {
            Turn::Left => if_present(self.has_left, self.left),
            Turn::Right => if_present(self.has_right, self.right),
        }
    }

    /// The child on a side at a version.
    pub fn child(&self, turn: Turn, version: u32) -> Option<Link>
        ensures { result ≡ child_at version turn (row_of self.now) }
    {
        if version < self.version {
            return self.plain(turn);
        }
        match (self.mark, turn) {
            (Mark::LeftEnd, Turn::Left) | (Mark::RightEnd, Turn::Right) => None,
            (Mark::LeftTo, Turn::Left) | (Mark::RightTo, Turn::Right) => Some(self.to),
            _ => self.plain(turn),
        }
    }

    /// The node with the plain child on a side exchanged.
    pub fn with_plain(self, turn: Turn, to: Option<Link>) -> Node
        ensures { row_of result ≡ with_child turn to (row_of self) }
    {
        let link = to.unwrap_or_default();
        let there = to.is_some();
        match turn {
            Turn::Left => Node {
                left: link,
                has_left: there,
                ..self
            },
            Turn::Right => Node {
                right: link,
                has_right: there,
                ..self
            },
        }
    }

    /// The node with its extra set.
    pub fn with_extra(self, turn: Turn, version: u32, to: Option<Link>) -> Node
        ensures { row_of result ≡ stamped version turn to (row_of self) }
    {
        Node {
            mark: extra_mark(turn, to.is_some()),
            version,
            to: to.unwrap_or_default(),
            ..self
        }
    }

    /// The node in another colour.
    pub fn with_colour(self, colour: Colour) -> Node
        ensures { row_of result ≡ record (row_of self) { colour = colour } }
    {
        Node { colour, ..self }
    }
}

impl Slab {
    /// A slab of nodes that no row has.
    pub(crate) fn new() -> Slab
        ensures { length result.nodes ≡ 1024 }
    {
        let node = Node::new(0, None, None, Colour::Black);
        Slab {
            nodes: [node; SLAB],
        }
    }

    /// The node at a place.
    pub(crate) fn node(&self, place: usize) -> &Node
        requires { place < 1024 }
        ensures { slice_get self.now.nodes place ≡ Some result.now }
    {
        &self.nodes[place]
    }

    /// Writes the node at a place.
    pub(crate) fn put(&mut self, place: usize, node: Node)
        requires { place < 1024 }
        ensures { self.new.nodes ≡ slice_set self.old.nodes place node }
    {
        self.nodes[place] = node;
    }
}
