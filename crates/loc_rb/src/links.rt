//! What the steps of a red-black tree ask of the nodes.
ghost use Rattle.std.specs.Prelude.{◌≡◌, ◌≤◌, ◌<◌, Some, [], ◌∷◌, ◌++◌, length};
ghost use Rattle.loc_rb.specs.Trees.{Row, child_of};
ghost use Rattle.loc_rb.specs.Nodes.{Nodes, HasRow, IsLive, IsLiveOrNone, CanChange, Changes, Colours, Makes, Roots};

use arrayvec::ArrayVec;
use loc_pool::{Colour, Link, Turn};

/// The entries of a path, from the root on: a node, and the side on which the path goes on.
pub type Path = ArrayVec<(Link, Turn), 44>;

/// A store of nodes in which each pointer is changed by one call. A node may get another link when it is changed: the old
/// link keeps its row and is no longer current. Every call asks that the links handed to it have rows, and those that
/// change the store that they are current. No call takes memory or refuses.
pub trait Links {
    /// The newest rows, the current links, the newest root, the counts of calls, the room and what is kept.
    ghost nodes: { Self → Nodes };

    /// The newest root.
    fn root(&self) -> Option<Link>
        ensures { result ≡ (nodes self.now).root };

    /// The item of a node.
    fn item(&self, at: Link) -> u32
        requires { HasRow (nodes self.now) at }
        ensures { (row : Row) → (nodes self.now).rows at ≡ Some row → result ≡ row.item };

    /// The newest child of a node on a side.
    fn child(&self, at: Link, turn: Turn) -> Option<Link>
        requires { HasRow (nodes self.now) at }
        ensures { (row : Row) → (nodes self.now).rows at ≡ Some row → result ≡ child_of turn row };

    /// The colour of a node.
    fn colour(&self, at: Link) -> Colour
        requires { HasRow (nodes self.now) at }
        ensures { (row : Row) → (nodes self.now).rows at ≡ Some row → result ≡ row.colour };

    /// Changes the colour in that one row.
    fn set_colour(&mut self, at: Link, colour: Colour)
        requires { IsLive (nodes self.old) at }
        ensures { Colours (nodes self.old) (nodes self.new) at colour };

    /// A new node with no children.
    fn make(&mut self, item: u32, colour: Colour) -> Link
        requires { 1 ≤ (nodes self.old).spare }
        ensures { Makes (nodes self.old) (nodes self.new) item colour result };

    /// Makes `to` the child of `at`, to which the path leads, and answers the link of `at` from then on. The path then has
    /// the links of its nodes from then on. The path of a node that hangs under no other is empty.
    fn change(&mut self, path: &mut Path, at: Link, turn: Turn, to: Option<Link>) -> Link
        requires room { 45 ≤ (nodes self.old).spare }
        requires place { CanChange (nodes self.old) path.old.items at to }
        ensures { Changes (nodes self.old) (nodes self.new) path.old.items path.new.items at result turn to };

    /// Makes `to` the newest root.
    fn put_root(&mut self, to: Option<Link>)
        requires { IsLiveOrNone (nodes self.old) to }
        ensures { Roots (nodes self.old) (nodes self.new) to };
}

/// Makes the path one entry longer.
pub(crate) fn push(path: &mut Path, at: Link, turn: Turn)
    requires { length path.old.items < 44 }
    ensures { path.new.items ≡ path.old.items ++ (at, turn) ∷ [] }
{
    path.push((at, turn));
}
