//! The steps that both insertion and removal take.
ghost use Rattle.std.specs.Prelude.{◌≡◌, ◌≤◌, ◌+◌, ℕ, List, [], ◌∷◌, ◌++◌, length, MatchOption, IsTrue, not};
ghost use Rattle.loc_pool.specs.declared.Link.{Link};
ghost use Rattle.loc_pool.specs.declared.Turn.{Turn};
ghost use Rattle.loc_pool.specs.declared.Colour.{Colour};
ghost use Rattle.loc_rb.specs.Trees.{Tree, Frame, Fits, node_at, flip};
ghost use Rattle.loc_rb.specs.Nodes.{live, IsLive, Within};
ghost use Rattle.loc_rb.specs.Balance.{IsBlackTop};
ghost use Rattle.loc_rb.specs.Places.{Spot};
ghost use Rattle.loc_rb.specs.Steps.{CanTransplant, ToRotate, Replaced, IsRedTop};

use crate::links::{Links, Path, push};
use loc_pool::{Colour, Link, Turn};

/// The other side.
pub(crate) fn other_side(turn: Turn) -> Turn
    ensures { result ≡ flip turn }
{
    match turn {
        Turn::Left => Turn::Right,
        Turn::Right => Turn::Left,
    }
}

/// Whether the two sides are the same.
pub(crate) fn is_same_side(side: Turn, turn: Turn) -> bool
    ensures same { IsTrue result → turn ≡ side }
    ensures other { IsTrue (not result) → turn ≡ flip side }
{
    match side {
        Turn::Left => match turn {
            Turn::Left => true,
            Turn::Right => false,
        },
        Turn::Right => match turn {
            Turn::Left => false,
            Turn::Right => true,
        },
    }
}

/// Hangs `to` at the end of the path, in the place of what hangs there.
pub(crate) fn transplant<K: Links>(links: &mut K, path: &mut Path, to: Option<Link>)
    requires room { 45 ≤ (K.nodes links.old).spare }
    requires short { length path.old.items ≤ 44 }
    requires place { (frames : List Frame) × (present : Tree) × (replacement : Tree) × CanTransplant (K.nodes links.old) path.old.items frames present replacement to }
    ensures tree { (frames : List Frame) (present replacement : Tree) → CanTransplant (K.nodes links.old) path.old.items frames present replacement to
        → Replaced (K.nodes links.new) path.new.items frames replacement }
    ensures within { Within 0 1 (K.nodes links.old) (K.nodes links.new) }
    ensures length { length path.new.items ≡ length path.old.items }
{
    match path.pop() {
        None => links.put_root(to),
        Some((at, turn)) => {
            let at = links.change(path, at, turn, to);
            push(path, at, turn);
        }
    }
}

/// Raises `child`, to which the path leads, over the last node of the path, and gives the two these colours.
/// Answers the links of the two from then on, the lower first. The path then leads to the higher.
pub(crate) fn rotate<K: Links>(
    links: &mut K,
    path: &mut Path,
    child: Link,
    low_colour: Colour,
    high_colour: Colour,
) -> (Link, Link)
    requires room { 135 ≤ (K.nodes links.old).spare }
    requires short { length path.old.items ≤ 44 }
    requires place { ToRotate (K.nodes links.old) path.old.items child }
    ensures tree { (turned : ToRotate (K.nodes links.old) path.old.items child)
        → Replaced (K.nodes links.new) path.new.items turned.frames
        (node_at (flip turned.turn) result.1 (node_at turned.turn result.0 turned.inner turned.item low_colour turned.outer) turned.child_item high_colour turned.far) }
    ensures within { Within 0 3 (K.nodes links.old) (K.nodes links.new) }
    ensures length { length path.new.items + 1 ≡ length path.old.items }
{
    match path.pop() {
        None => (child, child),
        Some((at, turn)) => {
            let inner = links.child(child, other_side(turn));
            let low = links.change(path, at, turn, inner);
            let mut none = Path::new();
            let high = links.change(&mut none, child, other_side(turn), Some(low));
            transplant(links, path, Some(high));
            colour_pair(links, low, high, low_colour, high_colour);
            (low, high)
        }
    }
}

/// Gives these colours to the two nodes of a rotation.
fn colour_pair<K: Links>(
    links: &mut K,
    low: Link,
    high: Link,
    low_colour: Colour,
    high_colour: Colour,
)
    requires { IsLive (K.nodes links.old) low × IsLive (K.nodes links.old) high }
    ensures tree { (path : List (Link × Turn)) (frames : List Frame) (turn : Turn) (low_item high_item : ℕ) (low_was high_was : Colour) (outer inner far : Tree)
        → Spot (K.nodes links.old) path frames (node_at (flip turn) high (node_at turn low inner low_item low_was outer) high_item high_was far)
        → Spot (K.nodes links.new) path frames (node_at (flip turn) high (node_at turn low inner low_item low_colour outer) high_item high_colour far) }
    ensures within { Within 0 0 (K.nodes links.old) (K.nodes links.new) }
{
    links.set_colour(low, low_colour);
    links.set_colour(high, high_colour);
}

/// The child on that side, where it is red.
pub(crate) fn red_child<K: Links>(links: &K, at: Link, turn: Turn) -> Option<Link>
    requires { (tree : Tree) × (item : ℕ) × (colour : Colour) × (other : Tree) × Fits (live (K.nodes links.now)) (node_at turn at tree item colour other) }
    ensures { (tree : Tree) (item : ℕ) (colour : Colour) (other : Tree) → Fits (live (K.nodes links.now)) (node_at turn at tree item colour other)
        → MatchOption result (IsBlackTop tree) (λ child. IsRedTop child tree) }
{
    match links.child(at, turn) {
        None => None,
        Some(child) => match links.colour(child) {
            Colour::Red => Some(child),
            Colour::Black => None,
        },
    }
}
