//! Insertion: a new red node at a missing child, and then the way up: at a red uncle two levels, at a black one one or two
//! rotations, which end it. At most 1 + 3 + 3 changes.
ghost use Rattle.std.specs.Prelude.{◌≡◌, ◌≤◌, ◌<◌, ◌+◌, ◌^◌, ◌⊎◌, ℕ, List, [], ◌∷◌, ◌++◌, length, Some};
ghost use Rattle.loc_pool.specs.declared.Link.{Link};
ghost use Rattle.loc_pool.specs.declared.Turn.{Turn};
ghost use Rattle.loc_pool.specs.declared.Colour.TheVariants.{Red, Black};
ghost use Rattle.loc_rb.specs.Trees.{Row, Tree, Frame, node, node_at};
ghost use Rattle.loc_rb.specs.Nodes.{IsLive, IsOld, Within};
ghost use Rattle.loc_rb.specs.Balance.{IsBlackTop};
ghost use Rattle.loc_rb.specs.Places.{Spot, Holds, LeadsToGap};
ghost use Rattle.loc_rb.specs.Steps.{RedViolation, RedPair, OuterPair};

use crate::links::{Links, Path, push};
use crate::steps::{is_same_side, other_side, red_child, rotate, transplant};
use loc_pool::{Colour, Link, Turn};

/// Puts `item` in the place of the missing child to which the path leads. Takes no memory: the room was taken before.
pub fn insert<K: Links>(links: &mut K, path: Path, item: u32)
    requires room { 640 ≤ (K.nodes links.old).spare }
    requires place { (preceding following : List ℕ) × LeadsToGap (K.nodes links.old) path.items preceding following }
    ensures tree { (preceding following : List ℕ) → LeadsToGap (K.nodes links.old) path.items preceding following → Holds (K.nodes links.new) (preceding ++ item ∷ following) }
    ensures made { (K.nodes links.new).made ≡ (K.nodes links.old).made + 1 }
    ensures changed { (K.nodes links.new).changed ≤ (K.nodes links.old).changed + 7 }
    ensures kept { (K.nodes links.new).kept ≡ (K.nodes links.old).kept }
    ensures items { (link : Link) (row : Row) → (K.nodes links.new).rows link ≡ Some row → (row.item ≡ item) ⊎ IsOld (K.nodes links.old) row.item }
{
    let mut path = path;
    let new = links.make(item, Colour::Red);
    transplant(links, &mut path, Some(new));
    fix_insertion(links, &mut path, new);
}

/// Mends the tree where the red node `new`, to which the path leads, may hang under a red one, or be the root.
fn fix_insertion<K: Links>(links: &mut K, path: &mut Path, new: Link)
    requires room { 270 ≤ (K.nodes links.old).spare }
    requires short { length path.old.items ≤ 44 }
    requires place { (content : List ℕ) × RedViolation (K.nodes links.old) path.old.items new content }
    ensures tree { (content : List ℕ) → RedViolation (K.nodes links.old) path.old.items new content → Holds (K.nodes links.new) content }
    ensures within { Within 0 6 (K.nodes links.old) (K.nodes links.new) }
{
    let mut red = new;
    'up: while let Some((at, turn)) = path.pop() {
        match links.colour(at) {
            Colour::Black => return,
            Colour::Red => match path.pop() {
                None => {
                    links.set_colour(at, Colour::Black);
                    return;
                }
                Some((up, side)) => match red_child(links, up, other_side(side)) {
                    None => {
                        rotate_grandparent(links, path, up, side, at, turn, red);
                        return;
                    }
                    Some(uncle) => {
                        recolour(links, up, at, uncle);
                        red = up;
                    }
                },
            },
        }
    }
    links.set_colour(red, Colour::Black);
}

/// The black of `up` goes to its two children.
fn recolour<K: Links>(links: &mut K, up: Link, at: Link, uncle: Link)
    requires { IsLive (K.nodes links.old) up × IsLive (K.nodes links.old) at × IsLive (K.nodes links.old) uncle }
    ensures tree { (path : List (Link × Turn)) (frames : List Frame) (side turn : Turn) (tree : Tree) (item : ℕ) (other : Tree) (up_item : ℕ) (left : Tree) (uncle_item : ℕ) (right : Tree)
        → Spot (K.nodes links.old) path frames (node_at side up (node_at turn at tree item Red other) up_item Black (node uncle left uncle_item Red right))
        → Spot (K.nodes links.new) path frames (node_at side up (node_at turn at tree item Black other) up_item Red (node uncle left uncle_item Black right)) }
    ensures within { Within 0 0 (K.nodes links.old) (K.nodes links.new) }
{
    links.set_colour(at, Colour::Black);
    links.set_colour(uncle, Colour::Black);
    links.set_colour(up, Colour::Red);
}

/// The black node `up` has the red child `at`, which has the red child `red`: the middle one of them rises.
fn rotate_grandparent<K: Links>(
    links: &mut K,
    path: &mut Path,
    up: Link,
    side: Turn,
    at: Link,
    turn: Turn,
    red: Link,
)
    requires room { 270 ≤ (K.nodes links.old).spare }
    requires short { length path.old.items ≤ 42 }
    requires place { (content : List ℕ) × (pair : RedPair (K.nodes links.old) path.old.items up side at turn red content) × IsBlackTop pair.uncle }
    ensures tree { (content : List ℕ) (pair : RedPair (K.nodes links.old) path.old.items up side at turn red content) → IsBlackTop pair.uncle → Holds (K.nodes links.new) content }
    ensures within { Within 0 6 (K.nodes links.old) (K.nodes links.new) }
{
    push(path, up, side);
    let middle = straighten(links, path, side, at, turn, red);
    rotate(links, path, middle, Colour::Red, Colour::Black);
}

/// Raises `red` over `at` where it hangs on the inner side, so that both hang on the side of `at`. Answers the upper one.
fn straighten<K: Links>(
    links: &mut K,
    path: &mut Path,
    side: Turn,
    at: Link,
    turn: Turn,
    red: Link,
) -> Link
    requires room { 135 ≤ (K.nodes links.old).spare }
    requires short { length path.old.items ≤ 43 }
    requires place { (above : List (Link × Turn)) × (up : Link) × (content : List ℕ) × (path.old.items ≡ above ++ (up, side) ∷ [])
        × (pair : RedPair (K.nodes links.old) above up side at turn red content) × IsBlackTop pair.uncle }
    ensures tree { (above : List (Link × Turn)) (up : Link) (content : List ℕ) → path.old.items ≡ above ++ (up, side) ∷ []
        → (pair : RedPair (K.nodes links.old) above up side at turn red content) → IsBlackTop pair.uncle → OuterPair (K.nodes links.new) path.new.items result content }
    ensures within { Within 0 3 (K.nodes links.old) (K.nodes links.new) }
    ensures length { length path.new.items ≡ length path.old.items }
{
    if is_same_side(side, turn) {
        at
    } else {
        push(path, at, turn);
        let (_, high) = rotate(links, path, red, Colour::Red, Colour::Red);
        high
    }
}
