//! Removal: the successor takes the place of a node with two children, a node with one child at most is spliced out, and
//! then the way up: a red sibling rises first, a black one with a red child rises, or that child does, and ends it, another becomes red.
//! At most 3 + 1 + 3 + 6 changes.
ghost use Rattle.std.specs.Prelude.{◌≡◌, ◌≤◌, ◌<◌, ◌+◌, ◌^◌, ℕ, List, [], ◌∷◌, ◌++◌, length, Some, IsTrue, not};
ghost use Rattle.loc_pool.specs.declared.Link.{Link};
ghost use Rattle.loc_pool.specs.declared.Turn.{Turn};
ghost use Rattle.loc_pool.specs.declared.Colour.{Colour};
ghost use Rattle.loc_pool.specs.declared.Colour.TheVariants.{Red, Black};
ghost use Rattle.loc_rb.specs.Trees.{Row, Tree, Frame, Fits, top, leaf, node, node_at};
ghost use Rattle.loc_rb.specs.Nodes.{live, IsLive, IsOld, KeepsItems, Within};
ghost use Rattle.loc_rb.specs.Balance.{IsBlackTop, depth};
ghost use Rattle.loc_rb.specs.Places.{Spot, Holds, LeadsTo};
ghost use Rattle.loc_rb.specs.Steps.{NodeAt, Replaced, IsRedTop, LacksBlack, Uneven, Siblings, ToSpliceOut, LeftmostPath, remaining};

use crate::links::{Links, Path, push};
use crate::steps::{other_side, red_child, rotate, transplant};
use loc_pool::{Colour, Link, Turn};

/// Takes out the item of the node `at`, to which the path leads. Takes no memory: the room was taken before.
pub fn remove<K: Links>(links: &mut K, path: Path, at: Link)
    requires room { 640 ≤ (K.nodes links.old).spare }
    requires place { (preceding : List ℕ) × (item : ℕ) × (following : List ℕ) × LeadsTo (K.nodes links.old) path.items at preceding item following × (length preceding + length following < 2 ^ 21) }
    ensures tree { (preceding : List ℕ) (item : ℕ) (following : List ℕ) → LeadsTo (K.nodes links.old) path.items at preceding item following → Holds (K.nodes links.new) (preceding ++ following) }
    ensures made { (K.nodes links.new).made ≤ (K.nodes links.old).made + 1 }
    ensures more { (K.nodes links.old).made ≤ (K.nodes links.new).made }
    ensures changed { (K.nodes links.new).changed ≤ (K.nodes links.old).changed + 13 }
    ensures kept { (K.nodes links.new).kept ≡ (K.nodes links.old).kept }
    ensures items { KeepsItems (K.nodes links.old) (K.nodes links.new) }
{
    let mut path = path;
    let last = put_successor(links, &mut path, at);
    splice_out(links, &mut path, last);
}

/// Where `at` has two children, a new node with the next item takes its place. Answers the node that is to be spliced
/// out, to which the path leads, and which has a child at most.
fn put_successor<K: Links>(links: &mut K, path: &mut Path, at: Link) -> Link
    requires room { 136 ≤ (K.nodes links.old).spare }
    requires place { (preceding : List ℕ) × (item : ℕ) × (following : List ℕ) × LeadsTo (K.nodes links.old) path.old.items at preceding item following × (length preceding + length following < 2 ^ 21) }
    ensures tree { (preceding : List ℕ) (item : ℕ) (following : List ℕ) → LeadsTo (K.nodes links.old) path.old.items at preceding item following
        → ToSpliceOut (K.nodes links.new) path.new.items result (preceding ++ following) }
    ensures within { (makes : ℕ) × (makes ≤ 1) × Within makes 3 (K.nodes links.old) (K.nodes links.new) }
    ensures short { length path.new.items ≤ 42 }
{
    match links.child(at, Turn::Left) {
        None => at,
        Some(_) => match links.child(at, Turn::Right) {
            None => at,
            Some(right) => {
                let depth = path.len();
                push(path, at, Turn::Right);
                let next = minimum(links, path, right);
                let item = links.item(next);
                path.truncate(depth);
                let at = replace_node(links, path, at, item);
                push(path, at, Turn::Right);
                minimum(links, path, right)
            }
        },
    }
}

/// Goes on to the first node of the tree of `start`, to which the path leads.
fn minimum<K: Links>(links: &K, path: &mut Path, start: Link) -> Link
    requires place { (frames : List Frame) × (tree : Tree) × Spot (K.nodes links.now) path.old.items frames tree × (top tree ≡ Some start) × (length path.old.items + depth tree ≤ 43) }
    ensures tree { (frames : List Frame) (tree : Tree) → Spot (K.nodes links.now) path.old.items frames tree → top tree ≡ Some start
        → (leftmost : LeftmostPath (K.nodes links.now) path.new.items frames tree result) × (item : ℕ) × (colour : Colour) × (right : Tree) × (leftmost.tree ≡ node result leaf item colour right) }
    ensures longer { (remaining : List (Link × Turn)) × (path.new.items ≡ path.old.items ++ remaining) }
{
    let mut at = start;
    'down: while let Some(next) = links.child(at, Turn::Left) {
        push(path, at, Turn::Left);
        at = next;
    }
    at
}

/// A new node takes the place of `at`, with another item.
fn replace_node<K: Links>(links: &mut K, path: &mut Path, at: Link, item: u32) -> Link
    requires room { 136 ≤ (K.nodes links.old).spare }
    requires short { length path.old.items ≤ 44 }
    requires old { IsOld (K.nodes links.old) item }
    requires place { NodeAt (K.nodes links.old) path.old.items at }
    ensures tree { (place : NodeAt (K.nodes links.old) path.old.items at)
        → Replaced (K.nodes links.new) path.new.items place.frames (node result place.left item place.colour place.right) }
    ensures within { Within 1 3 (K.nodes links.old) (K.nodes links.new) }
    ensures length { length path.new.items ≡ length path.old.items }
{
    let left = links.child(at, Turn::Left);
    let right = links.child(at, Turn::Right);
    let colour = links.colour(at);
    let bare = links.make(item, colour);
    let mut none = Path::new();
    let half = links.change(&mut none, bare, Turn::Left, left);
    let mut none = Path::new();
    let new = links.change(&mut none, half, Turn::Right, right);
    transplant(links, path, Some(new));
    new
}

/// Splices out `at`, which has a child at most.
fn splice_out<K: Links>(links: &mut K, path: &mut Path, at: Link)
    requires room { 450 ≤ (K.nodes links.old).spare }
    requires short { length path.old.items ≤ 42 }
    requires place { (content : List ℕ) × ToSpliceOut (K.nodes links.old) path.old.items at content }
    ensures tree { (content : List ℕ) → ToSpliceOut (K.nodes links.old) path.old.items at content → Holds (K.nodes links.new) content }
    ensures within { Within 0 10 (K.nodes links.old) (K.nodes links.new) }
{
    let child = only_child(links, at);
    let colour = links.colour(at);
    transplant(links, path, child);
    match colour {
        Colour::Red => (),
        Colour::Black => match child {
            Some(child) => links.set_colour(child, Colour::Black),
            None => fix_removal(links, path),
        },
    }
}

/// The child of a node that has one at most.
fn only_child<K: Links>(links: &K, at: Link) -> Option<Link>
    requires { (left : Tree) × (item : ℕ) × (colour : Colour) × (right : Tree) × Fits (live (K.nodes links.now)) (node at left item colour right) }
    ensures { (left : Tree) (item : ℕ) (colour : Colour) (right : Tree) → Fits (live (K.nodes links.now)) (node at left item colour right) → result ≡ top (remaining left right) }
{
    match links.child(at, Turn::Left) {
        None => links.child(at, Turn::Right),
        Some(left) => Some(left),
    }
}

/// The tree at the end of the path lacks one black node on each way down.
fn fix_removal<K: Links>(links: &mut K, path: &mut Path)
    requires room { 405 ≤ (K.nodes links.old).spare }
    requires short { length path.old.items ≤ 42 }
    requires place { (content : List ℕ) × LacksBlack (K.nodes links.old) path.old.items content }
    ensures tree { (content : List ℕ) → LacksBlack (K.nodes links.old) path.old.items content → Holds (K.nodes links.new) content }
    ensures within { Within 0 9 (K.nodes links.old) (K.nodes links.new) }
{
    'up: while let Some((at, turn)) = path.pop() {
        match red_child(links, at, other_side(turn)) {
            Some(sibling) => {
                let low = rotate_red_sibling(links, path, at, turn, sibling);
                fix_black_sibling(links, path, low, turn);
                return;
            }
            None => {
                if fix_black_sibling(links, path, at, turn) {
                    return;
                }
            }
        }
    }
}

/// The sibling is red: it rises over `at`, which becomes red and has a black sibling then.
/// Answers the link of `at` from then on.
fn rotate_red_sibling<K: Links>(
    links: &mut K,
    path: &mut Path,
    at: Link,
    turn: Turn,
    sibling: Link,
) -> Link
    requires room { 135 ≤ (K.nodes links.old).spare }
    requires short { length path.old.items ≤ 42 }
    requires place { (content : List ℕ) × (uneven : Uneven (K.nodes links.old) path.old.items at turn content) × IsRedTop sibling uneven.other }
    ensures tree { (content : List ℕ) (uneven : Uneven (K.nodes links.old) path.old.items at turn content) → IsRedTop sibling uneven.other
        → (lower : Uneven (K.nodes links.new) path.new.items result turn content) × IsBlackTop lower.other × (lower.colour ≡ Red) }
    ensures within { Within 0 3 (K.nodes links.old) (K.nodes links.new) }
    ensures length { length path.new.items ≡ length path.old.items + 1 }
{
    push(path, at, other_side(turn));
    let (low, high) = rotate(links, path, sibling, Colour::Red, Colour::Black);
    push(path, high, turn);
    low
}

/// The child of `at` on that side lacks a black node, and its sibling is black.
/// Answers whether the tree is red-black again: else the tree of `at` lacks a black node.
fn fix_black_sibling<K: Links>(links: &mut K, path: &mut Path, at: Link, turn: Turn) -> bool
    requires room { 270 ≤ (K.nodes links.old).spare }
    requires short { length path.old.items ≤ 42 }
    requires place { (content : List ℕ) × (uneven : Uneven (K.nodes links.old) path.old.items at turn content) × IsBlackTop uneven.other }
    ensures tree { (content : List ℕ) (uneven : Uneven (K.nodes links.old) path.old.items at turn content) → IsBlackTop uneven.other
        → (IsTrue result → Holds (K.nodes links.new) content) × (IsTrue (not result) → (uneven.colour ≡ Black) × LacksBlack (K.nodes links.new) path.new.items content) }
    ensures within { Within 0 6 (K.nodes links.old) (K.nodes links.new) }
    ensures still { IsTrue (not result) → Within 0 0 (K.nodes links.old) (K.nodes links.new) }
    ensures length { IsTrue (not result) → length path.new.items ≡ length path.old.items }
{
    match links.child(at, other_side(turn)) {
        None => true,
        Some(sibling) => match red_child(links, sibling, other_side(turn)) {
            Some(far) => {
                rotate_sibling(links, path, Fork { at, turn, sibling }, far);
                true
            }
            None => match red_child(links, sibling, turn) {
                Some(near) => {
                    rotate_near_nephew(links, path, Fork { at, turn, sibling }, near);
                    true
                }
                None => recolour_sibling(links, at, sibling),
            },
        },
    }
}

/// A node, the side on which it lacks a black node, and its child on the other side.
#[derive(Clone, Copy)]
struct Fork {
    at: Link,
    turn: Turn,
    sibling: Link,
}

/// The sibling's far child is red: the sibling rises over the node.
fn rotate_sibling<K: Links>(links: &mut K, path: &mut Path, fork: Fork, far: Link)
    requires room { 135 ≤ (K.nodes links.old).spare }
    requires short { length path.old.items ≤ 42 }
    requires place { (content : List ℕ) × (siblings : Siblings (K.nodes links.old) path.old.items fork.at fork.turn fork.sibling content) × IsRedTop far siblings.far }
    ensures tree { (content : List ℕ) (siblings : Siblings (K.nodes links.old) path.old.items fork.at fork.turn fork.sibling content) → IsRedTop far siblings.far → Holds (K.nodes links.new) content }
    ensures within { Within 0 3 (K.nodes links.old) (K.nodes links.new) }
{
    let colour = links.colour(fork.at);
    push(path, fork.at, other_side(fork.turn));
    rotate(links, path, fork.sibling, Colour::Black, colour);
    links.set_colour(far, Colour::Black);
}

/// The sibling's near child is red: it rises over the sibling and over the node.
fn rotate_near_nephew<K: Links>(links: &mut K, path: &mut Path, fork: Fork, near: Link)
    requires room { 270 ≤ (K.nodes links.old).spare }
    requires short { length path.old.items ≤ 42 }
    requires place { (content : List ℕ) × (siblings : Siblings (K.nodes links.old) path.old.items fork.at fork.turn fork.sibling content) × IsRedTop near siblings.near }
    ensures tree { (content : List ℕ) (siblings : Siblings (K.nodes links.old) path.old.items fork.at fork.turn fork.sibling content) → IsRedTop near siblings.near → Holds (K.nodes links.new) content }
    ensures within { Within 0 6 (K.nodes links.old) (K.nodes links.new) }
{
    let colour = links.colour(fork.at);
    push(path, fork.at, other_side(fork.turn));
    push(path, fork.sibling, fork.turn);
    let (_, middle) = rotate(links, path, near, Colour::Black, Colour::Red);
    rotate(links, path, middle, Colour::Black, colour);
}

/// No child of the sibling is red: the sibling becomes red. Answers whether `at` was red; it is black then, and the tree is red-black.
fn recolour_sibling<K: Links>(links: &mut K, at: Link, sibling: Link) -> bool
    requires { (path : List (Link × Turn)) × (turn : Turn) × (content : List ℕ) × (siblings : Siblings (K.nodes links.old) path at turn sibling content)
        × IsBlackTop siblings.near × IsBlackTop siblings.far }
    ensures tree { (path : List (Link × Turn)) (turn : Turn) (content : List ℕ) (siblings : Siblings (K.nodes links.old) path at turn sibling content) → IsBlackTop siblings.near → IsBlackTop siblings.far
        → (IsTrue result → Holds (K.nodes links.new) content) × (IsTrue (not result) → (siblings.colour ≡ Black) × LacksBlack (K.nodes links.new) path content) }
    ensures within { Within 0 0 (K.nodes links.old) (K.nodes links.new) }
{
    links.set_colour(sibling, Colour::Red);
    match links.colour(at) {
        Colour::Red => {
            links.set_colour(at, Colour::Black);
            true
        }
        Colour::Black => false,
    }
}
