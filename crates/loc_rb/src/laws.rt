//! What the balance of a tree says of its paths.
ghost use Rattle.std.specs.Prelude.{◌≡◌, ◌≤◌, ◌+◌, ◌*◌, ◌^◌, ℕ, List, length};
ghost use Rattle.loc_pool.specs.declared.Link.{Link};
ghost use Rattle.loc_pool.specs.declared.Turn.{Turn};
ghost use Rattle.loc_rb.specs.Trees.{Tree, items};
ghost use Rattle.loc_rb.specs.Nodes.{Nodes};
ghost use Rattle.loc_rb.specs.Balance.{IsRedBlack, depth};
ghost use Rattle.loc_rb.specs.Places.{LeadsTo, LeadsToGap};

/// A red-black tree of k items has no path of d nodes with 2^d > (k + 1)^2; so one of at most 2^21 items has none of
/// more than 42 nodes. `path` counts the node that the path leads to.
pub fn paths_are_short()
    ensures tree { (tree : Tree) → IsRedBlack tree → 2 ^ depth tree ≤ (length (items tree) + 1) * (length (items tree) + 1) }
    ensures path { (nodes : Nodes) (path : List (Link × Turn)) (at : Link) (preceding : List ℕ) (item : ℕ) (following : List ℕ) → LeadsTo nodes path at preceding item following
        → 2 ^ (length path + 1) ≤ (length preceding + length following + 2) * (length preceding + length following + 2) }
    ensures gap { (nodes : Nodes) (path : List (Link × Turn)) (preceding following : List ℕ) → LeadsToGap nodes path preceding following
        → 2 ^ length path ≤ (length preceding + length following + 1) * (length preceding + length following + 1) }
    ensures few { (tree : Tree) → IsRedBlack tree → length (items tree) ≤ 2 ^ 21 → depth tree ≤ 42 }
{}
