// The map.

ghost use Rattle.std.specs.Prelude.{◌≡◌, ℕ, ◌+◌, ◌*◌, ◌&&◌, ◌<◌, ◌≤◌, ◌⊎◌, Some, None, true, false, length, IsTrue, not, IfOk, OnOk, OnErr, IsSome, [], ◌∷◌, ◌++◌};
ghost use Rattle.loc_spec_plane.specs.Points.{conflict};
ghost use Rattle.loc_spec_plane.specs.Tables.{Table, IsTable, corner as corner_of, edge as edge_of, lo_of, hi_of};
ghost use Rattle.loc_spec_plane.specs.Traps.{in_order};
ghost use Rattle.loc_laws_traps.specs.Sets.{IsCalmSet, with_edge, begins_in, is_inside, is_lowest_at, is_highest_at};
ghost use Rattle.loc_traps.specs.Meaning.{IsMapOf, no_bounds, row_of, live_of, named_of, among, live_count};
ghost use Rattle.loc_laws_traps.specs.Maps.{Renames};
ghost use Rattle.loc_traps.specs.Names.{IsNamable, IsOneOfAKind};
ghost use Rattle.loc_traps.specs.Walks.{IsWalk};
ghost use Rattle.loc_traps.specs.Pieces.{ArePieces};
ghost use Rattle.loc_traps.specs.Splits.{split_of, is_cut_by, AreSplits, AllSendOn, IsAdded};

use crate::names::{Kind, name_at, name_new};
use crate::pieces::{fresh_pieces, splits};
use crate::walk::{Walk, walk_along};
use loc_edges::Ranks;
use loc_spec_plane::Trap;
use std::alloc::{AllocError, Global};
use std::marker::Model;

/// What took the place of a trapezoid that an edge cut: the parts before and behind the edge, where there are any, and the pieces
/// above and below it, each by number.
#[derive(Clone, Copy)]
pub struct Split {
    pub cut: usize,
    pub before: Option<usize>,
    pub above: usize,
    pub below: usize,
    pub behind: Option<usize>,
}

/// The splits that an edge brings, one for each trapezoid that it cuts.
pub type Splits = Vec<Split>;

// What an edge makes of the trapezoids that it cuts: the new rows, and the splits that tell them.
#[derive(Drop)]
struct Pieces {
    fresh: Vec<Trap>,
    splits: Splits,
}

/// The trapezoids of the edges added, by number, and those that were cut. No number is used again.
#[derive(Drop)]
pub struct Traps {
    rows: Vec<Trap>,
    is_live: Vec<bool>,
    added: Vec<u32>,
    lowest: Vec<Option<usize>>,
    highest: Vec<Option<usize>>,
}

impl Model for Traps {
    ghost use Rattle.loc_traps.specs.Meaning.{MapMeaning};

    ghost Value = { MapMeaning };

    ghost view = { λ m. record { rows = m.rows.items; is_live = m.is_live.items; added = m.added.items; lowest = m.lowest.items; highest = m.highest.items } };
}

impl Traps {
    /// The map of no edge: one trapezoid without bounds, number 0.
    pub fn start(alloc: Global) -> Result<Traps, AllocError>
        ensures rows { IfOk result (λ m. m.rows ≡ no_bounds ∷ []) }
        ensures live { IfOk result (λ m. m.is_live ≡ true ∷ []) }
        ensures added { IfOk result (λ m. m.added ≡ []) }
        ensures is_map { IfOk result (λ m. (t : Table) → IsTable t → IsMapOf t m) }
    {
        let mut rows = Vec::new(alloc);
        rows.push(Trap {
            bottom: None,
            top: None,
            left: None,
            right: None,
        })?;
        let mut is_live = Vec::new(alloc);
        is_live.push(true)?;
        Ok(Traps {
            rows,
            is_live,
            added: Vec::new(alloc),
            lowest: Vec::new(alloc),
            highest: Vec::new(alloc),
        })
    }

    /// The trapezoid of a number, also of one that was cut.
    pub fn trap(&self, n: usize) -> Trap
        requires { n < length self.now.rows }
        ensures { result ≡ row_of self.now.rows n }
    {
        self.rows[n]
    }

    /// How many trapezoids were ever made, those that were cut among them.
    pub fn made(&self) -> usize
        ensures { result ≡ length self.now.rows }
    {
        self.rows.len()
    }

    /// How many trapezoids there are: at most three times the edges added, plus one.
    pub fn live(&self) -> usize
        ensures value { result ≡ live_count self.now.is_live }
        ensures few { (t : Table) → IsMapOf t self.now → result ≤ 3 * length self.now.added + 1 }
    {
        self.is_live.iter().filter(|is_live| **is_live).count()
    }

    // The number of the lowest trapezoid that begins at a corner.
    pub(crate) fn lowest_at(&self, corner: u32) -> usize
        requires { IsSome (named_of self.now.lowest corner) }
        ensures { named_of self.now.lowest corner ≡ Some result }
    {
        name_at(&self.lowest, corner)
    }

    // The number of the highest trapezoid that begins at a corner.
    pub(crate) fn highest_at(&self, corner: u32) -> usize
        requires { IsSome (named_of self.now.highest corner) }
        ensures { named_of self.now.highest corner ≡ Some result }
    {
        name_at(&self.highest, corner)
    }

    /// Adds an edge, which begins in trapezoid `from`: at its left, or strictly inside. Each trapezoid that the edge cuts has one split.
    /// A trapezoid that it does not cut keeps its number and its bounds. After a refusal the map is as before.
    pub fn add(&mut self, ranks: &Ranks<'_>, edge: u32, from: usize) -> Result<Splits, AllocError>
        requires in_range { edge < length ranks.now.ends }
        requires is_map { IsMapOf ranks.now self.old }
        requires is_new { among self.old.added edge ≡ false }
        requires apart { (a : ℕ) → among self.old.added a ≡ true → IsTrue (not (conflict (edge_of ranks.now a) (edge_of ranks.now edge))) }
        requires row { from < length self.old.rows }
        requires is_live { live_of self.old.is_live from ≡ true }
        requires begins { (is_inside ranks.now (row_of self.old.rows from) (corner_of ranks.now (lo_of ranks.now edge)) ≡ true) ⊎ ((row_of self.old.rows from).left ≡ Some (lo_of ranks.now edge)) }
        requires over_bottom { in_order ranks.now (row_of self.old.rows from).bottom (Some edge) ≡ true }
        requires under_top { in_order ranks.now (Some edge) (row_of self.old.rows from).top ≡ true }
        ensures is_map { OnOk result (IsMapOf ranks.now self.new) }
        ensures added { OnOk result (IsAdded ranks.now edge self.old self.new) }
        ensures splits { IfOk result (λ splits. AreSplits ranks.now edge (length self.old.rows) self.new.rows self.old.is_live splits.items) }
        ensures sends { IfOk result (λ splits. AllSendOn ranks.now edge self.new.rows splits.items) }
        ensures refused { OnErr result (self.new ≡ self.old) }
    {
        ranks.law();
        let pieces = self.pieces_of(ranks, edge, from)?;
        self.write(ranks, edge, &pieces.fresh, &pieces.splits)?;
        let Pieces { splits, .. } = pieces;
        Ok(splits)
    }

    // The pieces that an edge makes of the trapezoids that it cuts. Only room is taken for them.
    fn pieces_of(&mut self, ranks: &Ranks<'_>, edge: u32, from: usize) -> Result<Pieces, AllocError>
        requires in_range { edge < length ranks.now.ends }
        requires is_map { IsMapOf ranks.now self.old }
        requires calm { IsCalmSet ranks.now (with_edge (among self.old.added) edge) }
        requires is_new { among self.old.added edge ≡ false }
        requires row { from < length self.old.rows }
        requires is_live { live_of self.old.is_live from ≡ true }
        requires begins { begins_in ranks.now edge (row_of self.old.rows from) ≡ true }
        ensures ok { IfOk result (λ pieces. ArePieces ranks.now self.old edge from pieces.fresh.items pieces.splits.items) }
        ensures same { self.new ≡ self.old }
    {
        let alloc = *self.rows.allocator();
        let walk = walk_along(alloc, self, ranks, edge, from)?;
        self.cut_along(ranks, edge, from, &walk)
    }

    // The pieces of a walk.
    fn cut_along(
        &mut self,
        ranks: &Ranks<'_>,
        edge: u32,
        from: usize,
        walk: &Walk,
    ) -> Result<Pieces, AllocError>
        requires in_range { edge < length ranks.now.ends }
        requires walk { IsWalk ranks.now self.old.added self.old.rows self.old.is_live edge from walk.now.last walk.now.overs.items walk.now.unders.items walk.now.cuts.items }
        ensures ok { IfOk result (λ pieces. ArePieces ranks.now self.old edge from pieces.fresh.items pieces.splits.items) }
        ensures same { self.new ≡ self.old }
    {
        let alloc = *self.rows.allocator();
        let ends = ranks.ends(edge);
        let first = self.trap(from);
        let last = self.trap(walk.last);
        let fresh = fresh_pieces(alloc, edge, ends, walk, first, last)?;
        self.rows.reserve(fresh.len())?;
        let splits = splits(alloc, &self.rows, ends, walk, first)?;
        Ok(Pieces { fresh, splits })
    }

    // Writes the new rows and their names, and that the cut rows are live no longer. All memory is taken before the first change.
    fn write(
        &mut self,
        ranks: &Ranks<'_>,
        edge: u32,
        fresh: &[Trap],
        splits: &[Split],
    ) -> Result<(), AllocError>
        requires in_range { edge < length ranks.now.ends }
        requires flags { length self.old.is_live ≡ length self.old.rows }
        requires cut_rows { (j : ℕ) → j < length splits.now → (split_of splits.now j).cut < length self.old.is_live }
        requires live_rows { (j : ℕ) → j < length splits.now → live_of self.old.is_live (split_of splits.now j).cut ≡ true }
        requires apart { (i j : ℕ) → i < length splits.now → j < length splits.now → (split_of splits.now i).cut ≡ (split_of splits.now j).cut → i ≡ j }
        requires namable { (i : ℕ) → length self.old.rows ≤ i → i < length (self.old.rows ++ fresh.now) → IsNamable ranks.now (hi_of ranks.now edge + 1) (row_of (self.old.rows ++ fresh.now) i) }
        requires one_lowest { IsOneOfAKind (length self.old.rows) (length (self.old.rows ++ fresh.now)) (row_of (self.old.rows ++ fresh.now)) (is_lowest_at ranks.now) }
        requires one_highest { IsOneOfAKind (length self.old.rows) (length (self.old.rows ++ fresh.now)) (row_of (self.old.rows ++ fresh.now)) (is_highest_at ranks.now) }
        ensures rows { OnOk result (self.new.rows ≡ self.old.rows ++ fresh.now) }
        ensures added { OnOk result (self.new.added ≡ self.old.added ++ edge ∷ []) }
        ensures flags { OnOk result (length self.new.is_live ≡ length self.new.rows) }
        ensures stays { OnOk result ((i : ℕ) → i < length self.old.rows → live_of self.new.is_live i ≡ (live_of self.old.is_live i && not (is_cut_by splits.now i))) }
        ensures fresh { OnOk result ((i : ℕ) → length self.old.rows ≤ i → i < length self.new.rows → live_of self.new.is_live i ≡ true) }
        ensures count { OnOk result (live_count self.new.is_live + length splits.now ≡ live_count self.old.is_live + length fresh.now) }
        ensures lowest { OnOk result (Renames (length self.old.rows) (length self.new.rows) (row_of self.new.rows) (is_lowest_at ranks.now) (named_of self.old.lowest) (named_of self.new.lowest)) }
        ensures highest { OnOk result (Renames (length self.old.rows) (length self.new.rows) (row_of self.new.rows) (is_highest_at ranks.now) (named_of self.old.highest) (named_of self.new.highest)) }
        ensures refused { OnErr result (self.new ≡ self.old) }
    {
        let (_, hi) = ranks.ends(edge);
        let corners = hi as usize + 1;
        let from = self.rows.len();
        self.lowest.reserve(corners)?;
        self.highest.reserve(corners)?;
        put_rows(
            &mut self.rows,
            &mut self.is_live,
            &mut self.added,
            edge,
            fresh,
            splits,
        )?;
        name_new(
            ranks,
            &self.rows,
            from,
            Kind::Lowest,
            corners,
            &mut self.lowest,
        );
        name_new(
            ranks,
            &self.rows,
            from,
            Kind::Highest,
            corners,
            &mut self.highest,
        );
        Ok(())
    }
}

// Puts the new rows and the edge behind the others, and marks which rows are live. After a refusal all is as before.
fn put_rows(
    rows: &mut Vec<Trap>,
    is_live: &mut Vec<bool>,
    added: &mut Vec<u32>,
    edge: u32,
    fresh: &[Trap],
    splits: &[Split],
) -> Result<(), AllocError>
    requires flags { length is_live.old.items ≡ length rows.old.items }
    requires cut_rows { (j : ℕ) → j < length splits.now → (split_of splits.now j).cut < length is_live.old.items }
    requires live_rows { (j : ℕ) → j < length splits.now → live_of is_live.old.items (split_of splits.now j).cut ≡ true }
    requires apart { (i j : ℕ) → i < length splits.now → j < length splits.now → (split_of splits.now i).cut ≡ (split_of splits.now j).cut → i ≡ j }
    ensures rows { OnOk result (rows.new.items ≡ rows.old.items ++ fresh.now) }
    ensures added { OnOk result (added.new.items ≡ added.old.items ++ edge ∷ []) }
    ensures flags { OnOk result (length is_live.new.items ≡ length rows.new.items) }
    ensures stays { OnOk result ((i : ℕ) → i < length rows.old.items → live_of is_live.new.items i ≡ (live_of is_live.old.items i && not (is_cut_by splits.now i))) }
    ensures fresh { OnOk result ((i : ℕ) → length rows.old.items ≤ i → i < length rows.new.items → live_of is_live.new.items i ≡ true) }
    ensures count { OnOk result (live_count is_live.new.items + length splits.now ≡ live_count is_live.old.items + length fresh.now) }
    ensures refused { OnErr result ((rows.new.items ≡ rows.old.items) × ((is_live.new.items ≡ is_live.old.items) × (added.new.items ≡ added.old.items))) }
{
    is_live.reserve(fresh.len())?;
    added.reserve(1)?;
    rows.extend_from_slice(fresh)?;
    bury(is_live, splits);
    is_live.resize(rows.len(), true).unwrap();
    added.push(edge).unwrap();
    Ok(())
}

// Marks that the cut rows are live no longer.
fn bury(is_live: &mut [bool], splits: &[Split])
    requires cut_rows { (j : ℕ) → j < length splits.now → (split_of splits.now j).cut < length is_live.old }
    requires live_rows { (j : ℕ) → j < length splits.now → live_of is_live.old (split_of splits.now j).cut ≡ true }
    requires apart { (i j : ℕ) → i < length splits.now → j < length splits.now → (split_of splits.now i).cut ≡ (split_of splits.now j).cut → i ≡ j }
    ensures rows { (i : ℕ) → live_of is_live.new i ≡ (live_of is_live.old i && not (is_cut_by splits.now i)) }
    ensures count { live_count is_live.new + length splits.now ≡ live_count is_live.old }
{
    for split in splits {
        is_live[split.cut] = false;
    }
}
