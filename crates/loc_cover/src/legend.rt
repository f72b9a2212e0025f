// The legend of a table.

ghost use Rattle.std.specs.Prelude.{◌≡◌, ◌<◌, ◌≤◌, All, IfSome, Some, length, map, slice_get, IfOk, IfErr};
ghost use Rattle.loc_spec_text.specs.Limits.{most_features};
ghost use Rattle.loc_spec_plane.specs.Tables.{AllEnds, AllEven, NoConflict};
ghost use Rattle.loc_spec_plane.specs.Covers.{feature_count};
ghost use Rattle.loc_rings.specs.Values.{Feature as FeatureOf};
ghost use Rattle.loc_edges.specs.Floors.{AreFloors};
ghost use Rattle.loc_cover.specs.Legends.{AreLists, FitsTable, IsFew, IsRefused, IsSound, IsTrueLegend, list_above};

use crate::LegendFault;
use crate::covers::cover_rows;
use crate::touching::{touching_corners, touching_edges};
use loc_edges::{EdgeTable, Floors, Rows};
use loc_rings::Layer;
use std::alloc::{AllocError, Global};
use std::marker::Model;

/// The ids of the features, the features that touch each corner and each edge, the distinct cover lists in lexicographic order, the list
/// above each edge by its number among them, and the floor of each corner.
#[derive(Drop)]
pub struct Legend {
    ids: Rows<u8>,
    on_corner: Rows<u32>,
    on_edge: Rows<u32>,
    lists: Rows<u32>,
    above: Vec<u32>,
    floors: Vec<Option<u32>>,
}

impl Model for Legend {
    ghost use Rattle.loc_cover.specs.Legends.{IsSound, LegendRows};

    ghost Value = { LegendRows };

    ghost view = { λ l. record {
      ids = l.ids;
      on_corner = l.on_corner;
      on_edge = l.on_edge;
      lists = l.lists;
      above = l.above.items;
      floors = l.floors.items;
    } };

    ghost invariant = { λ l. IsSound (record {
      ids = l.ids;
      on_corner = l.on_corner;
      on_edge = l.on_edge;
      lists = l.lists;
      above = l.above.items;
      floors = l.floors.items;
    }) };
}

// Lists one behind another.
fn rows_of<T: Copy>(alloc: Global, lists: &[Vec<T>]) -> Result<Rows<T>, AllocError>
    ensures { IfOk result (λ rows. rows ≡ map (λ list. list.items) lists.now) }
{
    let mut rows = Rows::new(alloc);
    for list in lists {
        rows.push(list)?;
    }
    Ok(rows)
}

// The same of lists that are let go.
fn flat<T: Copy + Drop>(alloc: Global, lists: Vec<Vec<T>>) -> Result<Rows<T>, AllocError>
    ensures { IfOk result (λ rows. rows ≡ map (λ list. list.items) lists.items) }
{
    rows_of(alloc, &lists)
}

impl Legend {
    /// The legend of a table of the features of a layer, from the floors that a sweep left. It is refused exactly where the distinct cover
    /// lists have more than 16,777,216 members together, want of memory aside.
    pub fn make(
        alloc: Global,
        layer: &Layer,
        table: &EdgeTable,
        floors: &Floors,
    ) -> Result<Legend, LegendFault>
        requires all_ends { AllEnds table.now }
        requires all_even { AllEven table.now }
        requires apart { NoConflict table.now }
        requires features { feature_count table.now ≤ length layer.now }
        requires swept { AreFloors table.now floors.now }
        ensures ids { IfOk result (λ rows. rows.ids ≡ map (λ (f : FeatureOf). f.id) layer.now) }
        ensures fits { IfOk result (FitsTable table.now) }
        ensures is_true { IfOk result (IsTrueLegend table.now) }
        ensures few { IfOk result (λ _. IsFew table.now) }
        ensures refused { IfErr result (IsRefused table.now) }
    {
        let ids = layer.ids(alloc)?;
        Legend::with_ids(alloc, ids, table, floors)
    }

    /// The same for features with these ids, which it takes.
    pub fn with_ids(
        alloc: Global,
        ids: Vec<Vec<u8>>,
        table: &EdgeTable,
        floors: &Floors,
    ) -> Result<Legend, LegendFault>
        requires few_features { length ids.items ≤ most_features }
        requires all_ends { AllEnds table.now }
        requires all_even { AllEven table.now }
        requires apart { NoConflict table.now }
        requires features { feature_count table.now ≤ length ids.items }
        requires swept { AreFloors table.now floors.now }
        ensures ids { IfOk result (λ rows. rows.ids ≡ map (λ id. id.items) ids.items) }
        ensures fits { IfOk result (FitsTable table.now) }
        ensures is_true { IfOk result (IsTrueLegend table.now) }
        ensures few { IfOk result (λ _. IsFew table.now) }
        ensures refused { IfErr result (IsRefused table.now) }
    {
        // the ids of their own are let go before anything else is made
        let ids = flat(alloc, ids)?;
        let (covers, cover_of) = cover_rows(alloc, table, floors.of_edge())?;
        let floors = Vec::from_slice(alloc, floors.of_corner())?;
        Ok(Legend::assemble(alloc, table, ids, covers, cover_of, floors)?)
    }

    /// The legend of a table with these ids, these cover lists, the number of the list above each edge, and these floors, which may be those
    /// of no sweep. The features that touch each corner and each edge are those of the marks.
    pub fn of_parts(
        alloc: Global,
        table: &EdgeTable,
        ids: Vec<Vec<u8>>,
        covers: Vec<Vec<u32>>,
        cover_of: Vec<u32>,
        floors: Vec<Option<u32>>,
    ) -> Result<Legend, AllocError>
        requires few_features { length ids.items ≤ most_features }
        requires features { feature_count table.now ≤ length ids.items }
        requires covers { AreLists (length table.now.ends) (map (λ list. list.items) covers.items) }
        requires covers_named { All (All (λ f. f < length ids.items)) (map (λ list. list.items) covers.items) }
        requires as_many_edges { length cover_of.items ≡ length table.now.ends }
        requires cover_in_range { All (λ n. n < length covers.items) cover_of.items }
        requires as_many_corners { length floors.items ≡ length table.now.corners }
        requires floors_in_range { All (λ floor. IfSome floor (λ e. e < length table.now.ends)) floors.items }
        ensures ids { IfOk result (λ rows. rows.ids ≡ map (λ id. id.items) ids.items) }
        ensures covers { IfOk result (λ rows. rows.lists ≡ map (λ list. list.items) covers.items) }
        ensures cover_of { IfOk result (λ rows. rows.above ≡ cover_of.items) }
        ensures floors { IfOk result (λ rows. rows.floors ≡ floors.items) }
        ensures fits { IfOk result (FitsTable table.now) }
    {
        let ids = flat(alloc, ids)?;
        let lists = flat(alloc, covers)?;
        Legend::assemble(alloc, table, ids, lists, cover_of, floors)
    }

    // The legend with these rows, and with the features that touch each corner and each edge.
    fn assemble(
        alloc: Global,
        table: &EdgeTable,
        ids: Rows<u8>,
        lists: Rows<u32>,
        above: Vec<u32>,
        floors: Vec<Option<u32>>,
    ) -> Result<Legend, AllocError>
        requires few_features { length ids ≤ most_features }
        requires features { feature_count table.now ≤ length ids }
        requires lists { AreLists (length table.now.ends) lists }
        requires lists_named { All (All (λ f. f < length ids)) lists }
        requires as_many_edges { length above.items ≡ length table.now.ends }
        requires above_in_range { All (λ n. n < length lists) above.items }
        requires as_many_corners { length floors.items ≡ length table.now.corners }
        requires floors_in_range { All (λ floor. IfSome floor (λ e. e < length table.now.ends)) floors.items }
        ensures ids { IfOk result (λ rows. rows.ids ≡ ids) }
        ensures lists { IfOk result (λ rows. rows.lists ≡ lists) }
        ensures above { IfOk result (λ rows. rows.above ≡ above.items) }
        ensures floors { IfOk result (λ rows. rows.floors ≡ floors.items) }
        ensures fits { IfOk result (FitsTable table.now) }
    {
        table.law();
        let on_corner = touching_corners(alloc, table)?;
        let on_edge = touching_edges(alloc, table)?;
        Ok(Legend {
            ids,
            on_corner,
            on_edge,
            lists,
            above,
            floors,
        })
    }

    /// What is true of every legend, as a call that does no work: its numbers are those of its rows, which are in order.
    pub fn law(&self)
        ensures { IsSound self.now }
    {
        let _ids = &self.ids;
    }

    /// How many features there are.
    pub fn features(&self) -> u32
        ensures { result ≡ length self.now.ids }
    {
        self.ids.len() as u32
    }

    /// How many distinct cover lists there are.
    pub fn covers(&self) -> u32
        ensures { result ≡ length self.now.lists }
    {
        self.lists.len() as u32
    }

    /// Cover list n, in lexicographic order.
    pub fn cover(&self, n: u32) -> &[u32]
        requires { n < length self.now.lists }
        ensures { slice_get self.now.lists n ≡ Some result.now }
    {
        self.lists.row(n as usize)
    }

    /// The number of the cover list above an edge.
    pub fn cover_of(&self, edge: u32) -> u32
        requires { edge < length self.now.above }
        ensures value { slice_get self.now.above edge ≡ Some result }
        ensures in_range { result < length self.now.lists }
    {
        self.above[edge as usize]
    }

    /// The bytes of the id of a feature.
    pub fn id(&self, feature: u32) -> &[u8]
        requires { feature < length self.now.ids }
        ensures { slice_get self.now.ids feature ≡ Some result.now }
    {
        self.ids.row(feature as usize)
    }

    /// The features that touch corner n, in order.
    pub fn on_corner(&self, n: u32) -> &[u32]
        requires { n < length self.now.on_corner }
        ensures { slice_get self.now.on_corner n ≡ Some result.now }
    {
        self.on_corner.row(n as usize)
    }

    /// The features that touch edge n, in order.
    pub fn on_edge(&self, n: u32) -> &[u32]
        requires { n < length self.now.on_edge }
        ensures { slice_get self.now.on_edge n ≡ Some result.now }
    {
        self.on_edge.row(n as usize)
    }

    /// The cover list above an edge: the features that cover what lies just above it, in order.
    pub fn above(&self, edge: u32) -> &[u32]
        requires { edge < length self.now.above }
        ensures { result.now ≡ list_above self.now edge }
    {
        self.lists.row(self.above[edge as usize] as usize)
    }

    /// The floor of a corner: the edge just below it, where there is one.
    pub fn floor(&self, corner: u32) -> Option<u32>
        requires { corner < length self.now.floors }
        ensures { slice_get self.now.floors corner ≡ Some result }
    {
        self.floors[corner as usize]
    }
}
