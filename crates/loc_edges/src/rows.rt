// Rows that lie one behind another in one list.

ghost use Rattle.std.specs.Prelude.{◌≡◌, ◌<◌, ◌≤◌, ◌-◌, ◌++◌, ◌∷◌, [], Some, length, replicate, slice_get, slice_index_or, slice_set, map, All, IfOk, OnOk};
ghost use Rattle.std.specs.List.Sorted.{IsNonDecreasingBy};
ghost use Rattle.loc_spec_plane.specs.Lists.{numbers};
ghost use Rattle.loc_edges.specs.Ending.{row_of};
ghost use Rattle.loc_edges.specs.RowLists.{start_of};

use std::alloc::{AllocError, Global};
use std::marker::Model;

/// Rows of items, and the place in the list where each starts. A row ends where the next starts, the last where the list ends.
#[derive(Drop)]
pub struct Rows<T> {
    items: Vec<T>,
    starts: Vec<usize>,
}

impl<T> Model for Rows<T> {
    ghost use Rattle.std.specs.Prelude.{List};
    ghost use Rattle.loc_edges.specs.RowLists.{rows_of, AreStarts};

    ghost Value = { List (List T) };

    ghost view = { λ r. rows_of r.items.items r.starts.items };

    ghost invariant = { λ r. AreStarts r.items.items r.starts.items };
}

// Where row n starts, and where the row before it ends.
fn start_at<T>(items: &[T], starts: &[usize], n: usize) -> usize
    ensures { result ≡ start_of items.now starts.now n }
{
    match starts.get(n) {
        Some(start) => *start,
        None => items.len(),
    }
}

impl<T: Copy> Rows<T> {
    /// No rows.
    pub fn new(alloc: Global) -> Rows<T>
        ensures { result ≡ [] }
    {
        Rows {
            items: Vec::new(alloc),
            starts: Vec::new(alloc),
        }
    }

    /// How many rows there are.
    pub fn len(&self) -> usize
        ensures { result ≡ length self.now }
    {
        self.starts.len()
    }

    /// Row n.
    pub fn row(&self, n: usize) -> &[T]
        requires { n < length self.now }
        ensures { slice_get self.now n ≡ Some result.now }
    {
        let start = start_at(&self.items, &self.starts, n);
        let end = start_at(&self.items, &self.starts, n + 1);
        &self.items[start..end]
    }

    /// Starts rows behind the last, so that there are so many.
    pub fn start(&mut self, count: usize) -> Result<(), AllocError>
        requires { length self.old ≤ count }
        ensures { OnOk result (self.new ≡ self.old ++ replicate (count - length self.old) []) }
    {
        self.starts.resize(count, self.items.len())
    }

    /// Puts items behind those of the last row.
    pub fn extend(&mut self, more: &[T]) -> Result<(), AllocError>
        requires { 0 < length self.old }
        ensures { OnOk result (self.new ≡ slice_set self.old (length self.old - 1) (slice_index_or self.old (length self.old - 1) [] ++ more.now)) }
    {
        self.items.extend_from_slice(more)
    }

    /// Puts a row behind the last.
    pub fn push(&mut self, row: &[T]) -> Result<(), AllocError>
        ensures { OnOk result (self.new ≡ self.old ++ row.now ∷ []) }
    {
        let count = self.starts.len() + 1;
        self.start(count)?;
        self.extend(row)
    }

    /// The items of each key below the count, from items behind their keys in the order of the keys.
    pub fn by_key(alloc: Global, keyed: &[(u32, T)], count: usize) -> Result<Rows<T>, AllocError>
        requires in_order { IsNonDecreasingBy (λ pair. pair.0) keyed.now }
        requires in_range { All (λ pair. pair.0 < count) keyed.now }
        ensures { IfOk result (λ rows. rows ≡ map (row_of keyed.now) (numbers count)) }
    {
        let mut rows = Rows::new(alloc);
        for pair in keyed {
            rows.start(pair.0 as usize + 1)?;
            rows.extend(&[pair.1])?;
        }
        rows.start(count)?;
        Ok(rows)
    }
}
